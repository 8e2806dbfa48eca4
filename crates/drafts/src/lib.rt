// What a text is while it is read: definitions; and the mark of a word, which is its place and its length in one number.
// A number and no struct: marks stand in lent rows and in cells of the table, and a struct would be made of one and turned to one at each use.
#![tactic(auto)]

ghost use Rattle.std.specs.Prelude.{◌≡◌, ◌≤◌};
ghost use Rattle.drafts.specs.Marks.{mark_of, place_by, length_by, word_by};

// The place stands this many times in a mark. No `layout::Pair`: a word that is too long has a length of 64 and more, and its mark is promised too.
const FOLD: usize = 64;

// The mark of the word of `len` bytes at `at`.
pub fn mark(at: usize, len: usize) -> u32
    requires { (at ≤ 32768) × (len ≤ 32768) }
    ensures { result ≡ mark_of at len }
{
    (at * FOLD + len) as u32
}

// The place that a mark names.
pub fn place_of(m: usize) -> usize
    ensures { result ≡ place_by m }
{
    m / FOLD
}

// The length that it names.
pub fn length_of(m: usize) -> usize
    ensures { result ≡ length_by m }
{
    m % FOLD
}

// The word that it names, or what of it is in the text.
pub fn word_of(text: &[u8], m: usize) -> &[u8]
    ensures { result.now ≡ word_by text.now m }
{
    let n = text.len();
    let at = n.min(place_of(m));
    let end = n.min(place_of(m) + length_of(m));
    &text[at..end]
}
