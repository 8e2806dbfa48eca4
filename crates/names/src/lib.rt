// The names of all labels that were met, by their marks: question 06, "Is each label new?", and 70, "is the label none of these?"
#![tactic(auto)]

ghost use Rattle.std.specs.Prelude.{◌≡◌, [], ◌∷◌, ◌++◌, map, take, drop};
ghost use Rattle.lists.specs.Lists.{any, bytes_equal};
ghost use Rattle.drafts.specs.Marks.{place_by, word_by};
ghost use Rattle.statements.specs.StatementAt.{fault_of};
ghost use Rattle.names.specs.Names.{Fitting, Marks, Sought, names_of, Askable, own_repeated, repeated_by, reserved_by};

use drafts::{length_of, place_of, word_of};
use packed::cell_of;
use statements::{Fault, lower};

// Whether the `len` bytes at `at` are the word of a mark. Most words differ in their length or in their last bytes. A plain `==` of the two words is
// slower: 41 us for 10 for question 06 of 128 labels of 60 characters, 24 for 7 of 102 labels of 8.
fn name_is(text: &[u8], m: usize, at: usize, len: usize) -> bool
    requires { Fitting text.now m at len }
    ensures { result ≡ bytes_equal (take len (drop at text.now)) (word_by text.now m) }
{
    if length_of(m) != len {
        return false;
    }
    let from = place_of(m);
    if 4 <= len {
        if cell_of(text, at + (len - 4)) != cell_of(text, from + (len - 4)) {
            return false;
        }
    }
    spelling::same_word(text, at, from, len)
}

// Whether one of some names is the `len` bytes at `at`.
fn has_name(text: &[u8], names: &[u32], at: usize, len: usize) -> bool
    requires { Sought text.now names.now at len }
    ensures { result ≡ any (bytes_equal (take len (drop at text.now))) (names_of text.now names.now) }
{
    names.iter().any(|m| name_is(text, *m as usize, at, len))
}

// The place of a name, if it is one of those of two rows.
fn met_before(text: &[u8], before: &[u32], names: &[u32], m: usize) -> Fault
    requires { Askable text.now before.now names.now m }
    ensures { result ≡ fault_of (own_repeated text.now (names_of text.now before.now ++ names_of text.now names.now) m) }
{
    let at = place_of(m);
    let len = length_of(m);
    if has_name(text, before, at, len) {
        return Some(at);
    }
    has_name(text, names, at, len).then_some(at)
}

// Question 06 of some names, which stand behind others.
pub fn first_repeated(text: &[u8], before: &[u32], names: &[u32]) -> Fault
    requires { Marks text.now before.now × Marks text.now names.now }
    ensures { result ≡ fault_of (repeated_by text.now (names_of text.now before.now) names.now) }
{
    let mut fault = None;
    for (k, m) in names.iter().enumerate() {
        fault = lower(fault, met_before(text, before, &names[..k], *m as usize));
    }
    fault
}

// The place of the word of a mark, if it is a keyword of either edition.
fn own_reserved(text: &[u8], m: usize) -> Fault
    ensures { result ≡ fault_of (reserved_by text.now (m ∷ [])) }
{
    words::is_reserved(word_of(text, m)).then_some(place_of(m))
}

// Question 70 of some names.
pub fn first_reserved(text: &[u8], names: &[u32]) -> Fault
    requires { Marks text.now names.now }
    ensures { result ≡ fault_of (reserved_by text.now names.now) }
{
    names
        .iter()
        .fold(None, |low, m| lower(low, own_reserved(text, *m as usize)))
}

// The lowest place of the names of some marks.
pub fn lowest_mark(marks: &[u32]) -> Fault
    ensures { result ≡ fault_of (map place_by marks.now) }
{
    marks
        .iter()
        .fold(None, |low, m| lower(low, Some(place_of(*m as usize))))
}
