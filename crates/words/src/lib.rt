// Words of a text: identifiers, classes, numbers, indexed letters and keywords, by their bytes.
#![tactic(auto)]

ghost use Rattle.std.specs.Prelude.{◌≡◌, Some, true, false, cond, not, ◌||◌, ◌+◌, ◌-◌, ◌*◌, ◌≤◌, ◌<◌};
ghost use Rattle.std.specs.Option.{option_map};
ghost use Rattle.appending.specs.Appending.{Appends};
ghost use Rattle.syntax.specs.Below.Characters.{is_capital, is_digit};
ghost use Rattle.syntax.specs.Below.Program.{identifier};
ghost use Rattle.syntax.specs.Below.Lists.{all, among};
ghost use Rattle.syntax.specs.Statements.{reserved};
ghost use Rattle.words.specs.Words.{class_letter, is_class, class_of, numeral_of, Lettering, letter_meant, indexed_of};
ghost use Rattle.words.specs.Keywords.{is_english, is_own, known, keyword_at, word_at, is_shared, Found, Placed, other_word, slot, guess, Lent};

use appending::append;
use language::Operator;
use syntax::from_characters;
use table::Letter;

// The words of each edition, one after the other by their pairs; that at place j goes from start j to the next. By slot, `(` plus the place of the word
// that has it; where none has it, any.
const POLISH: [u8; 221] =
    *b"SEKCJAKONSKONPINDEKSNAZWAPRZESLIJCZYTAJPISZKOPIUJWSTAWPOBIERZSCHOWAJUSTAWZAMIENUMIESCUSUNSKRESLRWWKMNPPNSRZSKOCZWYKONAJSKOMISKOPLWYMIWYPLSKONASKOINWYNAWYINWROCDODAJODEJMIJMNOZDZIELSLOWOLICZBAZBIJROZBIJSZUKAJOMINCOFNIJSTOP";

const POLISH_STARTS: [u8; 47] = [
    0, 6, 10, 14, 20, 25, 33, 39, 43, 49, 54, 61, 68, 73, 79, 85, 89, 95, 97, 99, 101, 103, 105,
    107, 112, 119, 124, 129, 133, 137, 142, 147, 151, 155, 159, 164, 171, 175, 180, 185, 191, 195,
    201, 207, 211, 217, 221,
];

const POLISH_SLOTS: [u8; 128] =
    *b"((((((((((F(((EOR(3(HN;(G(((((@M((((((((T(((0((B(((((((*(D(I(4(((+(1(((9L(((8(K(,((-<Q((U((((6)(.J(=(((:(P(((A>(?(2((/(C((7(S5((";

const ENGLISH: [u8; 194] =
    *b"SECTIONENDSKONPINDEXNAMEMOVEREADWRITECOPYPUTGETSAVERESTOREEXCHANGESETCLEARDELETEEQGTLTPRFLERGOTOCALLGOMIGOPLCAMICAPLGONAGOINCANACAINRETURNADDSUBMULTDIVWORDNUMBERCOMPRESSSPLITSEARCHSHIFTRESETSTOP";

const ENGLISH_STARTS: [u8; 47] = [
    0, 7, 11, 15, 20, 24, 28, 32, 37, 41, 44, 47, 51, 58, 66, 69, 74, 80, 82, 84, 86, 88, 90, 92,
    96, 100, 104, 108, 112, 116, 120, 124, 128, 132, 138, 141, 144, 148, 151, 155, 161, 169, 174,
    180, 185, 190, 194,
];

const ENGLISH_SLOTS: [u8; 128] =
    *b"(+((((1(((?(((.()*=(I(((((5(((((O((((@(((((20U(((:(((D(((K(((((H(B(((,(8((<F((P6T(((;((SM((LG((((N(Q(J-(ER94(7((C(((((((3(((A>/(";

// An indexed letter.
#[derive(Clone, Copy, Debug, PartialEq, Eq)]
pub struct Lettered {
    pub letter: Letter,
    pub index: u8,
}

#[derive(Clone, Copy, Debug, PartialEq, Eq)]
pub enum Keyword {
    Sekcja,
    Kons,
    Konp,
    // NAZWA or, otherwise, INDEKS, as `switch goes_by_name` of the specification
    Switch(bool),
    Instr(Operator),
}

#[derive(Clone, Copy, Debug, PartialEq, Eq)]
pub enum Edition {
    Polish,
    English,
}

impl Edition {
    pub fn other(self) -> Self
        ensures { is_english result ≡ not (is_english self) }
    {
        match self {
            Edition::Polish => Edition::English,
            Edition::English => Edition::Polish,
        }
    }
}

// The keyword that a word is, and the edition whose own the word is; none, where both have it.
#[derive(Clone, Copy, Debug, PartialEq, Eq)]
pub struct Known {
    pub keyword: Keyword,
    pub edition: Option<Edition>,
}

impl Known {
    pub fn is_own(self, edition: Edition) -> bool
        ensures { result ≡ is_own (is_english edition) (Some self) }
    {
        self.edition == Some(edition)
    }
}

fn all_continue(w: &[u8]) -> bool
    ensures { result ≡ all (λ b. is_capital b || is_digit b) w.now }
{
    w.iter().all(|b| from_characters::is_capital(*b) | from_characters::is_digit(*b))
}

pub fn identifier(w: &[u8]) -> bool
    ensures { result ≡ identifier w.now }
{
    let Some((first, rest)) = w.split_first() else {
        return false;
    };
    from_characters::is_capital(*first) & all_continue(rest)
}

fn all_class_letters(w: &[u8]) -> bool
    ensures { result ≡ all class_letter w.now }
{
    w.iter().all(|b| b"LDBR".contains(b))
}

fn is_class(w: &[u8]) -> bool
    ensures { result ≡ is_class w.now }
{
    !w.is_empty() & all_class_letters(w)
}

fn has(w: &[u8], b: u8) -> bool
    ensures { result ≡ among b w.now }
{
    w.contains(&b)
}

// Four of these are added up: a product with `u8::from(t)` is no plainer.
fn bit(t: bool, n: u8) -> u8
    ensures { (result ≡ cond t n 0) × (result ≤ n) }
{
    if t { n } else { 0 }
}

// The letters of a class, L 1, D 2, B 4, R 8; none for a word that is no class.
pub fn class_mask(w: &[u8]) -> Option<u8>
    ensures { result ≡ class_of w.now }
{
    if !is_class(w) {
        return None;
    }
    Some(bit(has(w, b'L'), 1) + bit(has(w, b'D'), 2) + bit(has(w, b'B'), 4) + bit(has(w, b'R'), 8))
}

// The code of a number in range, as the table of a program has it: its value + 8,388,607.
pub fn number_of(w: &[u8]) -> Option<u32>
    ensures { result ≡ numeral_of w.now }
{
    numerals::read_decimal(w).ok()
}

// The letter of arguments that a byte spells.
fn letter_at(b: u8) -> Option<Letter>
    ensures { Lettering b result }
{
    Some(match b {
        b'A' => Letter::A,
        b'B' => Letter::B,
        b'C' => Letter::C,
        b'D' => Letter::D,
        b'E' => Letter::E,
        b'I' => Letter::I,
        b'N' => Letter::N,
        b'P' => Letter::P,
        b'Q' => Letter::Q,
        b'T' => Letter::T,
        b'Y' => Letter::Y,
        b'Z' => Letter::Z,
        _ => return None,
    })
}

pub fn indexed(w: &[u8]) -> Option<Lettered>
    ensures { option_map letter_meant result ≡ indexed_of w.now }
{
    let (first, digits) = w.split_first()?;
    let letter = letter_at(*first)?;
    let leading = digits.first()?;
    if *leading <= b'0' {
        return None;
    }
    let n = numerals::measure(digits)?;
    if letter.reach() < n {
        return None;
    }
    Some(Lettered {
        letter,
        index: n as u8,
    })
}

// The words of an edition, lent with what finds them.
#[derive(Clone, Copy, Debug, PartialEq, Eq)]
struct Lexicon<'a> {
    edition: Edition,
    row: &'a [u8],
    starts: &'a [u8],
    slots: &'a [u8],
    ghost lent: { Lent (is_english edition) row.now starts.now slots.now },
}

impl<'a> Lexicon<'a> {
    fn of(edition: Edition) -> Self
        ensures { result.edition ≡ edition }
    {
        match edition {
            Edition::Polish => Lexicon {
                edition,
                row: &POLISH,
                starts: &POLISH_STARTS,
                slots: &POLISH_SLOTS,
            },
            Edition::English => Lexicon {
                edition,
                row: &ENGLISH,
                starts: &ENGLISH_STARTS,
                slots: &ENGLISH_SLOTS,
            },
        }
    }

    // The word at place j.
    fn word(&self, j: u8) -> &'a [u8]
        requires { j < 46 }
        ensures { result.now ≡ word_at (is_english self.now.edition) j }
    {
        let i = usize::from(j);
        let from = usize::from(self.starts[i]);
        let to = usize::from(self.starts[i + 1]);
        &self.row[from..to]
    }

    // A number from a word's length and letters that no two words of the edition share.
    #[tactic(auto, unfolding(crate::specs::Keywords::slot))]
    fn slot(&self, w: &[u8]) -> usize
        ensures { (result ≡ slot (is_english self.now.edition) w.now) × (result < 128) }
    {
        let n = w.len();
        if n < 2 {
            return 0;
        }
        if 8 < n {
            return 0;
        }
        let first = usize::from(w[0]);
        let before = usize::from(w[n - 2]);
        let last = usize::from(w[n - 1]);
        match self.edition {
            Edition::Polish => (2 * n + 3 * first + 9 * before + 13 * last) % 128,
            Edition::English => (2 * n + 3 * first + 4 * before + 19 * last) % 128,
        }
    }

    // The place to which a word's slot leads: the only one that the word can have.
    fn guess(&self, w: &[u8]) -> u8
        ensures { (result ≡ guess (is_english self.now.edition) w.now) × (result < 46) }
    {
        let h = self.slot(w);
        self.slots[h] - b'('
    }

    // The place of a word among those of the edition.
    fn place(&self, w: &[u8]) -> Option<u8>
        ensures { Placed (is_english self.now.edition) w.now result }
    {
        let j = self.guess(w);
        (w == self.word(j)).then_some(j)
    }
}

// The keyword whose words have place j.
#[tactic(auto, unfolding(crate::specs::Keywords::keyword_at))]
fn keyword_at(j: u8) -> Keyword
    requires { j < 46 }
    ensures { Some result ≡ keyword_at j }
{
    match j {
        0 => Keyword::Sekcja,
        1 => Keyword::Kons,
        2 => Keyword::Konp,
        3 => Keyword::Switch(false),
        4 => Keyword::Switch(true),
        _ => Keyword::Instr(Operator::try_from(j - 4).unwrap()),
    }
}

// Whether both editions have the word of a keyword: KONP and STOP.
fn is_shared(keyword: Keyword) -> bool
    ensures { result ≡ is_shared keyword }
{
    matches!(keyword, Keyword::Konp | Keyword::Instr(Operator::STOP))
}

// The edition that has a word, the Polish one where both have it, and the word's place there.
fn found(w: &[u8]) -> Option<(Edition, u8)>
    ensures { Found w.now result }
{
    if let Some(j) = Lexicon::of(Edition::Polish).place(w) {
        return Some((Edition::Polish, j));
    }
    let k = Lexicon::of(Edition::English).place(w)?;
    Some((Edition::English, k))
}

// What is known of a word, if it is a keyword of either edition.
pub fn keyword_of(w: &[u8]) -> Option<Known>
    ensures { result ≡ known w.now }
{
    let (edition, j) = found(w)?;
    let keyword = keyword_at(j);
    Some(Known {
        keyword,
        edition: (!is_shared(keyword)).then_some(edition),
    })
}

// Whether a word is a keyword of either edition.
pub fn is_reserved(w: &[u8]) -> bool
    ensures { result ≡ reserved w.now }
{
    found(w).is_some()
}

// Appends what a word is in the other edition: the word that has its place there. A word of no edition is itself.
pub fn append_other(w: &[u8], out: &mut [u8], at: usize) -> Option<usize>
    ensures { Appends out.old at (other_word w.now) result out.new }
{
    let Some((edition, j)) = found(w) else {
        return append(out, at, w);
    };
    append(out, at, Lexicon::of(edition.other()).word(j))
}
