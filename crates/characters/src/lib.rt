// The 87 characters: their ranks and classes, and the order of two words.
#![tactic(auto)]

ghost use Rattle.std.specs.Prelude.{◌≡◌, ◌<◌, eqb, position};
ghost use Rattle.lists.specs.Lists.{all};
ghost use Rattle.characters.specs.Characters.{rank, byte_of, known, between, is_capital, is_digit, class_of, precedes};
ghost use Rattle.characters.specs.Classes.{letter_of, place_of};

pub const COUNT: usize = 87;

// The characters by rank: that of rank k at k - 1, and the letter of its class at the same place of `CLASSES`.
const CHARACTERS: [u8; COUNT] =
    *b" .(+*);-/,:'=[]<>?\x1b\x0eABCDEFGHIJKLMNOPQRSTUVWXYZabcdefghijklmnopqrstuvwxyz\x0f0123456789\n\x0c\r\x7f";

pub const CLASSES: [u8; COUNT] =
    *b"BRRRRRRRRRRRRRRRRRRRLLLLLLLLLLLLLLLLLLLLLLLLLLLLLLLLLLLLLLLLLLLLLLLLLLLLRDDDDDDDDDDRRRR";

// By byte: 1 for a character and 0 for any other. A table, since a match over ranges takes three to five times as long a byte; a static, since a
// constant would be copied at each use.
static MARKS: [u8; 256] =
    *b"0000000000101111000000000001000010000001111111111111111111111111011111111111111111111111111101000111111111111111111111111110000100000000000000000000000000000000000000000000000000000000000000000000000000000000000000000000000000000000000000000000000000000000";

// "Classes: L letters, D digits, B space, R the rest"
#[derive(Clone, Copy, Debug, PartialEq, Eq)]
pub enum Class {
    Letter,
    Digit,
    Space,
    Rest,
}

impl Class {
    // The class of a byte.
    pub fn of(b: u8) -> Self
        ensures { letter_of result ≡ class_of b }
    {
        match b {
            b'A'..=b'Z' | b'a'..=b'z' => Class::Letter,
            b'0'..=b'9' => Class::Digit,
            b' ' => Class::Space,
            _ => Class::Rest,
        }
    }

    pub fn letter(self) -> u8
        ensures { result ≡ letter_of self }
    {
        match self {
            Class::Letter => b'L',
            Class::Digit => b'D',
            Class::Space => b'B',
            Class::Rest => b'R',
        }
    }

    // The place of the letter in LDBR.
    pub fn place(self) -> u8
        ensures { (result ≡ place_of self) × (result < 4) }
    {
        self as u8
    }
}

// The character of a rank, and 0 for a number that is none: 0 and no Option, since the definition has it, and no other character is 0.
pub fn byte_of(r: usize) -> u8
    ensures { result ≡ byte_of r }
{
    let Some(k) = r.checked_sub(1) else {
        return 0;
    };
    CHARACTERS.get(k).copied().unwrap_or(0)
}

// The letter of the class of the character of a rank.
pub fn class_at(r: usize) -> u8
    ensures { result ≡ class_of (byte_of r) }
{
    if r == 0 {
        return b'R';
    }
    if COUNT < r {
        return b'R';
    }
    CLASSES[r - 1]
}

pub fn between(a: u8, z: u8, b: u8) -> bool
    ensures { result ≡ between a z b }
{
    (a <= b) & (b <= z)
}

pub fn is_capital(b: u8) -> bool
    ensures { result ≡ is_capital b }
{
    between(b'A', b'Z', b)
}

pub fn is_digit(b: u8) -> bool
    ensures { result ≡ is_digit b }
{
    between(b'0', b'9', b)
}

// The place of a byte in a table.
fn place_in(b: u8, table: &[u8]) -> Option<usize>
    ensures { result ≡ position (eqb b) table.now }
{
    table.iter().position(|x| b == *x)
}

// A is 21, Z 46, a 47, z 72, SI 73, 0 74; a byte that is no character comes after the last. Letters and digits need no table.
fn rank(b: u8) -> usize
    ensures { result ≡ rank b }
{
    if is_capital(b) {
        return usize::from(b - b'A') + 21;
    }
    if between(b'a', b'z', b) {
        return usize::from(b - b'a') + 47;
    }
    if is_digit(b) {
        return usize::from(b - b'0') + 74;
    }
    place_in(b, &CHARACTERS).unwrap_or(COUNT) + 1
}

// Whether a byte is a character.
pub fn is_known(b: u8) -> bool
    ensures { result ≡ known b }
{
    MARKS[usize::from(b)] == b'1'
}

pub fn all_known(s: &[u8]) -> bool
    ensures { result ≡ all known s.now }
{
    s.iter().all(|b| is_known(*b))
}

// The first place where the words differ decides, and where there is none their lengths.
pub fn precedes(v: &[u8], w: &[u8]) -> bool
    ensures { result ≡ precedes v.now w.now }
{
    for (x, y) in v.iter().zip(w) {
        if x != y {
            return rank(*x) < rank(*y);
        }
    }
    v.len() < w.len()
}
