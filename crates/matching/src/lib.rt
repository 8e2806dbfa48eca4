// Tests of components and characters in bytes, and how much of a sequence a test takes.
#![tactic(auto)]

ghost use Rattle.std.specs.Prelude.{◌≡◌, ◌<◌, [], length, position, unwrap_or};
ghost use Rattle.std.specs.Option.{is_some};
ghost use Rattle.characters.specs.Below.Lists.{all, any, among};
ghost use Rattle.characters.specs.Characters.{class_place};
ghost use Rattle.components.specs.Below.LanguageValues.{same, of_class};
ghost use Rattle.components.specs.Below.Components.{component_in, components_in};
ghost use Rattle.components.specs.Below.Table.{class_by};
ghost use Rattle.components.specs.Parts.{Leading, Written};
ghost use Rattle.matching.specs.Tests.{in_class, first_chars, until, until_chars, reached_by, stops_before, Comparable, Stoppable, Countable, FirstRoom, FirstPut, FirstsRoom, Took, TookChars};

use components::Amount;

// A test of a move. `Class` has the mask of its class: L 1, D 2, B 4, R 8; `Among` has what it compares with.
// The mask is a number, as the cell has it: `class_by` reads it by bits.
#[derive(Clone, Copy, Debug, PartialEq, Eq)]
pub enum Test<'a> {
    All,
    Count(usize),
    Class(u8),
    Among(&'a [u8]),
}

// How much a test takes; whether it was reached, and whether all that is taken are words.
#[derive(Clone, Copy, Debug, PartialEq, Eq)]
pub struct Taken {
    pub amount: Amount,
    pub reached: bool,
    pub words: bool,
}

// How many characters a test takes, and whether it was reached.
// Not one with `Taken`: of characters there are no components, cells or words to tell.
// No `Option` of how many there are where it was reached: all callers but one want both, and would make them by `unwrap_or` and `is_some`.
#[derive(Clone, Copy, Debug, PartialEq, Eq)]
pub struct CharsTaken {
    pub taken: usize,
    pub reached: bool,
}

// By byte: the place of its class in LDBR. A table, since with `Class::of`, a match over ranges, a run that looks for classes takes half as long again.
static PLACES: [u8; 256] =
    *b"3333333333333333333333333333333323333333333333331111111111333333300000000000000000000000000333333000000000000000000000000003333333333333333333333333333333333333333333333333333333333333333333333333333333333333333333333333333333333333333333333333333333333333";

fn class_place(b: u8) -> u8
    ensures { (result ≡ class_place b) × (result < 4) }
{
    PLACES[usize::from(b)] % 4
}

// Whether a character is of a class.
fn in_class(b: u8, mask: u8) -> bool
    ensures { result ≡ in_class mask b }
{
    (mask >> class_place(b)) % 2 == 1
}

// Whether all characters are of a class.
fn all_in_class(w: &[u8], mask: u8) -> bool
    ensures { result ≡ all (in_class mask) w.now }
{
    w.iter().all(|b| in_class(*b, mask))
}

// Whether the component in front is of a class.
fn of_class(x: &[u8], mask: u8) -> bool
    requires { Leading x.now }
    ensures { result ≡ of_class (class_by [] mask) (component_in x.now) }
{
    if x[0] == 0 {
        return false;
    }
    all_in_class(components::chars_of(x), mask)
}

// Whether a component is one of those in `given`.
fn among(x: &[u8], given: &[u8]) -> bool
    requires { Comparable x.now given.now }
    ensures { result ≡ any (same (component_in x.now)) (components_in given.now) }
{
    let mut left = given;
    while let Some((y, rest)) = components::split_first(left) {
        if x == y {
            return true;
        }
        left = rest;
    }
    false
}

// Whether a test ends the sequence before component `x`, which stands at place `k`.
// Inlined into the loops that walk over components and records: as a call, a search takes a third longer.
#[inline(always)]
pub fn stops(test: Test, k: usize, x: &[u8]) -> bool
    requires { Stoppable test x.now }
    ensures { result ≡ stops_before (until test.entry) k (component_in x.now) }
{
    match test {
        Test::All => false,
        Test::Count(n) => n <= k,
        Test::Class(mask) => of_class(x, mask),
        Test::Among(given) => among(x, given),
    }
}

// Whether a test that met no end is reached after `k` components.
pub fn reached(test: Test, k: usize) -> bool
    ensures { result ≡ reached_by test.entry k }
{
    match test {
        Test::All => true,
        Test::Count(n) => n <= k,
        Test::Class(_) | Test::Among(_) => false,
    }
}

// How much of the components of `s` a test takes.
pub fn count(s: &[u8], test: Test) -> Taken
    requires { Countable s.now test }
    ensures { Took (until test.entry) (components_in s.now) result }
{
    let mut left = s;
    let mut k = 0;
    let mut chars = 0;
    let mut words = true;
    while let Some((x, rest)) = components::split_first(left) {
        if stops(test, k, x) {
            return Taken {
                amount: Amount {
                    parts: k,
                    bytes: s.len() - left.len(),
                    chars,
                },
                reached: true,
                words,
            };
        }
        chars += usize::from(x[0]);
        words &= x[0] != 0;
        left = rest;
        k += 1;
    }
    Taken {
        amount: Amount {
            parts: k,
            bytes: s.len(),
            chars,
        },
        reached: reached(test, k),
        words,
    }
}

// Writes the first character of the word in front of `x`, if it is one, at index `n`, and tells the index behind.
fn put_first(out: &mut [u8], n: usize, x: &[u8]) -> usize
    requires { FirstRoom (length out.old) n x.now }
    ensures { FirstPut out.old n x.now out.new result }
{
    if x[0] == 0 {
        return n;
    }
    out[n] = x[1];
    n + 1
}

// Writes the first characters of the words of `given` at the front of `out`, and tells how many they are.
pub fn first_chars(out: &mut [u8], given: &[u8]) -> usize
    requires { FirstsRoom (length out.old) given.now }
    ensures { Written out.old (first_chars (components_in given.now)) out.new result }
{
    let mut n = 0;
    let mut left = given;
    while let Some((x, rest)) = components::split_first(left) {
        n = put_first(out, n, x);
        left = rest;
    }
    n
}

// The place of the first character of a class.
fn place_of_class(s: &[u8], mask: u8) -> Option<usize>
    ensures { result ≡ position (in_class mask) s.now }
{
    s.iter().position(|b| in_class(*b, mask))
}

// The place of the first character that is in `given`.
fn place_of(s: &[u8], given: &[u8]) -> Option<usize>
    ensures { result ≡ position (λ b. among b given.now) s.now }
{
    s.iter().position(|b| given.contains(b))
}

// What a test takes of `n` characters that is reached at a place, or not at all.
fn taken_to(place: Option<usize>, n: usize) -> CharsTaken
    ensures { result ≡ record { taken = unwrap_or place n; reached = is_some place } }
{
    CharsTaken {
        taken: place.unwrap_or(n),
        reached: place.is_some(),
    }
}

// How many of the characters of `s` a test takes; what `Among` compares with are characters here.
pub fn count_chars(s: &[u8], test: Test) -> CharsTaken
    ensures { TookChars (until_chars test.entry) s.now result }
{
    let n = s.len();
    match test {
        Test::All => CharsTaken {
            taken: n,
            reached: true,
        },
        Test::Count(k) => CharsTaken {
            taken: k.min(n),
            reached: k <= n,
        },
        Test::Class(mask) => taken_to(place_of_class(s, mask), n),
        Test::Among(given) => taken_to(place_of(s, given), n),
    }
}
