// The heights of macros: with how many levels at least a body writes nothing, and with how many at least a call by a parameter is met.
#![tactic(auto)]

ghost use Rattle.std.specs.Prelude.{◌≡◌, ℕ, Bool, cond, Option, ◌+◌, ◌-◌, ◌<◌, length, get_or, take, drop};
ghost use Rattle.lists.specs.Lists.{filled};
ghost use Rattle.macros.specs.Expansion.{levels};
ghost use Rattle.macro_code.specs.Bounds.{near, far};
ghost use Rattle.macro_code.specs.Code.{change_in, body_in};
ghost use Rattle.macro_code.specs.Known.{Heights};
ghost use Rattle.macro_heights.specs.Levels.{Aims, CallHeight, Quiet, Loose, Settled, UpTo, Rises, HeightAt, Findable};

use macro_calls::{Hinted, count_fault, is_typed_call};
use macro_code::{Change, CodePlaces, LEVELS};

// The number of the macro of the call at `i`, where it is a call by a typed name at no fault.
fn right_macro(macros: &Hinted, i: usize) -> Option<usize>
    requires { i < far }
    ensures { Aims macros.now.listed.coded.text.now macros.now.listed.coded.code.now macros.now.listed.firsts.now (length macros.now.listed.firsts.now) i result }
{
    let listed = &macros.listed;
    if !is_typed_call(&listed.coded, i) {
        return None;
    }
    let number = macros.find_target(i)?;
    let uneven = count_fault(&listed.coded, i, listed.first_cell(number));
    uneven.is_none().then_some(number)
}

// The height of the bytes from a place up to another: no height, unless there are none.
fn gap_height(text: &[u8], place: usize, stop: usize) -> usize
    ensures { result ≡ cond (filled (take (stop - place) (drop place text.now))) levels 0 }
{
    if place < stop && place < text.len() {
        return LEVELS;
    }
    0
}

// The height of the call at `i`, by the heights so far: one more than its macro's, or `refused` where it is at fault.
fn call_height(macros: &Hinted, row: &[u8], i: usize, refused: usize) -> usize
    requires { i < far }
    ensures { (r : Option ℕ) × Aims macros.now.listed.coded.text.now macros.now.listed.coded.code.now macros.now.listed.firsts.now (length macros.now.listed.firsts.now) i r × CallHeight row.now refused r result }
{
    right_macro(macros, i).map_or(refused, |k| {
        usize::from(row.get(k).copied().unwrap_or(0)) + 1
    })
}

// With how many levels at least a change writes nothing, by the heights so far.
fn quiet_change(macros: &Hinted, quiet: &[u8], i: usize) -> usize
    requires { i < far }
    ensures { Quiet macros.now.listed.coded.text.now macros.now.listed.coded.code.now macros.now.listed.firsts.now (length macros.now.listed.firsts.now) quiet.now (change_in macros.now.listed.coded.text.now macros.now.listed.coded.code.now i).pieces result }
{
    match macros.listed.coded.change_at(i) {
        Change::Value(_) => LEVELS,
        Change::Call(_) => call_height(macros, quiet, i, LEVELS),
        Change::Nothing => 0,
    }
}

// With how many levels at least a change meets a call by a parameter or a fault.
fn loose_change(macros: &Hinted, loose: &[u8], i: usize) -> usize
    requires { i < far }
    ensures { Loose macros.now.listed.coded.text.now macros.now.listed.coded.code.now macros.now.listed.firsts.now (length macros.now.listed.firsts.now) loose.now (change_in macros.now.listed.coded.text.now macros.now.listed.coded.code.now i).pieces result }
{
    match macros.listed.coded.change_at(i) {
        Change::Call(_) => call_height(macros, loose, i, 0),
        Change::Value(_) | Change::Nothing => LEVELS,
    }
}

// The same of a body.
fn quiet_body(macros: &Hinted, quiet: &[u8], q: usize) -> usize
    requires { q < near }
    ensures { Quiet macros.now.listed.coded.text.now macros.now.listed.coded.code.now macros.now.listed.firsts.now (length macros.now.listed.firsts.now) quiet.now (body_in macros.now.listed.coded.text.now macros.now.listed.coded.code.now q) result }
{
    let coded = &macros.listed.coded;
    let mut place = coded.high(q + CodePlaces::SPAN);
    let mut height: usize = 0;
    for i in coded.changes(q) {
        height = height
            .max(gap_height(coded.text, place, coded.high(i)))
            .max(quiet_change(macros, quiet, i));
        place = coded.low(i);
    }
    height.max(gap_height(coded.text, place, coded.low(q + CodePlaces::SPAN)))
}

// Apart from the other: bytes between changes do not count, and the least height does.
fn loose_body(macros: &Hinted, loose: &[u8], q: usize) -> usize
    requires { q < near }
    ensures { Loose macros.now.listed.coded.text.now macros.now.listed.coded.code.now macros.now.listed.firsts.now (length macros.now.listed.firsts.now) loose.now (body_in macros.now.listed.coded.text.now macros.now.listed.coded.code.now q) result }
{
    let mut height = LEVELS;
    for i in macros.listed.coded.changes(q) {
        height = height.min(loose_change(macros, loose, i));
    }
    height
}

// A macro without a height whose body has one of at most `level` has the height `level`.
fn settle(row: &mut [u8], k: usize, height: usize, level: usize)
    requires { (k < length row.old) × (level < levels) }
    ensures { Settled row.old k height level row.new }
{
    if height <= level && LEVELS <= usize::from(row[k]) {
        row[k] = level as u8;
    }
}

// The macros of the height `level`, where those below it are known: `height_of` gives that of one macro, by its first cell and the heights of others.
fn settle_level<F: Fn(&[u8], u16) -> usize>(
    row: &mut [u8],
    firsts: &[u16],
    level: usize,
    height_of: F,
)
    ghost table: { ℕ → ℕ → Bool }
    requires low { level < levels }
    requires below { UpTo table (length firsts.now) level row.old }
    requires rises { Rises table }
    requires callable { F.IsAlwaysCallable height_of }
    requires gives { (r : _) (k h : ℕ) → F.post height_of r (get_or firsts.now k 0) h → HeightAt table (length firsts.now) level r.now k h }
    ensures { UpTo table (length firsts.now) (level + 1) row.new }
{
    for (k, first) in firsts.iter().enumerate() {
        let height = height_of(row, *first);
        settle(row, k, height, level);
    }
}

// The heights of both kinds, in two rows of lent memory. A macro without a height has the number of levels, which is the greatest height and no mark
// beside them: `min`, `max` and `<` go by it.
pub fn find_heights(macros: &Hinted, quiet: &mut [u8], loose: &mut [u8])
    requires { Findable (length macros.now.listed.firsts.now) quiet.old loose.old }
    ensures { Heights macros.now.listed.coded.text.now macros.now.listed.coded.code.now macros.now.listed.firsts.now (length macros.now.listed.firsts.now) quiet.new loose.new }
{
    let firsts = macros.listed.firsts;
    let count = firsts.len();
    quiet[..count].fill(LEVELS as u8);
    loose[..count].fill(LEVELS as u8);
    for level in 0..LEVELS {
        settle_level(quiet, firsts, level, |row, first| {
            quiet_body(macros, row, usize::from(first))
        });
        settle_level(loose, firsts, level, |row, first| {
            loose_body(macros, row, usize::from(first))
        });
    }
}
