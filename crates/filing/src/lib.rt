// The files of the state at work: the records before the pointer and after it, and the changes that instructions make in them.
#![tactic(auto)]

ghost use Rattle.std.specs.Prelude.{◌≡◌, ◌<◌, ◌≤◌, true, false, length};
ghost use Rattle.language.specs.Letters.Letter.{P};
ghost use Rattle.language.specs.Limits as limit;
ghost use Rattle.layout.specs.Places.{before_string, after_string, row};
ghost use Rattle.machine.specs.Arguments.{file_of};
ghost use Rattle.machine.specs.Changes.{past, stored};
ghost use Rattle.state.specs.Working.{HoldsState, on_store, nth, filing};
ghost use Rattle.filing.specs.Files.{RecordsLent, RecordsDroppable, Passable, Pointable, pointed_at, bodies, RecordsWritable, Insertable, inserted, files_exchanged};

use components::Amount;
use layout::StatePlaces;
use records::Place;
use state::{FileTarget, Source, Working};
use strings::Strings;

// The string of file `i` that has the records before the pointer.
fn before_string(i: usize) -> usize
    requires { i < limit.files }
    ensures { result ≡ before_string i }
{
    StatePlaces::FIRST_FILE + 2 * i
}

// The string of file `i` that has the records after the pointer.
fn after_string(i: usize) -> usize
    requires { i < limit.files }
    ensures { result ≡ after_string i }
{
    StatePlaces::FIRST_FILE + (2 * i + 1)
}

// The bytes of the records before the pointer of file `i`.
// Not one with `after_bytes`: the promise of each names its own side of the file. By a `Side { Before, After }` it would be a match on the side, which each
// caller, naming one, would compute away again.
pub fn before_bytes(state: &Working, i: usize) -> &[u8]
    requires { i < limit.files }
    ensures { RecordsLent (file_of state.now.store (nth P i)).before result.now }
{
    state.strings.string_of(before_string(i))
}

// The bytes of the records after the pointer of file `i`.
pub fn after_bytes(state: &Working, i: usize) -> &[u8]
    requires { i < limit.files }
    ensures { RecordsLent (file_of state.now.store (nth P i)).after result.now }
{
    state.strings.string_of(after_string(i))
}

// Takes the first records after the pointer of file `i` away: how many, and how much they are.
// Not one with `pass_records`: that moves bytes to the other side of the pointer and keeps the totals.
pub fn drop_records(state: &mut Working, i: usize, records: usize, amount: Amount)
    requires { RecordsDroppable state.old i records amount.bytes amount.parts amount.chars }
    ensures { HoldsState state.new (on_store (past (nth (filing true) i) records) state.old) }
{
    state.strings.drop_front(after_string(i), amount.bytes);
    state.scalars.lower(amount);
    state.scalars.records -= records;
}

// Moves the pointer of file `i` past the records after it that stand up to a place.
pub fn pass_records(state: &mut Working, hold: &mut [u8], i: usize, end: Place)
    requires passable { Passable state.old i end.records end.bytes }
    requires room { row ≤ length hold.old }
    ensures { HoldsState state.new (on_store (past (nth (filing false) i) end.records) state.old) }
{
    state
        .strings
        .move_front_to_back(hold, after_string(i), before_string(i), end.bytes);
}

// Reads past the first records after the pointer of a file, how many and how much they are: removes them, or moves the pointer.
pub fn past_records(
    state: &mut Working,
    hold: &mut [u8],
    source: Source,
    records: usize,
    amount: Amount,
)
    requires droppable { RecordsDroppable state.old source.i records amount.bytes amount.parts amount.chars }
    requires room { row ≤ length hold.old }
    ensures { HoldsState state.new (on_store (past (nth (filing source.removes) source.i) records) state.old) }
{
    if source.removes {
        drop_records(state, source.i, records, amount);
    } else {
        let bytes = amount.bytes;
        pass_records(state, hold, source.i, Place { records, bytes });
    }
}

// Moves the pointer of file `i` behind the records of the file that stand up to a place.
pub fn point(state: &mut Working, hold: &mut [u8], i: usize, place: Place)
    requires pointable { Pointable state.old i place.records place.bytes }
    requires room { row ≤ length hold.old }
    ensures { HoldsState state.new (on_store (pointed_at i place.records) state.old) }
{
    let bytes = place.bytes;
    let before = before_string(i);
    let after = after_string(i);
    let n = state.strings.len_of(before);
    if bytes <= n {
        state
            .strings
            .move_back_to_front(hold, before, after, n - bytes);
        return;
    }
    state
        .strings
        .move_front_to_back(hold, after, before, bytes - n);
}

// Puts bytes right after the pointer of a file, or right before it.
#[tactic(auto, unfolding(crate::specs::Files::inserted))]
fn insert(strings: &mut Strings, target: FileTarget, bytes: &[u8])
    requires { Insertable strings.old target.j (length bytes.now) }
    ensures { strings.new ≡ inserted target.reverses target.j bytes.now strings.old }
{
    if target.reverses {
        strings.push_front(after_string(target.j), bytes);
    } else {
        strings.push_back(before_string(target.j), bytes);
    }
}

// Writes the records in `new`, which have the next addresses, to a file: turned round and right after the pointer, or in their order, and then the
// pointer stands behind them. How many they are, and how much.
pub fn write_records(
    state: &mut Working,
    target: FileTarget,
    new: &[u8],
    records: usize,
    amount: Amount,
)
    requires { RecordsWritable state.old target.j target.reverses new.now records amount.parts amount.chars }
    ensures { HoldsState state.new (on_store (stored (nth (filing target.reverses) target.j) (bodies target.reverses new.now)) state.old) }
{
    insert(&mut state.strings, target, new);
    state.scalars.raise(amount);
    state.scalars.records += records;
    state.scalars.last += records;
}

// Exchanges the files `i` and `j`.
pub fn exchange_files(state: &mut Working, hold: &mut [u8], i: usize, j: usize)
    requires first { i < limit.files }
    requires second { j < limit.files }
    requires room { row ≤ length hold.old }
    ensures { HoldsState state.new (on_store (files_exchanged i j) state.old) }
{
    state
        .strings
        .exchange(hold, before_string(i), before_string(j));
    state
        .strings
        .exchange(hold, after_string(i), after_string(j));
}
