// Reading the values of a test of records, for KOPIUJ, SKRESL and OMIN.
#![tactic(auto)]

ghost use Rattle.std.specs.Prelude.{◌≤◌, length};
ghost use Rattle.layout.specs.Places.{row};
ghost use Rattle.packed.specs.Packed.{table_of};
ghost use Rattle.table.specs.Denote.{arg_of};
ghost use Rattle.record_tests.specs.RecordPrepares.{WholeOf, RecordTestReadable, PreparesRecords, records_size, RecordTestOf};

use instructions::Question;
use records::RecordTest;
use state::Working;
use table::Table;
use tests::Prepared;

// A test of records as its argument makes it. What `Whole` compares with are the components in the first bytes of the row `given`, so many.
// Not one `RecordTest<B>` with `records::RecordTest`, as `Prepared` is not one with `Test`.
#[derive(Clone, Copy, Debug, PartialEq, Eq)]
pub enum RecordsPrepared {
    First(Prepared),
    Whole(usize),
}

impl RecordsPrepared {
    // The test, with the row that its bytes stand in.
    pub fn with(self, given: &[u8]) -> RecordTest<'_>
        requires { records_size self ≤ length given.now }
        ensures { RecordTestOf self given.now result }
    {
        match self {
            RecordsPrepared::First(p) => RecordTest::First(p.with(given)),
            RecordsPrepared::Whole(n) => RecordTest::Whole(&given[..n]),
        }
    }
}

// The index of E, if the argument is that.
fn whole(arg: table::Argument) -> Option<usize>
    ensures { WholeOf arg result }
{
    match arg {
        table::Argument::Indexed(table::Letter::E, n) => Some(n),
        _ => None,
    }
}

// What the argument of a test of records asks (52, 53, 54), and the test that it makes. The bytes beside it are put in front of `given`.
pub fn prepare(
    table: Table,
    state: &Working,
    given: &mut [u8],
    arg: table::Argument,
) -> Result<RecordsPrepared, Question>
    requires readable { RecordTestReadable table.cells.now arg }
    requires room { row ≤ length given.old }
    ensures { PreparesRecords state.now.store (arg_of (table_of table.entry.cells.now) arg) given.new result }
{
    if let Some(n) = whole(arg) {
        return Ok(RecordsPrepared::Whole(tests::put_all(state, given, n - 1)));
    }
    let p = tests::prepare(table, state, given, arg)?;
    Ok(RecordsPrepared::First(p))
}
