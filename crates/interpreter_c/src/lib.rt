// The calls for C: those of the crate `interpreter`, with its clauses. A slice passes as a pointer and a length.
// Each stands here again, since a static library gives C only the functions of its own crate.
#![tactic(auto)]

ghost use Rattle.std.specs.Prelude.{[], ◌∷◌, length};
ghost use Rattle.class_calls.specs.Class.{lent_of};
ghost use Rattle.calls.specs.Calls.{start_of, run_of};
ghost use Rattle.calls.specs.Filling.{Fills};
ghost use Rattle.editions.specs.Convert.{convert_of};
ghost use Rattle.macros.specs.Load.{load_in};
ghost use Rattle.state_frames.specs.Keeping.{write_of, read_of, Reads};
ghost use Rattle.interpreter.specs.Answers.{Answers, AnswersLoad, AnswersShorten, AnswersClass};

#[unsafe(no_mangle)]
pub extern "C" fn eol2_load(text: &[u8], table: &mut [u32]) -> u64
    ensures { AnswersLoad (load_in (length table.old) text.now) table.old result table.new }
{
    interpreter::eol2_load(text, table)
}

#[unsafe(no_mangle)]
pub extern "C" fn eol2_convert(text: &[u8], out: &mut [u8]) -> u64
    ensures { Fills (convert_of (length out.old) text.now) result out.old out.new }
{
    interpreter::eol2_convert(text, out)
}

#[unsafe(no_mangle)]
pub extern "C" fn eol2_shorten(text: &[u8], table: &mut [u32], out: &mut [u8]) -> u64
    ensures { AnswersShorten text.now table.old out.old result table.new out.new }
{
    interpreter::eol2_shorten(text, table, out)
}

#[unsafe(no_mangle)]
pub extern "C" fn eol2_start(table: &[u32], i1: &[u8], i2: &[u8], state: &mut [u8]) -> u64
    ensures { Answers (start_of table.now (i1.now ∷ i2.now ∷ []) state.old) result state.new }
{
    interpreter::eol2_start(table, i1, i2, state)
}

#[unsafe(no_mangle)]
pub extern "C" fn eol2_run(
    table: &[u32],
    i1: &[u8],
    i2: &[u8],
    state: &mut [u8],
    budget: u32,
) -> u64
    ensures { Answers (run_of table.now (i1.now ∷ i2.now ∷ []) budget state.old) result state.new }
{
    interpreter::eol2_run(table, i1, i2, state, budget)
}

#[unsafe(no_mangle)]
pub extern "C" fn eol2_write_state(
    table: &[u32],
    i1: &[u8],
    i2: &[u8],
    state: &[u8],
    out: &mut [u8],
) -> u64
    ensures { Fills (write_of table.now (i1.now ∷ i2.now ∷ []) state.now (length out.old)) result out.old out.new }
{
    interpreter::eol2_write_state(table, i1, i2, state, out)
}

#[unsafe(no_mangle)]
pub extern "C" fn eol2_read_state(
    table: &[u32],
    i1: &[u8],
    i2: &[u8],
    saved: &[u8],
    state: &mut [u8],
) -> u64
    ensures { Reads (read_of table.now (i1.now ∷ i2.now ∷ []) saved.now state.old) result state.new }
{
    interpreter::eol2_read_state(table, i1, i2, saved, state)
}

#[unsafe(no_mangle)]
pub extern "C" fn eol2_class(
    table: &[u32],
    inputs: &[u8],
    lengths: &[u32],
    budgets: &[u32],
    results: &mut [u32],
    out: &mut [u8],
) -> u64
    ensures { AnswersClass table.now (lent_of inputs.now lengths.now budgets.now results.old out.old) result results.new out.new }
{
    interpreter::eol2_class(table, inputs, lengths, budgets, results, out)
}
