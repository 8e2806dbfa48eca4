// Constants of the program: UMIESC to an expression, a file and an output.
#![tactic(auto)]

ghost use Rattle.std.specs.Prelude.{Bool};
ghost use Rattle.language.specs.Limits as limit;
ghost use Rattle.language.specs.Letters.Letter.{Q};
ghost use Rattle.language.specs.Program.{Arg as argument};
ghost use Rattle.language.specs.Program.Arg.{nothing};
ghost use Rattle.language.specs.Program.Op.{UMIESC};
ghost use Rattle.machine.specs.Effects.{row};
ghost use Rattle.packed.specs.Packed.{table_of};
ghost use Rattle.state.specs.Working.{nth, filing};
ghost use Rattle.table.specs.Denote.{arg_of, text_of};
ghost use Rattle.instructions.specs.Questions.{told_by};
ghost use Rattle.instructions.specs.Does.{DoesFor};
ghost use Rattle.instructions.specs.Operands as letters;
ghost use Rattle.constants.specs.Constants.{Puttable, Put, Placeable, TextPlaceable};

use components::Amount;
use instructions::{Bench, FileTarget, Question, Target};
use language::Machine;
use layout::StatePlaces;
use table::{Table, TextRef};

// Writes a text or number argument as a component at the front of `out`, and tells how much it is.
fn put_constant(table: Table, out: &mut [u8; StatePlaces::ROW], arg: table::Argument) -> Amount
    requires { Puttable table.cells.now arg }
    ensures { Put (arg_of (table_of table.entry.cells.now) arg) out.new result }
{
    match arg {
        table::Argument::Text(text) => {
            let n = tests::put_text(table, out, text);
            // Not `Amount::word(n - 1)`: what is written tells its bytes.
            Amount {
                parts: 1,
                bytes: n,
                chars: n - 1,
            }
        }
        table::Argument::Number(v) => {
            components::put_number(out, 0, v as usize);
            Amount::SHORT
        }
        _ => unreachable!(),
    }
}

// UMIESC to an expression. One component is the same turned round.
pub fn umiesc_expr(
    table: Table,
    bench: &mut Bench,
    target: Target,
    arg: table::Argument,
) -> Result<(), Question>
    requires { Placeable table.cells.now arg target.j limit.expressions }
    ensures { (reverses : Bool) → DoesFor bench.old.state (told_by result) bench.new.state (λ g ins. row g ins bench.old.state.store (arg_of (table_of table.entry.cells.now) arg) (nth (letters.target reverses target.at_end) target.j) nothing UMIESC) }
{
    bench.state.stands();
    let c = put_constant(table, &mut bench.hold, arg);
    if !instructions::has_room(&bench.state, c) {
        return Err(Question::Room);
    }
    bench.state.write_parts(target, &bench.hold[..c.bytes], c);
    Ok(())
}

// UMIESC to a file, as a record.
pub fn umiesc_file(
    table: Table,
    bench: &mut Bench,
    target: FileTarget,
    arg: table::Argument,
) -> Result<(), Question>
    requires { Placeable table.cells.now arg target.j limit.files }
    ensures { DoesFor bench.old.state (told_by result) bench.new.state (λ g ins. row g ins bench.old.state.store (arg_of (table_of table.entry.cells.now) arg) (nth (filing target.reverses) target.j) nothing UMIESC) }
{
    bench.state.stands();
    let c = put_constant(table, &mut bench.given, arg);
    transfers::room_for(&bench.state, 1, c, 1)?;
    let last = bench.state.last();
    records::put_record(&mut bench.hold, last + 1, &bench.given[..c.bytes]);
    let record = Amount {
        bytes: c.bytes + records::FRAME,
        ..c
    };
    filing::write_records(
        &mut bench.state,
        target,
        &bench.hold[..record.bytes],
        1,
        record,
    );
    Ok(())
}

// UMIESC of a text to output `j`.
pub fn umiesc_output(
    table: Table,
    bench: &mut Bench,
    j: usize,
    text: TextRef,
) -> Result<(), Question>
    requires { TextPlaceable table.cells.now text j }
    ensures { DoesFor bench.old.state (told_by result) bench.new.state (λ g ins. row g ins bench.old.state.store (argument.text (text_of (table_of table.entry.cells.now) text)) (nth Q j) nothing UMIESC) }
{
    let mut w = [0u8; Machine::ITEM];
    let n = table.put_text(text, &mut w);
    if Machine::OUTPUT < bench.state.output_len(j) + n {
        return Err(Question::Room);
    }
    bench.state.print(j, &w[..n]);
    Ok(())
}
