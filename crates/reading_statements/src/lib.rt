// One statement: read in one pass, its questions in order, its place in the tables, and what is known after it.
#![tactic(auto)]

ghost use Rattle.std.specs.Prelude.{◌≡◌, ◌&&◌, eqb};
ghost use Rattle.statements.specs.Faults.{verdict_of};
ghost use Rattle.statements.specs.StatementAt.{stops};
ghost use Rattle.std.specs.Prelude.{Ok};
ghost use Rattle.std.specs.Option.{is_none};
ghost use Rattle.declaring_switches.specs.Below.Declaring.{Declarable, DeclaresValues};
ghost use Rattle.declaring_switches.specs.Switches.{DeclarableSwitch, DeclaresSwitch};
ghost use Rattle.judging.specs.Below.Names.{Marks};
ghost use Rattle.progress.specs.Advancing.{Advanceable};
ghost use Rattle.words.specs.Keywords.{is_english};
ghost use Rattle.reading_statements.specs.Admitting.{declaration, unchanged, Admits};
ghost use Rattle.reading_statements.specs.Asking.{OperatorAsked, names_verdict, HeadAskable, HeadAsked};
ghost use Rattle.reading_statements.specs.ReadingStatements.{read_of, Stays, Finishes, InstrReadable, ReadsInstr, SwitchReadable, ReadsSwitch, Endable, EndingTold, EndingReadable, ReadsEnding, Readable, ReadsStatement};

use declaring_switches::from_arguments::{Quoted, read_arguments};
use declaring_switches::from_declaring::{Instruction, declare_instruction};
use declaring_switches::from_switch_lists::{Listed, read_list};
use declaring_switches::{Declaration, declare_switch};
use heads::{Head, following, instr_of, is_by_name, is_switch, read_head};
use judging::from_names::{first_repeated, first_reserved};
use judging::{label_fault, operator_fault};
use language::{Machine, Operator};
use lexer::{Token, line_at};
use progress::from_headings::{Rest, after_fault, read_rest, section_fault, section_mark};
use progress::{Progress, progress_after};
use statements::{Fault, Question, Verdict, decide, first_of, stops};
use table::Table;

// Whether a statement was read, or its refusal; and where the next statement begins, unless it is the last.
#[derive(Clone, Copy, Debug, PartialEq, Eq)]
pub struct Answer {
    pub read: Verdict,
    pub next: Option<usize>,
}

// What a statement without an instruction or a switch says: the mark of the section's name from then on, and the place at fault behind KONS or KONP.
#[derive(Clone, Copy, Debug, PartialEq, Eq)]
pub struct Ending {
    pub section: Option<u32>,
    pub after: Fault,
}

// Question 00 of the first statement, whose fault is `zero`, 10 of a later one in a section of an edition.
fn ask_operator(head: Head, p: Progress, zero: Fault) -> Verdict
    ensures { OperatorAsked head (is_none p.section) (is_english p.edition) zero result }
{
    match p.section {
        None => decide(Question::Heading, zero),
        Some(_) => decide(Question::Operator, operator_fault(head, p.edition)),
    }
}

// Questions 06 and 70 of a statement's own labels, by their marks, behind those of the statements before. What is at fault in 70 is found first, which
// is faster; 06 decides before it.
fn ask_names(text: &[u8], before: &[u32], own: &[u32]) -> Verdict
    requires { Marks text.now before.now × Marks text.now own.now }
    ensures { verdict_of result ≡ names_verdict text.now before.now own.now }
{
    let reserved = decide(Question::LabelName, first_reserved(text, own));
    first_of(
        decide(Question::RepeatedLabel, first_repeated(text, before, own)),
        reserved,
    )
}

// Questions 14, 15 and 16, whose verdict is `worst`, 00 or 10, 08, 06 and 70.
fn ask_head(
    text: &[u8],
    worst: Verdict,
    head: Head,
    zero: Fault,
    p: Progress,
    names: &[u32; Machine::TEXT],
) -> Verdict
    requires { HeadAskable text.now worst p head names.now }
    ensures { HeadAsked text.now worst p head names.now zero result }
{
    worst?;
    let operator = ask_operator(head, p, zero);
    let labels = decide(
        Question::SwitchLabels,
        label_fault(head, &names[p.first_waiting()..head.names]),
    );
    let named = ask_names(text, &names[..p.names], &names[p.names..head.names]);
    first_of(operator, first_of(labels, named))
}

// The verdict with question 11, where `asked` is that of those before: an instruction with its labels comes to the table.
fn admit_instruction(
    text: &[u8],
    asked: Verdict,
    i: Instruction,
    labels: &[u32],
    table: &mut [u32],
) -> Verdict
    requires { asked ≡ Ok tt → Declarable text.now i labels.now table.old }
    ensures { Admits (λ f. DeclaresValues text.now i labels.now table.old f table.new) asked result table.old table.new }
{
    let Ok(()) = asked else {
        return asked;
    };
    decide(Question::Room, declare_instruction(text, i, labels, table))
}

// The same of a switch. One function for both would take question 11 as a closure on the lent tables, and be longer.
fn admit_switch(
    text: &[u8],
    asked: Verdict,
    d: Declaration,
    table: &mut [u32],
    switches: &mut [u32; Machine::SWITCHES],
    texts: &[Option<Quoted>],
) -> Verdict
    requires { asked ≡ Ok tt → DeclarableSwitch text.now d table.old texts.now }
    ensures { Admits (λ f. DeclaresSwitch text.now d table.old switches.old f table.new switches.new) asked result table.old table.new }
{
    let Ok(()) = asked else {
        return asked;
    };
    decide(
        Question::Room,
        declare_switch(text, d, table, switches, texts),
    )
}

// After all questions: `p` becomes what is known then, or the refusal is told.
// What is known is lent, here and in the callers: handed back whole, it was copied at each statement with the unused bytes between its fields, and an empty
// statement took twice as long.
fn finish(verdict: Verdict, p: &mut Progress, head: Head, e: Ending, names: &[u32]) -> Verdict
    requires { Advanceable p.old head names.now }
    ensures reads { Finishes p.old head e names.now verdict (read_of result p.new) }
    ensures stays { Stays result p.old p.new }
{
    verdict?;
    *p = progress_after(*p, head, e.section, e.after, names);
    Ok(())
}

// What an instruction or a switch says of the section: its name stays as it was.
fn unchanged(p: Progress) -> Ending
    ensures { result ≡ unchanged p }
{
    Ending {
        section: p.section,
        after: None,
    }
}

// A statement with the instruction of an operator.
fn read_instruction(
    text: &[u8],
    lines: &[u16],
    head: Head,
    operator: Operator,
    p: &mut Progress,
    names: &[u32; Machine::TEXT],
    table: &mut [u32],
) -> Answer
    requires { InstrReadable text.now lines.now p.old head operator names.now table.old }
    ensures reads { ReadsInstr text.now lines.now p.old head names.now table.old (read_of result.read p.new) result.next table.new }
    ensures stays { Stays result.read p.old p.new }
{
    let op = head.op;
    let a = read_arguments(text, op, operator, head.worst);
    let asked = ask_head(text, a.worst, head, Some(head.first), *p, names);
    let values = a.values;
    let i = Instruction {
        operator,
        at: op.at,
        line: usize::from(line_at(lines, op.at)),
        values,
    };
    let early = first_of(
        asked,
        first_of(
            decide(Question::Count, a.over),
            decide(Question::Argument, a.fault),
        ),
    );
    let labels = &names[p.first_waiting()..head.names];
    let verdict = admit_instruction(text, early, i, labels, table);
    Answer {
        read: finish(verdict, p, head, unchanged(*p), names),
        next: a.next,
    }
}

// The switch with the operator `op`, the mark of its name and its list.
fn switch_of(op: Token, named: bool, name: u32, l: Listed) -> Declaration
    ensures { result ≡ declaration op named name l }
{
    Declaration {
        at: op.at,
        begin: op.next,
        named,
        name,
        list: l,
    }
}

// A statement with a switch.
fn read_switch(
    text: &[u8],
    head: Head,
    p: &mut Progress,
    names: &[u32; Machine::TEXT],
    table: &mut [u32],
    switches: &mut [u32; Machine::SWITCHES],
    entries: &mut [u32; Machine::ENTRIES],
) -> Answer
    requires { SwitchReadable text.now p.old head names.now table.old switches.old entries.old }
    ensures reads { ReadsSwitch text.now p.old head names.now table.old switches.old entries.old (read_of result.read p.new) result.next table.new switches.new entries.new }
    ensures stays { Stays result.read p.old p.new }
{
    let op = head.op;
    let named = is_by_name(head.keyword());
    let held = Table { cells: table }.entries();
    let mut texts = [None; Machine::ENTRIES];
    let l = read_list(
        text,
        op,
        named,
        head.worst,
        &mut entries[held..],
        &mut texts,
    );
    let asked = ask_head(text, l.worst, head, Some(head.first), *p, names);
    let d = switch_of(op, named, names[p.first_waiting()], l);
    let early = first_of(asked, decide(Question::Argument, l.fault));
    let own = &texts[..l.words.min(Machine::ENTRIES - held)];
    let verdict = admit_switch(text, early, d, table, switches, own);
    Answer {
        read: finish(verdict, p, head, unchanged(*p), names),
        next: l.next,
    }
}

// What a statement that is neither an instruction nor a switch says, where `section` is the mark of the section's name before it.
fn ending_of(text: &[u8], head: Head, rest: Rest, section: Option<u32>) -> Ending
    requires { Endable text.now rest section }
    ensures { EndingTold text.now head rest section result }
{
    let after = after_fault(text, head, rest, section);
    match section {
        Some(_) => Ending { section, after },
        None => Ending {
            section: section_mark(rest),
            after,
        },
    }
}

// A statement that is neither: SEKCJA, KONS, KONP, or labels alone.
fn read_ending(text: &[u8], head: Head, p: &mut Progress, names: &[u32; Machine::TEXT]) -> Answer
    requires { EndingReadable text.now p.old head names.now }
    ensures reads { ReadsEnding text.now p.old head names.now (read_of result.read p.new) result.next }
    ensures stays { Stays result.read p.old p.new }
{
    let op = head.op;
    let rest = read_rest(text, op, head.worst);
    let zero = section_fault(text, head, rest);
    let asked = ask_head(text, rest.worst, head, zero, *p, names);
    let e = ending_of(text, head, rest, p.section);
    Answer {
        read: finish(asked, p, head, e, names),
        next: rest.next,
    }
}

// Whether a statement has no item.
fn is_empty(head: Head) -> bool
    ensures { result ≡ (stops head.op.sort && eqb head.first head.op.at) }
{
    let op = head.op;
    stops(op.sort) & (head.first == op.at)
}

// The statement at `n` of a text whose bytes have the lines `lines`: "Load hands the unread rest of the text to the next statement."
// The four rows are no struct: of one that holds `&mut` each contract would also have to say that each field still lends the same row. What is known of the
// text, `p`, stays as it was where the statement is refused.
pub fn read_statement(
    text: &[u8],
    lines: &[u16],
    n: usize,
    p: &mut Progress,
    names: &mut [u32; Machine::TEXT],
    table: &mut [u32],
    switches: &mut [u32; Machine::SWITCHES],
    entries: &mut [u32; Machine::ENTRIES],
) -> Answer
    requires { Readable text.now lines.now n p.old names.old table.old switches.old entries.old }
    ensures reads { ReadsStatement text.now lines.now n p.old names.old table.old switches.old entries.old (read_of result.read p.new) result.next names.new table.new switches.new entries.new }
    ensures stays { Stays result.read p.old p.new }
{
    let head = read_head(&text[n..], n, names, p.names);
    let keyword = head.keyword();
    if is_empty(head) {
        return Answer {
            read: Ok(()),
            next: following(head.op),
        };
    }
    if let Some(operator) = instr_of(keyword) {
        return read_instruction(text, lines, head, operator, p, names, table);
    }
    if is_switch(keyword) {
        return read_switch(text, head, p, names, table, switches, entries);
    }
    read_ending(text, head, p, names)
}
