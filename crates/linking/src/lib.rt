// The second pass over a text's program: questions 12 and 13, "Every used label declared" and "Every used switch declared"; then names become places.
// Until then the table has the marks of the names that are used.
#![tactic(auto)]

ghost use Rattle.std.specs.Prelude.{◌≡◌, true, cond, [], ◌∷◌, length, take, get_or, ◌&&◌, ◌<◌};
ghost use Rattle.layout.specs.ArgumentKinds.{number};
ghost use Rattle.layout.specs.Kinds.{label_kind};
ghost use Rattle.layout.specs.Cells.{cell};
ghost use Rattle.layout.specs.Places.{instruction_count};
ghost use Rattle.layout.specs.Table.{arg_cell, all_entries, switch_in};
ghost use Rattle.language.specs.Instructions.{number_of};
ghost use Rattle.language.specs.Operators.{op_by};
ghost use Rattle.language.specs.Program.{instr_at};
ghost use Rattle.lists.specs.Lists.{ahead, each, bytes_equal};
ghost use Rattle.drafts.specs.Marks.{place_by, word_by};
ghost use Rattle.packed.specs.Packed.{table_of};
ghost use Rattle.std.specs.Bool.{beq};
ghost use Rattle.finding.specs.Finding.{Counted, Locates, Tells};
ghost use Rattle.writing.specs.Writing.{Changes};
ghost use Rattle.linking.specs.Lookup.{label_by, is_switch, role_kind, role_named, joined, known, faults, marks_in, argument, names_number, asked, instr_uses, Asking, Bounded, AskingAt, AskingFor, Judges};
ghost use Rattle.linking.specs.Resolving.{argument_resolved, instr_resolved, code_resolved, entries_resolved, Labelling};
ghost use Rattle.linking.specs.Linking.{Kept, Finds, label_places, switch_places, Links};

use drafts::{place_of, word_of};
use language::{Machine, Operator};
use layout::ArgumentKind;
use statements::{Fault, Question, Verdict, decide, lower};
use table::Table;

// What an argument uses a name as: a label, a switch by name, or a switch by index.
#[derive(Clone, Copy, Debug, PartialEq, Eq)]
enum Role {
    Label,
    Named,
    Indexed,
}

// Whether two marks name the same word.
fn same_name(text: &[u8], m: usize, n: usize) -> bool
    ensures { result ≡ bytes_equal (word_by text.now m) (word_by text.now n) }
{
    word_of(text, m) == word_of(text, n)
}

// The place of the label that `m` names.
fn label_place(text: &[u8], table: Table, m: usize) -> Option<usize>
    requires { Counted table.cells.now 1 128 }
    ensures { Locates table.entry.cells.now (λ p. p.labels) (λ l. bytes_equal (word_by text.now m) l.name) result }
{
    finding::find_label(table, word_of(text, m))
}

// What the mark `m` of a label becomes: the label's place, or the count of the labels where there is none.
// No Option here and in `switch_for`: the specification gives the count too, and questions 12 and 13 come first, so that none is met.
fn label_for(text: &[u8], table: Table, m: usize) -> usize
    requires { Counted table.cells.now 1 128 }
    ensures { Tells table.entry.cells.now (λ p. label_by text.now p m) 128 result }
{
    label_place(text, table, m).unwrap_or(table.labels())
}

// What the mark `m` of a switch becomes, by the marks of the switches' names: the switch's place, or their count where there is none.
fn switch_for(text: &[u8], names: &[u32], m: usize) -> usize
    ensures { result ≡ ahead (λ x. bytes_equal (word_by text.now m) (word_by text.now x)) names.now }
{
    names
        .iter()
        .position(|name| same_name(text, m, *name as usize))
        .unwrap_or(names.len())
}

// The lower of the place at fault so far and the mark's, where that is at fault.
fn note(f: Fault, fine: bool, m: usize) -> Fault
    ensures { result ≡ joined f (cond fine [] (place_by m ∷ [])) }
{
    lower(f, (!fine).then_some(place_of(m)))
}

// Whether the instructions of an operator take a switch by name.
fn takes_named(operator: Operator) -> bool
    ensures { result ≡ names_number (number_of (op_by operator)) }
{
    matches!(
        operator,
        Operator::SKONA | Operator::WYNA | Operator::SZUKAJ
    )
}

// The kind of the arguments that use names so.
fn kind(role: Role) -> ArgumentKind
    ensures { number result ≡ role_kind role }
{
    match role {
        Role::Label => ArgumentKind::Label,
        Role::Named | Role::Indexed => ArgumentKind::Switch,
    }
}

// Labels are asked of all instructions, switches of a type of those whose operators take it.
fn is_asked(role: Role, operator: Operator) -> bool
    ensures { result ≡ asked (role_kind role) (role_named role) (op_by operator) }
{
    match role {
        Role::Label => true,
        Role::Named => takes_named(operator),
        Role::Indexed => !takes_named(operator),
    }
}

// A text, the table of its draft, and the marks of its switches' names: a slice, whose length `bounded` says. Of an array behind a `&` in a struct a proof
// knows no length; so `has_switch` would be no method, and ask of its table what `bounded` says.
#[derive(Clone, Copy, Debug, PartialEq, Eq)]
struct Draft<'a, 'b> {
    text: &'a [u8],
    table: Table<'b>,
    names: &'a [u32],
    ghost bounded: { Bounded table.cells.now names.now },
}

impl<'a, 'b> Draft<'a, 'b> {
    // Whether `m` names switch `k`, and that is of the type.
    fn names_switch(&self, named: bool, m: usize, k: usize) -> bool
        requires { k < 32 }
        ensures { result ≡ (bytes_equal (word_by self.now.text.now m) (word_by self.now.text.now (get_or self.now.names.now k 0)) && beq named (switch_in (table_of self.now.table.cells.now) k).goes_by_name) }
    {
        same_name(self.text, m, self.names[k] as usize) & (named == self.table.switch_by_name(k))
    }

    // Whether `m` names a switch of the type. `named` is the program's `goes_by_name`, a Bool, so an enum would add a mapping.
    fn has_switch(&self, named: bool, m: usize) -> bool
        ensures { Judges self.now.table.cells.now (λ p. is_switch self.now.text.now named m self.now.names.now p.switches) result }
    {
        (0..self.table.switches()).any(|k| self.names_switch(named, m, k))
    }

    // Whether the mark `m` names a label or a switch that can be used so.
    fn is_known(&self, role: Role, m: usize) -> bool
        ensures { Judges self.now.table.cells.now (λ p. known self.now.text.now self.now.names.now (role_kind role) (role_named role) p m) result }
    {
        match role {
            Role::Label => label_place(self.text, self.table, m).is_some(),
            Role::Named => self.has_switch(true, m),
            Role::Indexed => self.has_switch(false, m),
        }
    }

    // Argument `j` of instruction `k`.
    fn argument_fault(&self, role: Role, k: usize, j: usize, f: Fault) -> Fault
        requires { (k < cell (table_of self.now.table.cells.now) instruction_count) × (j < 3) }
        ensures { Judges self.now.table.cells.now (λ p. joined f (faults self.now.text.now self.now.names.now (role_kind role) (role_named role) p (marks_in (role_kind role) (arg_cell p (argument j (instr_at p k)))))) result }
    {
        let x = self.table.argument_cell(k, j);
        if !kind(role).is_in(x) {
            return f;
        }
        let m = ArgumentKind::value_in(x);
        note(f, self.is_known(role, m), m)
    }

    // The arguments of instruction `k`.
    fn instruction_fault(&self, role: Role, k: usize, f: Fault) -> Fault
        requires { k < cell (table_of self.now.table.cells.now) instruction_count }
        ensures { Judges self.now.table.cells.now (λ p. joined f (faults self.now.text.now self.now.names.now (role_kind role) (role_named role) p (instr_uses (role_kind role) (role_named role) p (instr_at p k)))) result }
    {
        let operator = Operator::try_from(self.table.operator(k)).unwrap();
        if !is_asked(role, operator) {
            return f;
        }
        let mut g = f;
        for j in 0..3 {
            g = self.argument_fault(role, k, j, g);
        }
        g
    }

    // The lowest place where an instruction uses a name that is not declared, or that of `f`.
    fn code_fault(&self, role: Role, f: Fault) -> Fault
        ensures { Judges self.now.table.cells.now (λ p. joined f (faults self.now.text.now self.now.names.now (role_kind role) (role_named role) p (each (instr_uses (role_kind role) (role_named role) p) p.code))) result }
    {
        let mut g = f;
        for k in 0..self.table.instructions() {
            g = self.instruction_fault(role, k, g);
        }
        g
    }

    // The same of the entries' labels, mark by mark, where `code_fault` asks instruction by instruction.
    fn entries_fault(&self, en: &[u32; Machine::ENTRIES], f: Fault) -> Fault
        requires { Kept self.now.text.now self.now.table.cells.now self.now.names.now en.now }
        ensures { Judges self.now.table.cells.now (λ p. joined f (faults self.now.text.now self.now.names.now label_kind true p (take (length (all_entries p)) en.now))) result }
    {
        let n = self.table.entries();
        let mut g = f;
        for mark in &en[..n] {
            let m = *mark as usize;
            g = note(g, self.is_known(Role::Label, m), m);
        }
        g
    }

    // Question 12.
    fn undeclared_label(&self, en: &[u32; Machine::ENTRIES]) -> Fault
        requires { Kept self.now.text.now self.now.table.cells.now self.now.names.now en.now }
        ensures { Finds self.now.text.now self.now.table.cells.now self.now.names.now en.now label_places result }
    {
        let f = self.code_fault(Role::Label, None);
        self.entries_fault(en, f)
    }

    // Question 13.
    fn undeclared_switch(&self, en: &[u32; Machine::ENTRIES]) -> Fault
        requires { Kept self.now.text.now self.now.table.cells.now self.now.names.now en.now }
        ensures { Finds self.now.text.now self.now.table.cells.now self.now.names.now en.now switch_places result }
    {
        let f = self.code_fault(Role::Named, None);
        self.code_fault(Role::Indexed, f)
    }
}

// Argument `j` of instruction `k`: its name becomes a place. A label is looked up in the table, a switch by the marks in `sw`.
fn resolve_argument(
    text: &[u8],
    table: &mut [u32],
    sw: &[u32; Machine::SWITCHES],
    k: usize,
    j: usize,
)
    requires { AskingFor table.old k j }
    ensures { Changes (argument_resolved text.now sw.now k j) table.old table.new }
{
    let draft = Table { cells: table };
    let x = draft.argument_cell(k, j);
    let m = ArgumentKind::value_in(x);
    match ArgumentKind::in_cell(x) {
        Ok(ArgumentKind::Label) => {
            let v = label_for(text, draft, m);
            writing::set_argument(table, k, j, ArgumentKind::Label.cell(v));
        }
        Ok(ArgumentKind::Switch) => {
            let v = switch_for(text, &sw[..draft.switches()], m);
            writing::set_argument(table, k, j, ArgumentKind::Switch.cell(v));
        }
        _ => {}
    }
}

// The arguments of instruction `k`.
fn resolve_instruction(text: &[u8], table: &mut [u32], sw: &[u32; Machine::SWITCHES], k: usize)
    requires { AskingAt table.old k }
    ensures { Changes (instr_resolved text.now sw.now k) table.old table.new }
{
    for j in 0..3 {
        resolve_argument(text, table, sw, k, j);
    }
}

// All arguments of all instructions.
fn resolve_code(text: &[u8], table: &mut [u32], sw: &[u32; Machine::SWITCHES])
    requires { Asking table.old }
    ensures { Changes (λ p. code_resolved text.now sw.now (length p.code) p) table.old table.new }
{
    let n = Table { cells: table }.instructions();
    for k in 0..n {
        resolve_instruction(text, table, sw, k);
    }
}

// The labels of all entries; beside `resolve_code` a loop of its own, since the two change other parts of the table.
fn resolve_entries(text: &[u8], table: &mut [u32], en: &[u32; Machine::ENTRIES])
    requires { Labelling text.now table.old en.now }
    ensures { Changes (λ p. entries_resolved text.now en.now (length (all_entries p)) p) table.old table.new }
{
    let n = Table { cells: table }.entries();
    for (k, mark) in en[..n].iter().enumerate() {
        let v = label_for(text, Table { cells: table }, *mark as usize);
        writing::set_entry_label(table, k, v);
    }
}

// Questions 12 and 13 in this order; where both are answered yes, the table holds the program.
pub fn resolve<'a>(
    text: &'a [u8],
    table: &mut [u32],
    sw: &'a [u32; Machine::SWITCHES],
    en: &[u32; Machine::ENTRIES],
) -> Verdict
    requires { Kept text.now table.old sw.now en.now }
    ensures { Links text.now table.old sw.now en.now result table.new }
{
    let draft = Draft {
        text,
        table: Table { cells: table },
        names: sw,
    };
    decide(Question::Label, draft.undeclared_label(en))?;
    decide(Question::Switch, draft.undeclared_switch(en))?;
    resolve_code(text, table, sw);
    resolve_entries(text, table, en);
    Ok(())
}
