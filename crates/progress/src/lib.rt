// How far a text was read: what is known of its statements so far, beside the tables, and after one more of them. Question 25: how the section ends.
#![tactic(auto)]

ghost use Rattle.std.specs.Prelude.{◌≡◌, true, cond, [], ◌∷◌, ◌-◌, ◌≤◌};
ghost use Rattle.std.specs.Option.{is_none};
ghost use Rattle.words.specs.Keywords.{is_english, is_own};
ghost use Rattle.statements.specs.StatementAt.{stops, fault_of};
ghost use Rattle.progress.specs.Closing.{fault_by, ToldClosing, Ends};
ghost use Rattle.progress.specs.Progress.{Begun};
ghost use Rattle.progress.specs.Advancing.{ToldEnded, Advanceable, Progresses};

use declaring::from_names::lowest_mark;
use forms::is_end;
use headings::from_heads::{Head, instr_of};
use headings::{is_konp, is_kons};
use scanner::Sort;
use statements::{Fault, lower, stops};
use words::Edition;

// Whether KONS and KONP were met, the place of a KONP before any KONS, and the lowest place at fault.
// Two flags and no enum of stages: each is asked alone, and a KONP without KONS is a fourth state.
#[derive(Clone, Copy, Debug, PartialEq, Eq)]
pub struct Closing {
    pub kons: bool,
    pub konp: bool,
    pub early: Fault,
    pub fault: Fault,
}

// The mark of the section's name, none before SEKCJA; its edition; how many labels were met, and how many of them, the last ones, wait for their statement; how the
// section ends; and the place of the last instruction, where a text may not end with it.
#[derive(Clone, Copy, Debug, PartialEq, Eq)]
pub struct Progress {
    pub section: Option<u32>,
    pub edition: Edition,
    pub names: usize,
    pub waiting: usize,
    pub closing: Closing,
    pub ended: Fault,
}

impl Progress {
    // The index of the first label that waits, among the marks of those that were met.
    pub fn first_waiting(self) -> usize
        requires { self.waiting ≤ self.names }
        ensures { result ≡ self.names - self.waiting }
    {
        self.names - self.waiting
    }
}

// Before the first statement.
pub fn begin() -> Progress
    ensures { Begun result }
{
    Progress {
        section: None,
        edition: Edition::Polish,
        names: 0,
        waiting: 0,
        closing: Closing {
            kons: false,
            konp: false,
            early: None,
            fault: None,
        },
        ended: None,
    }
}

// What of a statement is at fault; `labels` is the lowest place of its labels, `after` that of what follows KONS or KONP.
fn closing_fault(head: Head, labels: Fault, after: Fault, c: Closing) -> Fault
    ensures { result ≡ fault_by head labels after c }
{
    let op = head.op;
    let keyword = head.keyword();
    if stops(op.sort) {
        return None;
    }
    if c.konp {
        return lower(labels, Some(op.at));
    }
    if is_konp(keyword) {
        return lower(labels, after);
    }
    if c.kons {
        return lower(labels, Some(op.at));
    }
    if is_kons(keyword) {
        return lower(labels, after);
    }
    None
}

fn closing_after(head: Head, labels: Fault, after: Fault, c: Closing) -> Closing
    ensures { ToldClosing head labels after c result }
{
    let op = head.op;
    let keyword = head.keyword();
    if stops(op.sort) {
        return c;
    }
    let konp = is_konp(keyword);
    let early = (konp & !(c.konp | c.kons)).then_some(op.at);
    Closing {
        kons: c.kons | is_kons(keyword),
        konp: c.konp | konp,
        early: lower(c.early, early),
        fault: lower(c.fault, closing_fault(head, labels, after, c)),
    }
}

// The edition: the first statement's operator chooses.
fn edition_after(head: Head, section: Option<u32>, edition: Edition) -> Edition
    ensures { is_english result ≡ cond (is_none section) (is_own true head.known) (is_english edition) }
{
    if section.is_some() {
        return edition;
    }
    if head.is_own(Edition::English) {
        Edition::English
    } else {
        Edition::Polish
    }
}

// Labels alone wait.
fn waiting_after(sort: Option<Sort>, from: usize, to: usize) -> usize
    requires { from ≤ to }
    ensures { result ≡ cond (stops sort) (to - from) 0 }
{
    if stops(sort) { to - from } else { 0 }
}

// The place of an instruction with which a text may not end.
fn ended_after(head: Head, ended: Fault) -> Fault
    ensures { ToldEnded head ended result }
{
    let Some(op) = instr_of(head.keyword()) else {
        return ended;
    };
    if is_end(u8::from(op)) {
        return None;
    }
    Some(head.op.at)
}

// After a statement without fault, of which the head is told; `section` is the mark of the section's name then, and `after` the place at fault of what
// follows KONS or KONP. The statement's labels and those that waited for it have the last marks of the head's names.
pub fn progress_after(
    p: Progress,
    head: Head,
    section: Option<u32>,
    after: Fault,
    names: &[u32],
) -> Progress
    requires { Advanceable p head names.now }
    ensures { Progresses p head section after names.now result }
{
    let from = p.first_waiting();
    let to = head.names;
    let labels = lowest_mark(&names[from..to]);
    Progress {
        section,
        edition: edition_after(head, p.section, p.edition),
        names: to,
        waiting: waiting_after(head.op.sort, from, to),
        closing: closing_after(head, labels, after, p.closing),
        ended: ended_after(head, p.ended),
    }
}

// A KONP before any KONS, or the absence of KONS.
fn order_fault(last: usize, c: Closing) -> Fault
    ensures { result ≡ cond c.kons c.early (fault_of (last ∷ [])) }
{
    if c.kons { c.early } else { Some(last) }
}

// The lowest place at fault of a whole text with its last byte at `last` and so many instructions; `ended` is the place of a last
// instruction that may not be the last, `waiting` the lowest place of labels that wait.
pub fn end_fault(
    last: usize,
    c: Closing,
    instructions: usize,
    ended: Fault,
    waiting: Fault,
) -> Fault
    ensures { Ends last c instructions ended waiting result }
{
    let statements = lower(c.fault, order_fault(last, c));
    let section = lower(statements, (!c.konp).then_some(last));
    let code = lower(section, (instructions == 0).then_some(last));
    lower(lower(code, ended), waiting)
}

// Of `headings`, passed on to the crates above.
pub mod from_headings {
    pub use headings::{Rest, after_fault, read_rest, section_fault, section_mark};
}
