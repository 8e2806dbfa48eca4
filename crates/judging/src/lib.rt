// The questions of a statement on its operator and its labels, by its head: each answered by the lowest place at fault.
#![tactic(auto)]

ghost use Rattle.std.specs.Prelude.{◌≡◌};
ghost use Rattle.words.specs.Keywords.{is_english};
ghost use Rattle.judging.specs.Judging.{is_barred, OperatorFault, LabelFault};

use heads::{Head, bars, is_switch};
use names::lowest_mark;
use statements::{Fault, lower, stops};
use words::Edition;

// Whether the statement has an operator that may not stand after the first, in a section of an edition.
fn is_barred(head: Head, edition: Edition) -> bool
    ensures { result ≡ is_barred (is_english edition) head }
{
    !stops(head.op.sort) & (bars(head.keyword()) | head.is_own(edition.other()))
}

// Question 10, of a statement after the first in a section of an edition.
pub fn operator_fault(head: Head, edition: Edition) -> Fault
    ensures { OperatorFault head (is_english edition) result }
{
    lower(head.fault, is_barred(head, edition).then_some(head.op.at))
}

// Question 08, by the marks of the labels that wait for the statement and of its own.
pub fn label_fault(head: Head, labels: &[u32]) -> Fault
    ensures { LabelFault head labels.now result }
{
    if !is_switch(head.keyword()) {
        return None;
    }
    if labels.is_empty() {
        return Some(head.op.at);
    }
    lowest_mark(&labels[1..])
}

// Of `names`, passed on to the crates above.
pub mod from_names {
    pub use names::{first_repeated, first_reserved};
}
