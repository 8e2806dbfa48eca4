// What is at fault in the calls of a text.
#![tactic(auto)]

ghost use Rattle.std.specs.Prelude.{◌≡◌};
ghost use Rattle.macro_code.specs.CallFaults.{both_of};

use statements::{Fault, lower};

// "Each called macro in the list once? 64. Are there as many arguments as parameters? 65": the lowest place at fault of each.
#[derive(Clone, Copy, Debug, PartialEq, Eq)]
pub struct Faults {
    pub unknown: Fault,
    pub uneven: Fault,
}

impl Faults {
    // No place is at fault, of neither question.
    pub const NONE: Faults = Faults {
        unknown: None,
        uneven: None,
    };

    // The lowest places of each question, of these and of more.
    pub fn and(self, more: Faults) -> Faults
        ensures { result ≡ both_of self more }
    {
        Faults {
            unknown: lower(self.unknown, more.unknown),
            uneven: lower(self.uneven, more.uneven),
        }
    }
}
