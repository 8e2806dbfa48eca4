// What the function of an instruction promises, and whether what one writes has room.
#![tactic(auto)]

ghost use Rattle.std.specs.Prelude.{◌≡◌, ◌<◌};
ghost use Rattle.components.specs.Parts.{kind_number};
ghost use Rattle.state.specs.Below.Limits as limit;
ghost use Rattle.instructions.specs.Does.{More, has_room, room_after};
ghost use Rattle.instructions.specs.Fronts.{FrontOf};

use components::{Amount, Kind};
use language::Machine;
use layout::StatePlaces;
use state::Working;
pub use state::{FileTarget, Source, Target};
pub use tasks::Task;

// The questions that an instruction may answer no, by their numbers.
#[derive(Clone, Copy, PartialEq, Eq, Debug)]
pub enum Question {
    Ended = 50,
    Missing = 52,
    Kind = 53,
    Range = 54,
    Divisor = 55,
    Outside = 56,
    NoCall = 57,
    NoRecord = 58,
    Room = 59,
    Addresses = 60,
}

impl From<Question> for u8 {
    ghost use Rattle.std.specs.Prelude.{◌≡◌};
    ghost use Rattle.instructions.specs.Questions.{question_number};

    ghost from_gives = { λ q n. n ≡ question_number q };

    fn from(q: Question) -> u8 {
        q as u8
    }
}

// The state at work, and beside it two rows of bytes: what is on its way, and what a test or another operand gives.
// A public function that is lent one of them takes a slice and says by a clause how long it is: an array of this length would leave out longer rows.
#[derive(Drop)]
pub struct Bench {
    pub state: Working,
    pub hold: [u8; StatePlaces::ROW],
    pub given: [u8; StatePlaces::ROW],
}

// Whether so much new is within the limits, where so much is freed before.
pub fn has_room_after(state: &Working, freed: Amount, new: Amount) -> bool
    requires freed { More freed.parts freed.chars }
    requires new { More new.parts new.chars }
    ensures { result ≡ room_after state.now.store freed.parts freed.chars new.parts new.chars }
{
    let parts = state.components() + new.parts;
    if Machine::COMPONENTS + freed.parts < parts {
        return false;
    }
    let chars = state.characters() + new.chars;
    chars <= Machine::CHARACTERS + freed.chars
}

// Whether so much more is within the limits.
pub fn has_room(state: &Working, more: Amount) -> bool
    requires { More more.parts more.chars }
    ensures { result ≡ has_room state.now.store more.parts more.chars }
{
    has_room_after(state, Amount::NONE, more)
}

// The bytes of expression `i`, which has a component (52), and in front one of this kind (53).
pub fn front_of(state: &Working, i: usize, kind: Kind) -> Result<&[u8], Question>
    requires { i < limit.expressions }
    ensures { FrontOf state.now i (kind_number kind) result }
{
    let x = state.expr_bytes(i);
    if x.is_empty() {
        return Err(Question::Missing);
    }
    if components::kind_of(x) != kind {
        return Err(Question::Kind);
    }
    Ok(x)
}
