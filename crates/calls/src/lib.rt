// What the calls answer and leave: definitions and laws; and what a call that fills a buffer tells.
#![tactic(auto)]

// The questions of the calls on what they are lent, by their numbers.
#[derive(Clone, Copy, PartialEq, Eq, Debug)]
pub enum Question {
    Size = 40,
    Inputs = 61,
    Table = 62,
    State = 63,
    Conversion = 67,
    Lines = 68,
    Frames = 69,
    Class = 71,
}

impl From<Question> for u8 {
    ghost use Rattle.std.specs.Prelude.{◌≡◌};
    ghost use Rattle.calls.specs.Questions.{question_number};

    ghost from_gives = { λ q n. n ≡ question_number q };

    fn from(q: Question) -> u8 {
        q as u8
    }
}

// How many bytes were written; of a refused call nothing is, and the first question answered no is told.
pub type Filled = Result<u32, Question>;
