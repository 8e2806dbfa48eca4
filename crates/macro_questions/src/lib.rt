// Questions 14, 15 and 16 of a text with macros, "as a whole".
#![tactic(auto)]

ghost use Rattle.std.specs.Prelude.{◌≡◌};
ghost use Rattle.macros.specs.Marks.{whole_questions};
ghost use Rattle.statements.specs.Faults.{verdict_of};
ghost use Rattle.syntax.specs.Verdict.{first_no};
ghost use Rattle.macro_questions.specs.Whole.{Whole, judged_token};

use lexer::Token;
use macro_marks::{byte_at, is_mark, next_item};
use scanner::Sort;
use statements::{Verdict, worse};

// The item, which begins with the byte `b` of the text: a star, a bracket or a joining apostrophe, which may stand, as a colon.
fn judged(t: Token, b: u8) -> Token
    ensures { result ≡ judged_token t b }
{
    if is_mark(t, b, b"*()'") {
        return Token {
            sort: Some(Sort::Colon),
            ..t
        };
    }
    t
}

// The verdict of the three questions. `marked` is the text with a star for each joining apostrophe.
#[tactic(auto, using(macro_marks::specs::ItemLaws::next_shorter))]
pub fn ask_whole(text: &[u8], marked: &[u8]) -> Verdict
    requires { Whole text.now marked.now }
    ensures { verdict_of result ≡ first_no (whole_questions text.now) }
{
    let mut worst = Ok(());
    let mut n: usize = 0;
    while let Some(t) = next_item(marked, n) {
        worst = worse(worst, judged(t, byte_at(text, t.at)));
        n = t.next;
    }
    worst
}
