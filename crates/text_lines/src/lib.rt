// The lines of a text, each with the new line that ends it.
#![tactic(auto)]

ghost use Rattle.std.specs.Prelude.{◌≡◌, ◌<◌, eqb, length, position};
ghost use Rattle.text_lines.specs.Lines.{LineEnd};

// Where the first new line stands.
fn new_line(text: &[u8]) -> Option<usize>
    ensures { result ≡ position (λ b. eqb b 10) text.now }
{
    text.iter().position(|b| *b == b'\n')
}

// Where the line that begins at `at` ends, behind its new line.
#[tactic(auto, using(crate::proofs::Reaching::end_behind, crate::proofs::Reaching::end_last))]
pub fn line_end(text: &[u8], at: usize) -> usize
    requires { at < length text.now }
    ensures { LineEnd text.now at result }
{
    new_line(&text[at..]).map_or(text.len(), |k| at + k + 1)
}
