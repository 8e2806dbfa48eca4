// Lines of a given text: of a place in it, and of all places that the bytes of its written-out text come from.
#![tactic(auto)]

ghost use Rattle.std.specs.Prelude.{◌≡◌, eqb, map, ◌≤◌, length};
ghost use Rattle.language.specs.Limits as limit;
ghost use Rattle.syntax.specs.Below.Lists.{keep};
ghost use Rattle.syntax.specs.Items.{line_of};
ghost use Rattle.macro_lines.specs.Lines.{Placed};

// How many bytes are line feeds.
fn feeds(bytes: &[u8]) -> usize
    ensures counted { result ≡ length (keep (eqb 10) bytes.now) }
    ensures few { result ≤ length bytes.now }
{
    bytes.iter().filter(|b| b'\n' == **b).count()
}

// The line of a place, also past the end.
#[tactic(auto, unfolding(syntax::specs::Items::line_of))]
pub fn line_of(text: &[u8], at: usize) -> usize
    requires { length text.now ≤ limit.text }
    ensures { result ≡ line_of text.now at }
{
    1 + feeds(&text[..at.min(text.len())])
}

// Places, none lower than the one before, become their lines.
pub fn find_lines(text: &[u8], places: &mut [u16])
    requires { Placed text.now places.old }
    ensures { places.new ≡ map (line_of text.now) places.old }
{
    let mut from = 0;
    let mut line = 1;
    for place in places.iter_mut() {
        let to = usize::from(*place);
        line += feeds(&text[from..to]);
        *place = line as u16;
        from = to;
    }
}
