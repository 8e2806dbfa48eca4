// Question 61: inputs short enough and of the 87 characters.
#![tactic(auto)]

ghost use Rattle.std.specs.Prelude.{◌≡◌, ◌&&◌, [], ◌∷◌, leb, length};
ghost use Rattle.lists.specs.Lists.{all};
ghost use Rattle.characters.specs.Characters.{known};
ghost use Rattle.machine.specs.WellFormed.{good_inputs};

use language::Machine;

// Whether all bytes are characters. `characters::all_known`, which ends at the first that is none, takes a quarter longer on an input of 65,536.
fn are_known(w: &[u8]) -> bool
    ensures { result ≡ all known w.now }
{
    let mut good = true;
    for b in w {
        good &= characters::is_known(*b);
    }
    good
}

// One input.
fn is_input(w: &[u8]) -> bool
    ensures { result ≡ (leb (length w.now) 65536 && all known w.now) }
{
    w.len() <= Machine::INPUT && are_known(w)
}

#[tactic(auto, unfolding(machine::specs::WellFormed::good_inputs))]
pub fn are_inputs(i1: &[u8], i2: &[u8]) -> bool
    ensures { result ≡ good_inputs (i1.now ∷ i2.now ∷ []) }
{
    is_input(i1) && is_input(i2)
}
