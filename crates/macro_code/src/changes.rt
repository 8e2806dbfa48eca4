// A walk over the changes of a body.
#![tactic(auto)]

ghost use Rattle.std.specs.Prelude.{◌+◌, ◌*◌, ◌<◌};
ghost use Rattle.macro_code.specs.Bounds.{reach, widest};

use crate::Coded;

// The changes of a body that are left: so many, by the cell of each, from a cell on.
#[derive(Clone, Copy, Debug, PartialEq, Eq)]
pub struct Changes<'a> {
    pub coded: Coded<'a>,
    pub cell: usize,
    pub left: usize,
    ghost fits: { cell + widest * left < reach },
}

impl<'a> Iterator for Changes<'a> {
    ghost use Rattle.std.specs.Iterator.{at_most};
    ghost use Rattle.macro_code.specs.Changes.{GivesChange};

    type Item = usize;

    ghost next_gives = { GivesChange };

    ghost remaining = { λ changes. at_most changes.left };

    fn next(&mut self) -> Option<usize> {
        if self.left == 0 {
            return None;
        }
        let cell = self.cell;
        self.left -= 1;
        self.cell += self.coded.change_size(cell);
        Some(cell)
    }
}
