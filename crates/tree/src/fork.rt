// A node that is to stand over two trees.
ghost use Rattle.std.specs.Prelude.{◌≡◌};
ghost use Rattle.tree.specs.Sides.{left_of, right_of, mirrored};

use crate::side::Side;

// An entry, the slot for its record, and the links to the two trees below it: `near` on the side, `far` on the other.
#[derive(Clone, Copy)]
pub(crate) struct Fork<E> {
    pub(crate) at: usize,
    pub(crate) entry: E,
    pub(crate) side: Side,
    pub(crate) near: Option<usize>,
    pub(crate) far: Option<usize>,
}

impl<E: Copy> Fork<E> {
    pub(crate) fn left(self) -> Option<usize>
        ensures { result ≡ left_of self }
    {
        self.side.pick(self.near, self.far)
    }

    pub(crate) fn right(self) -> Option<usize>
        ensures { result ≡ right_of self }
    {
        self.side.pick(self.far, self.near)
    }

    // The same, seen from the other side.
    pub(crate) fn mirrored(self) -> Fork<E>
        ensures { result ≡ mirrored self }
    {
        Fork {
            side: self.side.other(),
            near: self.far,
            far: self.near,
            ..self
        }
    }
}
