// The two sides of a node. What is done on one is done on the other as its mirror image, so code and proofs name the
// side, and are written once.
ghost use Rattle.std.specs.Prelude.{◌≡◌};
ghost use Rattle.tree.specs.Sides.{pick, opposite, side_of};

use crate::entry::Entry;
use std::cmp::Ordering;

#[derive(Clone, Copy)]
pub(crate) enum Side {
    Left,
    Right,
}

impl Side {
    pub(crate) fn other(self) -> Side
        ensures { result ≡ opposite self }
    {
        match self {
            Side::Left => Side::Right,
            Side::Right => Side::Left,
        }
    }

    // The first of two where this is the left, and the second where it is the right.
    pub(crate) fn pick(self, near: Option<usize>, far: Option<usize>) -> Option<usize>
        ensures { result ≡ pick self near far }
    {
        match self {
            Side::Left => near,
            Side::Right => far,
        }
    }
}

// The side of an entry on which a key belongs, and none where it is the entry's own.
pub(crate) fn side_of<E: Entry>(key: E::Key, entry: E) -> Option<Side>
    ensures { result ≡ side_of (E.compare key (E.key entry)) }
{
    match E::compare(key, entry.key()) {
        Ordering::Less => Some(Side::Left),
        Ordering::Equal => None,
        Ordering::Greater => Some(Side::Right),
    }
}
