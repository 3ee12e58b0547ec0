// The records of which a table is made.
ghost use Rattle.std.specs.Prelude.{◌≡◌, [], ◌∷◌};
ghost use Rattle.tree.specs.Sides.{fork_of};

use crate::entry::Entry;
use crate::fork::Fork;
use crate::link::Link;
use crate::side::Side;

/// A record of a table: an entry, the links to its subtrees, and the height and the summary of the tree below it.
// A link is the index of a record: no heap may be used, so a node cannot own its subtrees, and the table is lent.
// The summary's type is a parameter, since a record is copied, and what has an associated type in it is not.
#[derive(Clone, Copy)]
pub struct Node<E, S> {
    pub(crate) entry: E,
    pub(crate) left: Link,
    pub(crate) right: Link,
    pub(crate) height: u8,
    pub(crate) summary: S,
}

impl<E: Entry> Node<E, E::Summary> {
    /// The record of one entry with nothing below it, to make a table of.
    pub fn blank(entry: E) -> Node<E, E::Summary>
        ensures entry { result.entry ≡ entry }
        ensures alone { (result.left ≡ None) × (result.right ≡ None) × (result.height ≡ 1) }
        ensures summary { E.sums result.summary (entry ∷ []) }
    {
        Node {
            entry,
            left: Link::to(None),
            right: Link::to(None),
            height: 1,
            summary: entry.summary(),
        }
    }
}

impl<E: Copy, S: Copy> Node<E, S> {
    // The node at a slot, seen from a side.
    pub(crate) fn fork(self, at: usize, side: Side) -> Fork<E>
        ensures { result ≡ fork_of at side self }
    {
        let left = self.left.slot();
        let right = self.right.slot();
        Fork {
            at,
            entry: self.entry,
            side,
            near: side.pick(left, right),
            far: side.pick(right, left),
        }
    }
}
