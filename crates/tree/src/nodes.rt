// The records of a tree in the table that was lent for it.
ghost use Rattle.std.specs.Prelude.{◌≡◌, ◌<◌, length, slice_index_or};
ghost use Rattle.tree.specs.Shape.{Shape, ents, row, stored, stored_height, Stands};
ghost use Rattle.tree.specs.Joins.{Within, Putted};

use crate::entry::Entry;
use crate::fork::Fork;
use crate::link::Link;
use crate::node::Node;

#[derive(Drop)]
pub(crate) struct Nodes<'t, E: Entry> {
    pub(crate) table: &'t mut [Node<E, E::Summary>],
}

impl<E: Entry> Nodes<'_, E> {
    pub(crate) fn node(&self, i: usize) -> Node<E, E::Summary>
        requires { i < length self.now.table.now }
        ensures { result ≡ slice_index_or self.now.table.now i result }
    {
        self.table[i]
    }

    // The record at a link.
    fn linked(&self, link: Option<usize>) -> Option<Node<E, E::Summary>>
        ensures { result ≡ stored self.now.table.now link }
    {
        self.table.get(link?).copied()
    }

    // The height that is stored at a link, and 0 where there is no node.
    pub(crate) fn height(&self, link: Option<usize>) -> u8
        ensures { result ≡ stored_height self.now.table.now link }
    {
        self.linked(link).map_or(0, |n| n.height)
    }

    // The summary of the tree at a link.
    fn summary(&self, link: Option<usize>) -> E::Summary
        ensures { (t : Shape E) → Stands E.sums self.now.table.now link t → E.sums result (ents (row t)) }
    {
        match self.linked(link) {
            Some(n) => n.summary,
            None => E::nothing(),
        }
    }

    // Writes the record of a fork. Heights stay far below 255, so the sum never stops there.
    pub(crate) fn put(&mut self, top: Fork<E>)
        requires { Within self.old.table.now top }
        ensures { Putted E.sums self.old.table.now top self.new.table.now }
    {
        let left = top.left();
        let right = top.right();
        let height = self.height(left).max(self.height(right)).saturating_add(1);
        let rest = E::join(top.entry.summary(), self.summary(right));
        let summary = E::join(self.summary(left), rest);
        self.table[top.at] = Node {
            entry: top.entry,
            left: Link::to(left),
            right: Link::to(right),
            height,
            summary,
        };
    }
}
