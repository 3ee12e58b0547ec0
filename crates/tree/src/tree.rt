// A tree, told by the list of its entries.
ghost use Rattle.std.specs.Prelude.{◌≡◌, ◌^◌, ◌<◌, [], length};

use crate::entry::Entry;
use crate::node::Node;
use crate::nodes::Nodes;
use std::marker::Model;

/// An AVL tree of entries in a lent table. They stand in its first records, so no record is ever lost.
#[derive(Drop)]
pub struct Tree<'t, E: Entry> {
    nodes: Nodes<'t, E>,
    root: Option<usize>,
    count: usize,
}

impl<'t, E: Entry> Model for Tree<'t, E> {
    ghost use Rattle.std.specs.Prelude.{length};
    ghost use Rattle.tree.specs.Orders.{order_by};
    ghost use Rattle.tree.specs.Sound.{Contents, SoundTree, entries_at};

    ghost Value = { Contents E };

    ghost view = { λ a. record { entries = entries_at a.nodes.table.now a.root; places = length a.nodes.table.now } };

    ghost invariant = { λ a. SoundTree E.sums (order_by E.key E.compare) a.nodes.table.now a.root a.count };
}

impl<'t, E: Entry> Tree<'t, E> {
    /// An empty tree in a table of any contents.
    pub fn new(table: &'t mut [Node<E, E::Summary>]) -> Tree<'t, E>
        ensures list { result.entries ≡ [] }
        ensures places { result.places ≡ length table.old }
        ensures small { result.places < 2 ^ 64 }
    {
        // A length fits a `usize`.
        let _places = table.len();
        Tree {
            nodes: Nodes { table },
            root: None,
            count: 0,
        }
    }
}
