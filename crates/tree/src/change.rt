// Putting entries in, taking them out, and writing one in another's place.
ghost use Rattle.std.specs.Prelude.{◌≡◌, ℕ, ◌∷◌};
ghost use Rattle.std.specs.List.{find};
ghost use Rattle.tree.specs.Orders.{order_by, at_key};
ghost use Rattle.tree.specs.Lists.{placed, without};
ghost use Rattle.tree.specs.Shape.{Shape, row, by_entry};
ghost use Rattle.tree.specs.Sound.{Fit, Sound};
ghost use Rattle.tree.specs.Changes.{Changed, Free, Vacant, reseated, Pair, Glued, Gap, Filled};

use crate::entry::Entry;
use crate::fork::Fork;
use crate::nodes::Nodes;
use crate::side::{Side, side_of};

// A tree without one of its entries, that entry, and the slot that it had.
#[derive(Clone, Copy)]
pub(crate) struct Taken<E> {
    pub(crate) root: Option<usize>,
    pub(crate) slot: usize,
    pub(crate) entry: E,
}

// Most of these call themselves on subtrees, so their clauses tell what stands at a link, and not the value of a tree.
// `insert`, `take` and `renew` go down alike, but each does something else at the key and hands something else back.
impl<E: Entry> Nodes<'_, E> {
    // Puts an entry whose key is not there into the tree at `root`, in a free slot, and returns the new root.
    pub(crate) fn insert(&mut self, root: Option<usize>, slot: usize, entry: E) -> usize
        requires { let O = order_by E.key E.compare in (t : Shape E) × Sound E.sums O self.old.table.now root t × Free O self.old.table.now slot entry t }
        ensures { let O = order_by E.key E.compare in (t : Shape E) → Sound E.sums O self.old.table.now root t → Free O self.old.table.now slot entry t → (u : Shape E) × Changed E.sums self.old.table.now t self.new.table.now (Some result) u × (row u ≡ placed (by_entry O) (slot, entry) (row t)) }
    {
        let Some(at) = root else {
            self.put(Fork {
                at: slot,
                entry,
                side: Side::Left,
                near: None,
                far: None,
            });
            return slot;
        };
        let n = self.node(at);
        match side_of(entry.key(), n.entry) {
            Some(side) => {
                let top = n.fork(at, side);
                let near = self.insert(top.near, slot, entry);
                self.balance(Fork {
                    near: Some(near),
                    ..top
                })
            }
            None => unreachable!(),
        }
    }

    // Takes the first entry out of the tree whose root is at a slot.
    fn pop_first(&mut self, root: usize) -> Taken<E>
        requires { (t : Shape E) × Fit E.sums self.old.table.now (Some root) t }
        ensures { (t : Shape E) → Fit E.sums self.old.table.now (Some root) t → (u : Shape E) × Changed E.sums self.old.table.now t self.new.table.now result.root u × (row t ≡ (result.slot, result.entry) ∷ row u) }
    {
        let n = self.node(root);
        match n.left.slot() {
            Some(left) => {
                let first = self.pop_first(left);
                let top = self.balance(Fork {
                    near: first.root,
                    ..n.fork(root, Side::Left)
                });
                Taken {
                    root: Some(top),
                    ..first
                }
            }
            None => Taken {
                root: n.right.slot(),
                slot: root,
                entry: n.entry,
            },
        }
    }

    // Two trees side by side as one, their heights at most one apart.
    fn glue(&mut self, left: Option<usize>, right: Option<usize>) -> Option<usize>
        requires { (l : Shape E) × (r : Shape E) × Pair E.sums self.old.table.now left right l r }
        ensures { (l r : Shape E) → Pair E.sums self.old.table.now left right l r → (u : Shape E) × Glued E.sums self.old.table.now l r self.new.table.now result u }
    {
        match right {
            Some(right) => {
                let first = self.pop_first(right);
                let top = self.balance(Fork {
                    at: first.slot,
                    entry: first.entry,
                    side: Side::Right,
                    near: first.root,
                    far: left,
                });
                Some(top)
            }
            None => left,
        }
    }

    // Takes the entry of a key out of a tree that has it.
    pub(crate) fn take(&mut self, root: Option<usize>, key: E::Key) -> Taken<E>
        requires { let O = order_by E.key E.compare in (t : Shape E) × (p : ℕ × E) × Sound E.sums O self.old.table.now root t × (find (at_key (by_entry O) key) (row t) ≡ Some p) }
        ensures { let O = order_by E.key E.compare in (t : Shape E) (p : ℕ × E) → Sound E.sums O self.old.table.now root t → find (at_key (by_entry O) key) (row t) ≡ Some p → (u : Shape E) × Changed E.sums self.old.table.now t self.new.table.now result.root u × (row u ≡ without (at_key (by_entry O) key) (row t)) × (p ≡ (result.slot, result.entry)) }
    {
        let Some(at) = root else { unreachable!() };
        let n = self.node(at);
        match side_of(key, n.entry) {
            Some(side) => {
                let top = n.fork(at, side);
                let out = self.take(top.near, key);
                let top = self.balance(Fork {
                    near: out.root,
                    ..top
                });
                Taken {
                    root: Some(top),
                    ..out
                }
            }
            None => Taken {
                root: self.glue(n.left.slot(), n.right.slot()),
                slot: at,
                entry: n.entry,
            },
        }
    }

    // Writes an entry in place of the one with its key, which there is, in that one's slot or in the free one that is
    // given, and returns the new root.
    pub(crate) fn renew(&mut self, root: Option<usize>, to: Option<usize>, entry: E) -> usize
        requires { let O = order_by E.key E.compare in (t : Shape E) × (p : ℕ × E) × Sound E.sums O self.old.table.now root t × Vacant O self.old.table.now to entry p t }
        ensures { let O = order_by E.key E.compare in (t : Shape E) (p : ℕ × E) → Sound E.sums O self.old.table.now root t → Vacant O self.old.table.now to entry p t → (u : Shape E) × Changed E.sums self.old.table.now t self.new.table.now (Some result) u × (row u ≡ reseated O to entry (row t)) }
    {
        let Some(at) = root else { unreachable!() };
        let n = self.node(at);
        match side_of(entry.key(), n.entry) {
            Some(side) => {
                let top = n.fork(at, side);
                let near = self.renew(top.near, to, entry);
                self.balance(Fork {
                    near: Some(near),
                    ..top
                })
            }
            None => {
                let place = to.unwrap_or(at);
                self.put(Fork {
                    at: place,
                    entry,
                    ..n.fork(at, Side::Left)
                });
                place
            }
        }
    }

    // Moves the entry at the slot `last`, the last that is in use, to the free slot before it, and tells the new root.
    pub(crate) fn fill(&mut self, root: Option<usize>, slot: usize, last: usize) -> Option<usize>
        requires { let O = order_by E.key E.compare in (t : Shape E) × Sound E.sums O self.old.table.now root t × Gap self.old.table.now slot last t }
        ensures { let O = order_by E.key E.compare in (t : Shape E) → Sound E.sums O self.old.table.now root t → Gap self.old.table.now slot last t → (u : Shape E) × Filled E.sums O self.old.table.now last t self.new.table.now result u }
    {
        if slot < last {
            let moved = self.node(last);
            Some(self.renew(root, Some(slot), moved.entry))
        } else {
            root
        }
    }
}
