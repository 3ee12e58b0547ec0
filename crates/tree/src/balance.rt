// Joining two trees over a node, balanced again by rotations.
ghost use Rattle.std.specs.Prelude.{◌+◌, ◌<◌};
ghost use Rattle.tree.specs.Shape.{Shape, over, tall};
ghost use Rattle.tree.specs.Joins.{Ready, Joins};

use crate::entry::Entry;
use crate::fork::Fork;
use crate::nodes::Nodes;

impl<E: Entry> Nodes<'_, E> {
    // Joins two trees, the near one two higher than the other. Its outer subtree comes up with its root or, where the
    // inner one is higher, that one's root comes up.
    fn rotate(&mut self, top: Fork<E>) -> usize
        requires { (a : Shape E) × (b : Shape E) × Ready E.sums self.old.table.now top a b × (tall b + 1 < tall a) }
        ensures { (a b : Shape E) → Ready E.sums self.old.table.now top a b → tall b + 1 < tall a → (t : Shape E) × Joins E.sums self.old.table.now (over top a b) self.new.table.now result t }
    {
        let Some(near) = top.near else { unreachable!() };
        let high = self.node(near).fork(near, top.side);
        if self.height(high.near) >= self.height(high.far) {
            self.put(Fork {
                near: high.far,
                ..top
            });
            self.put(Fork {
                far: Some(top.at),
                ..high
            });
            return near;
        }
        let Some(inner) = high.far else {
            unreachable!()
        };
        let mid = self.node(inner).fork(inner, top.side);
        self.put(Fork {
            far: mid.near,
            ..high
        });
        self.put(Fork {
            near: mid.far,
            ..top
        });
        self.put(Fork {
            near: Some(near),
            far: Some(top.at),
            ..mid
        });
        inner
    }

    // Joins two trees, their heights at most two apart, into an AVL tree.
    pub(crate) fn balance(&mut self, top: Fork<E>) -> usize
        requires { (a : Shape E) × (b : Shape E) × Ready E.sums self.old.table.now top a b }
        ensures { (a b : Shape E) → Ready E.sums self.old.table.now top a b → (t : Shape E) × Joins E.sums self.old.table.now (over top a b) self.new.table.now result t }
    {
        let high = self.height(top.near);
        let low = self.height(top.far);
        if high.saturating_sub(low) > 1 {
            self.rotate(top)
        } else if low.saturating_sub(high) > 1 {
            self.rotate(top.mirrored())
        } else {
            self.put(top);
            top.at
        }
    }
}
