// Two kinds together: the first's resources, and then the second's.
ghost use Rattle.std.specs.Prelude.{◌++◌, refl};
ghost use Rattle.loads.specs.Formats.{pair_format};
ghost use Rattle.loads.specs.Lawfuls.{pair_lawful, both_counted};
ghost use Rattle.loads.specs.Same.{alike_joined};

use crate::kind::{Kind, LoadFault, Short};

/// The kind of a load of each of two kinds.
pub struct Pair<A, B>(A, B);

/// A load of the first kind, and one of the second.
#[derive(Clone, Copy, PartialEq, Eq, Debug)]
pub struct PairLoad<X, Y> {
    pub first: X,
    pub second: Y,
}

impl<A: Kind, B: Kind> Kind for Pair<A, B> {
    type Load = PairLoad<A::Load, B::Load>;

    const MARK: u8 = 3;

    ghost MARK = { 3 };

    ghost format = { pair_format A.Kind.format B.Kind.format };

    ghost counts = { λ x. A.Kind.counts x.first ++ B.Kind.counts x.second };

    ghost lawful = { pair_lawful A.Kind.format B.Kind.format A.Kind.lawful B.Kind.lawful };

    ghost counted = { λ x. both_counted A.Kind.format B.Kind.format _ _ (A.Kind.counted x.first) (B.Kind.counted x.second) };

    ghost marked = { refl };

    ghost same = { λ a b. alike_joined A.Kind.format.ceilings _ _ _ _ _ _ (A.Kind.counted a.first) (A.Kind.counted b.first) (A.Kind.same a.first b.first) (B.Kind.same a.second b.second) };

    fn empty() -> Self::Load {
        PairLoad {
            first: A::empty(),
            second: B::empty(),
        }
    }

    fn add(a: Self::Load, b: Self::Load) -> Option<Self::Load> {
        let first = A::add(a.first, b.first)?;
        let second = B::add(a.second, b.second)?;
        Some(PairLoad { first, second })
    }

    fn take(a: Self::Load, b: Self::Load) -> Option<Self::Load> {
        let first = A::take(a.first, b.first)?;
        let second = B::take(a.second, b.second)?;
        Some(PairLoad { first, second })
    }

    fn cover(a: Self::Load, b: Self::Load) -> Self::Load {
        PairLoad {
            first: A::cover(a.first, b.first),
            second: B::cover(a.second, b.second),
        }
    }

    fn fits(load: Self::Load, demand: Self::Load, capacity: Self::Load) -> bool {
        A::fits(load.first, demand.first, capacity.first)
            && B::fits(load.second, demand.second, capacity.second)
    }

    fn in_the_way(
        load: Self::Load,
        demand: Self::Load,
        capacity: Self::Load,
        booking: Self::Load,
    ) -> bool {
        A::in_the_way(load.first, demand.first, capacity.first, booking.first)
            || B::in_the_way(load.second, demand.second, capacity.second, booking.second)
    }

    fn image_len() -> u64 {
        A::image_len().saturating_add(B::image_len())
    }

    // The second image first: a rest that is too short for it is found before anything is written.
    fn put(load: Self::Load, buffer: &mut [u8]) -> Result<(), Short> {
        let (front, back) = buffer
            .split_at_mut_checked(A::image_len() as usize)
            .ok_or(Short)?;
        B::put(load.second, back)?;
        A::put(load.first, front)
    }

    // The second first: too few bytes are found before bytes that are no image.
    fn read(bytes: &[u8]) -> Result<Self::Load, LoadFault> {
        let (front, back) = bytes
            .split_at_checked(A::image_len() as usize)
            .ok_or(Short)?;
        let second = B::read(back)?;
        let first = A::read(front)?;
        Ok(PairLoad { first, second })
    }
}
