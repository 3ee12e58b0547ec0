// Airtime: one resource, the rate of a channel in kbit/s.
ghost use Rattle.std.specs.Prelude.{◌≡◌, ◌≤◌, [], ◌∷◌, if◌then◌else◌, Ok, Err, nat_le, refl};
ghost use Rattle.std.specs.Result.{result_map_both as answered};
ghost use Rattle.loads.specs.Formats.{airtime_format};
ghost use Rattle.loads.specs.Lawfuls.{airtime_lawful};
ghost use Rattle.loads.specs.Same.{alike_one};
ghost use Rattle.std.proofs.Common.{rules};
ghost use Rattle.loads.specs.Digits.{level};
ghost use Rattle.loads.specs.declared.kind.LoadFault.TheVariants.{NoImage};

use crate::kind::{Kind, LoadFault, Short};
use crate::word::{put_u32, split_u32};

/// The kind of a channel's rate.
pub struct Airtime;

/// A rate in kbit/s, at most 1,000,000.
#[derive(Clone, Copy, PartialEq, Eq, Debug)]
pub struct AirtimeLoad {
    rate: u32,
    ghost capped: { rate ≤ 1000000 },
}

/// The ceiling, in kbit/s.
const MOST: u32 = 1_000_000;

/// The rate passes the ceiling.
#[derive(Clone, Copy, Debug, PartialEq, Eq)]
pub struct AboveCeiling;

impl From<AboveCeiling> for LoadFault {
    ghost from_gives = { λ _ r. r ≡ NoImage };

    fn from(_above: AboveCeiling) -> LoadFault {
        LoadFault::NoImage
    }
}

impl TryFrom<u32> for AirtimeLoad {
    type Error = AboveCeiling;

    ghost try_from_gives = { λ rate r. answered (λ x. x.rate) (λ e. e) r ≡ (if nat_le rate 1000000 then Ok rate else Err (record {})) };

    /// So many kbit/s, unless they pass the ceiling.
    fn try_from(rate: u32) -> Result<AirtimeLoad, AboveCeiling> {
        if rate <= MOST {
            Ok(AirtimeLoad { rate })
        } else {
            Err(AboveCeiling)
        }
    }
}

impl AirtimeLoad {
    /// The kbit/s.
    pub fn rate(self) -> u32
        ensures { result ≡ self.rate }
    {
        self.rate
    }
}

impl Kind for Airtime {
    type Load = AirtimeLoad;

    const MARK: u8 = 1;

    ghost MARK = { 1 };

    ghost format = { airtime_format };

    ghost counts = { λ x. x.rate ∷ [] };

    ghost lawful = { airtime_lawful };

    ghost counted = { unfold level in Prim.search rules };

    ghost marked = { refl };

    ghost same = { λ a b. alike_one a.rate b.rate };

    fn empty() -> Self::Load {
        AirtimeLoad { rate: 0 }
    }

    fn add(a: Self::Load, b: Self::Load) -> Option<Self::Load> {
        AirtimeLoad::try_from(a.rate + b.rate).ok()
    }

    fn take(a: Self::Load, b: Self::Load) -> Option<Self::Load> {
        let rate = a.rate.checked_sub(b.rate)?;
        Some(AirtimeLoad { rate })
    }

    fn cover(a: Self::Load, b: Self::Load) -> Self::Load {
        let rate = a.rate.max(b.rate);
        AirtimeLoad { rate }
    }

    fn fits(load: Self::Load, demand: Self::Load, capacity: Self::Load) -> bool {
        load.rate + demand.rate <= capacity.rate
    }

    fn in_the_way(
        load: Self::Load,
        demand: Self::Load,
        capacity: Self::Load,
        booking: Self::Load,
    ) -> bool {
        capacity.rate < load.rate + demand.rate && 0 < booking.rate
    }

    fn image_len() -> u64 {
        4
    }

    fn put(load: Self::Load, buffer: &mut [u8]) -> Result<(), Short> {
        put_u32(load.rate, buffer)
    }

    fn read(bytes: &[u8]) -> Result<Self::Load, LoadFault> {
        let (rate, _) = split_u32(bytes).ok_or(Short)?;
        Ok(AirtimeLoad::try_from(rate)?)
    }
}
