// Crews: 64 resources, each there once. Crew k is bit k of a word.
ghost use Rattle.std.specs.Prelude.{◌≡◌, ◌^◌, ◌<◌, refl};
ghost use Rattle.loads.specs.Digits.{digits};
ghost use Rattle.loads.specs.Formats.{crews_format};
ghost use Rattle.loads.specs.Lawfuls.{crews_lawful};
ghost use Rattle.loads.specs.Places.{digits_within};
ghost use Rattle.loads.specs.Same.{alike_digits};
ghost use Rattle.std.proofs.Common.{lit<};

use crate::kind::{Kind, LoadFault, Short};
use crate::word::put_front;

/// The kind of a pool of 64 crews.
pub struct Crews;

/// Some of the crews, a bit for each.
#[derive(Clone, Copy, PartialEq, Eq, Debug)]
pub struct CrewsLoad {
    word: u64,
    ghost bound: { word < 2 ^ 64 },
}

impl From<u64> for CrewsLoad {
    ghost from_gives = { λ crews r. r.word ≡ crews };

    /// The crews whose bits are set.
    fn from(crews: u64) -> CrewsLoad {
        CrewsLoad { word: crews }
    }
}

impl CrewsLoad {
    /// The word with a bit for each crew.
    pub fn word(self) -> u64
        ensures { result ≡ self.word }
    {
        self.word
    }
}

impl Kind for Crews {
    type Load = CrewsLoad;

    const MARK: u8 = 2;

    ghost MARK = { 2 };

    ghost format = { crews_format };

    ghost counts = { λ x. digits 2 64 x.word };

    ghost lawful = { crews_lawful };

    ghost counted = { λ x. digits_within 64 1 x.word };

    ghost marked = { refl };

    ghost same = { λ a b. alike_digits 2 64 a.word b.word (lit< tt) a.bound b.bound };

    fn empty() -> Self::Load {
        CrewsLoad { word: 0 }
    }

    fn add(a: Self::Load, b: Self::Load) -> Option<Self::Load> {
        if a.word & b.word != 0 {
            return None;
        }
        let word = a.word | b.word;
        Some(CrewsLoad { word })
    }

    fn take(a: Self::Load, b: Self::Load) -> Option<Self::Load> {
        if b.word & !a.word != 0 {
            return None;
        }
        let word = a.word & !b.word;
        Some(CrewsLoad { word })
    }

    fn cover(a: Self::Load, b: Self::Load) -> Self::Load {
        let word = a.word | b.word;
        CrewsLoad { word }
    }

    fn fits(load: Self::Load, demand: Self::Load, capacity: Self::Load) -> bool {
        load.word & demand.word == 0 && (load.word | demand.word) & !capacity.word == 0
    }

    fn in_the_way(
        load: Self::Load,
        demand: Self::Load,
        capacity: Self::Load,
        booking: Self::Load,
    ) -> bool {
        let twice = load.word & demand.word;
        let over = (load.word | demand.word) & !capacity.word;
        (twice | over) & booking.word != 0
    }

    fn image_len() -> u64 {
        8
    }

    fn put(load: Self::Load, buffer: &mut [u8]) -> Result<(), Short> {
        put_front(&load.word.to_be_bytes(), buffer)
    }

    fn read(bytes: &[u8]) -> Result<Self::Load, LoadFault> {
        // Eight bytes, which this kind alone has; `split_u32` cuts off four.
        let front = bytes.first_chunk().ok_or(Short)?;
        Ok(CrewsLoad::from(u64::from_be_bytes(*front)))
    }
}
