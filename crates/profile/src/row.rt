// A profile as the code holds it: its header, its rows, and why there is none.
ghost use Rattle.std.specs.Prelude.{◌≡◌, ◌+◌};
ghost use Rattle.profile.specs.declared.row.ReadError.TheVariants.{Refused as RefusedWith, OutOfMemory};

use std::alloc::AllocFailed;
use terms::refusal::Refusal;

/// So many minutes from an offset on, with one load.
#[derive(Clone, Copy, PartialEq, Eq, Debug)]
pub struct Row<L> {
    pub offset: u32,
    pub length: u32,
    pub load: L,
}

impl<L: Copy> Row<L> {
    // The minute after its last; 32 bits may not hold it.
    pub(crate) fn end(self) -> u64
        ensures { result ≡ self.offset + self.length }
    {
        u64::from(self.offset) + u64::from(self.length)
    }
}

/// What stands before the rows: the horizon in minutes, and how many rows follow.
#[derive(Clone, Copy, PartialEq, Eq, Debug)]
pub struct Header {
    pub horizon: u32,
    pub count: u32,
}

/// A horizon in minutes, and the rows below it.
#[derive(PartialEq, Eq, Debug, Drop)]
pub struct Profile<L> {
    pub horizon: u32,
    pub rows: Vec<Row<L>>,
}

/// Why no profile was read: the bytes are none, or there is no memory for its rows.
#[derive(Clone, Copy, PartialEq, Eq, Debug)]
pub enum ReadError {
    Refused(Refusal),
    OutOfMemory,
}

impl From<Refusal> for ReadError {
    ghost from_gives = { λ e r. r ≡ RefusedWith e };

    fn from(refusal: Refusal) -> ReadError {
        ReadError::Refused(refusal)
    }
}

impl<T: Drop> From<AllocFailed<T>> for ReadError {
    ghost from_gives = { λ _ r. r ≡ OutOfMemory };

    fn from(_pushed: AllocFailed<T>) -> ReadError {
        ReadError::OutOfMemory
    }
}
