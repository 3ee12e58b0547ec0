// Windows: the moments from a start to an end, which is at most 1,000,000,000.
ghost use Rattle.std.specs.Prelude.{◌+◌, ◌<◌, ◌≤◌};

use crate::refusal::Refusal;

const LATEST_END: u32 = 1_000_000_000;

/// The moments from the start on, as many as its length.
#[derive(Clone, Copy, PartialEq, Eq, Debug)]
pub struct Window {
    start: u32,
    length: u32,
    ghost lawful: { (0 < length) × (start + length ≤ 1000000000) },
}

impl Window {
    ghost use Rattle.std.specs.Prelude.{◌≡◌};
    ghost use Rattle.std.specs.Result.{result_map_both};
    ghost use Rattle.terms.specs.Windows.{span_of, span_made, end_of, holds, WindowLaw};

    /// The window of a start and a length, if it is not empty and ends in time.
    pub fn new(start: u32, length: u32) -> Result<Window, Refusal>
        ensures { result_map_both span_of (λ e. e) result ≡ span_made start length }
    {
        match start.checked_add(length) {
            Some(end) if 0 < length && end <= LATEST_END => Ok(Window { start, length }),
            _ => Err(Refusal::BadWindow),
        }
    }

    /// The first moment.
    pub fn start(self) -> u32
        ensures { result ≡ (span_of self).start }
    {
        self.start
    }

    /// How many moments it holds, at least one.
    pub fn length(self) -> u32
        ensures { result ≡ (span_of self).minutes }
    {
        self.length
    }

    /// The moment after the last, at most 1,000,000,000.
    pub fn end(self) -> u32
        ensures told { result ≡ end_of (span_of self) }
        ensures lawful { WindowLaw }
    {
        self.start + self.length
    }

    /// Whether the moment is one of the window's.
    pub fn contains(self, moment: u32) -> bool
        ensures { result ≡ holds (span_of self) moment }
    {
        (self.start..self.end()).contains(&moment)
    }
}
