// References: an institute, 1 to 999, and a serial, 1 to 9,999,999.
ghost use Rattle.std.specs.Prelude.{◌<◌, ◌≤◌};

use crate::refusal::Refusal;
use std::cmp::Ordering;

const LAST_INSTITUTE: u32 = 999;

const LAST_SERIAL: u32 = 9_999_999;

/// Names one booking: the institute that asks, and the serial that it gave.
// The derived order takes the fields as they stand: by institute, and then by serial.
#[derive(Clone, Copy, PartialEq, Eq, PartialOrd, Ord, Debug)]
pub struct Reference {
    institute: u16,
    serial: u32,
    ghost lawful: { (0 < institute) × (institute ≤ 999) × (0 < serial) × (serial ≤ 9999999) },
}

impl Reference {
    ghost use Rattle.std.specs.Prelude.{◌≡◌};
    ghost use Rattle.std.specs.Result.{result_map_both};
    ghost use Rattle.terms.specs.References.{ref_of, ref_made, ref_order, before, same_ref, RefOrderLaw, ReferenceLaw};

    /// The reference of an institute and a serial, if both are in range.
    pub fn new(institute: u32, serial: u32) -> Result<Reference, Refusal>
        ensures { result_map_both ref_of (λ e. e) result ≡ ref_made institute serial }
    {
        match (institute, serial) {
            (1..=LAST_INSTITUTE, 1..=LAST_SERIAL) => Ok(Reference {
                institute: institute as u16,
                serial,
            }),
            _ => Err(Refusal::BadReference),
        }
    }

    /// 1 to 999.
    pub fn institute(self) -> u16
        ensures { result ≡ (ref_of self).institute }
    {
        self.institute
    }

    /// 1 to 9,999,999.
    pub fn serial(self) -> u32
        ensures { result ≡ (ref_of self).serial }
    {
        self.serial
    }

    /// By institute, and within an institute by serial. This call and the next two say what the derived `cmp`, `<` and
    /// `==` mean, in plain numbers.
    pub fn compare(self, other: Reference) -> Ordering
        ensures told { result ≡ ref_order (ref_of self) (ref_of other) }
        ensures lawful { RefOrderLaw }
    {
        self.cmp(&other)
    }

    /// Whether it stands strictly before the other.
    pub fn precedes(self, other: Reference) -> bool
        ensures { result ≡ before (ref_of self) (ref_of other) }
    {
        self < other
    }

    /// Whether both have one institute and one serial.
    pub fn same(self, other: Reference) -> bool
        ensures told { result ≡ same_ref (ref_of self) (ref_of other) }
        ensures lawful { ReferenceLaw }
    {
        self == other
    }
}
