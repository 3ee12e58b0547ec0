// Why a request is refused, the same words in every layer of the calendar.
ghost use Rattle.std.specs.Prelude.{◌≡◌};
ghost use Rattle.terms.specs.Refusals.{number_of};

/// Each case has a number of its own, under which it is written down.
#[derive(Clone, Copy, PartialEq, Eq, Debug)]
pub enum Refusal {
    /// The horizon is 0 or above 1,000,000,000.
    Horizon,
    /// The capacity is empty, or the kind's images are longer than 1,024 bytes.
    Capacity,
    /// The booking table has not 1 to 4,096 records, or the boundary table not 3 to 8,193.
    Tables,
    /// The institute or the serial is out of range.
    BadReference,
    /// The length is 0, or a window's end is above 1,000,000,000; of a search for a start, only that the length is 0.
    BadWindow,
    /// The end or the deadline is above the horizon.
    PastHorizon,
    /// The load is empty.
    EmptyLoad,
    /// The load is above the capacity at some resource.
    AboveCapacity,
    /// The ready moment and the length together are above the deadline.
    NoPossibleStart,
    /// A line or a field of the sheet is not of its form.
    BadField,
    /// A load field is not exactly one image.
    BadLoad,
    /// An opening line after a granted one, or another letter before one.
    OutOfTurn,
    /// The profile is too short or too long.
    ProfileLength,
    /// The profile has another mark than the kind's.
    OtherMark,
    /// The profile's horizon is 0 or above 1,000,000,000.
    ProfileHorizon,
    /// The bytes are no image of a load.
    NoImage,
    /// A row has length 0, is past the horizon, or begins before the end of the row before.
    RowPlace,
    /// A row's load is empty, or the row touches the one before it with the same load.
    RowLoad,
    /// The calendar is shut.
    Shut,
    /// The reference stands already.
    Standing,
    /// No firm booking of that reference stands.
    NotFirm,
    /// The hold's number is another, or no held booking of its reference stands.
    NotHeld,
    /// As many bookings stand as there are booking places.
    NoBookingPlace,
    /// At some moment of the window the load does not fit.
    DoesNotFit,
    /// There would be more boundaries than places after the call.
    NoBoundaryPlace,
    /// There is no start; so many blocked stretches are listed.
    NoStart(u64),
    /// There is a start.
    StartExists,
    /// The list or buffer is too short; so many rows or bytes are needed.
    TooShort(u64),
}

impl Refusal {
    /// The number under which the refusal is written down.
    // Not a `From`, which would claim that nothing is lost: the counts are left out.
    pub fn number(self) -> u8
        ensures { result ≡ number_of self }
    {
        match self {
            Refusal::Horizon => 1,
            Refusal::Capacity => 2,
            Refusal::Tables => 3,
            Refusal::BadReference => 4,
            Refusal::BadWindow => 5,
            Refusal::PastHorizon => 6,
            Refusal::EmptyLoad => 7,
            Refusal::AboveCapacity => 8,
            Refusal::NoPossibleStart => 9,
            Refusal::BadField => 10,
            Refusal::BadLoad => 11,
            Refusal::OutOfTurn => 12,
            Refusal::ProfileLength => 13,
            Refusal::OtherMark => 14,
            Refusal::ProfileHorizon => 15,
            Refusal::NoImage => 16,
            Refusal::RowPlace => 17,
            Refusal::RowLoad => 18,
            Refusal::Shut => 20,
            Refusal::Standing => 21,
            Refusal::NotFirm => 22,
            Refusal::NotHeld => 23,
            Refusal::NoBookingPlace => 24,
            Refusal::DoesNotFit => 25,
            Refusal::NoBoundaryPlace => 26,
            Refusal::NoStart(_) => 27,
            Refusal::StartExists => 28,
            Refusal::TooShort(_) => 29,
        }
    }
}
