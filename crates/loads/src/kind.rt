// A kind of load: a fixed list of resources, each with a ceiling, and loads that mean one count for each.
ghost use Rattle.std.specs.Prelude.{◌≡◌, ℕ, Bool, List, length, is_ok, nat_le};
ghost use Rattle.std.specs.Option.{option_map};
ghost use Rattle.std.specs.Result.{result_map_both as answered};
ghost use Rattle.loads.specs.Counts.{alike, greater, add_counts, take_counts, fits_counts, in_the_way};
ghost use Rattle.loads.specs.Formats.{Format, Lawful, Counted, told, zeros, put_front, read_front};
ghost use Rattle.loads.specs.declared.kind.LoadFault.TheVariants.{Short as TooShort};

/// There are fewer bytes than are to be read or written.
#[derive(Clone, Copy, PartialEq, Eq, Debug)]
pub struct Short;

/// Why no load could be read from the front of some bytes.
#[derive(Clone, Copy, PartialEq, Eq, Debug)]
pub enum LoadFault {
    /// There are fewer bytes than an image has.
    Short,
    /// They begin with no load's image.
    NoImage,
}

impl From<Short> for LoadFault {
    ghost from_gives = { λ _ r. r ≡ TooShort };

    fn from(_short: Short) -> LoadFault {
        LoadFault::Short
    }
}

/// What a kind does is told by the counts of its loads and by its format, a ghost: its mark, its ceilings, and how
/// counts are written as bytes.
pub trait Kind {
    /// The kind's own form of load; two loads are equal when all their counts are.
    type Load: Copy + Eq;

    /// The byte with which the kind's profiles begin, 1 to 127; a number, since the format writes it.
    const MARK: u8;

    ghost MARK: { ℕ };

    ghost format: { Format };

    ghost counts: { Self.Load → List ℕ };

    /// The load with every count 0.
    fn empty() -> Self::Load
        ensures { counts result ≡ zeros format };

    /// The sums, or none where some sum passes its ceiling.
    fn add(a: Self::Load, b: Self::Load) -> Option<Self::Load>
        ensures { option_map counts result ≡ add_counts format.ceilings (counts a) (counts b) };

    /// The differences, or none where a count of `b` is greater than `a`'s.
    fn take(a: Self::Load, b: Self::Load) -> Option<Self::Load>
        ensures { option_map counts result ≡ take_counts (counts a) (counts b) };

    /// The greater count at each resource.
    fn cover(a: Self::Load, b: Self::Load) -> Self::Load
        ensures { counts result ≡ greater (counts a) (counts b) };

    /// Whether load and demand together stay within the capacity at each resource.
    fn fits(load: Self::Load, demand: Self::Load, capacity: Self::Load) -> bool
        ensures { result ≡ fits_counts (counts load) (counts demand) (counts capacity) };

    /// Whether the booking has a count above 0 at a resource where load and demand together pass the capacity.
    fn in_the_way(
        load: Self::Load,
        demand: Self::Load,
        capacity: Self::Load,
        booking: Self::Load,
    ) -> bool
        ensures { result ≡ in_the_way (counts load) (counts demand) (counts capacity) (counts booking) };

    /// How many bytes each image has, or the largest number where they are more.
    fn image_len() -> u64
        ensures { result ≡ told format.size };

    /// Writes the image at the front of the buffer and keeps the rest; nothing is written where it is shorter.
    fn put(load: Self::Load, buffer: &mut [u8]) -> Result<(), Short>
        ensures fits { is_ok result ≡ nat_le format.size (length buffer.old) }
        ensures after { buffer.new ≡ put_front (format.image (counts load)) buffer.old };

    /// The load whose image stands at the front of the bytes.
    fn read(bytes: &[u8]) -> Result<Self::Load, LoadFault>
        ensures { answered counts (λ e. e) result ≡ read_front format bytes.now };

    ghost lawful: { Lawful format };

    ghost counted: { (x : Self.Load) → Counted format (counts x) };

    ghost marked: { MARK ≡ format.mark };

    ghost same: { (a b : Self.Load) → Self.Load.eq a b ≡ alike (counts a) (counts b) };
}
