// Writing a whole profile from its rows.
ghost use Rattle.std.specs.Prelude.{◌≡◌, ◌+◌, ◌*◌, ◌≤◌, ◌++◌, map, length, take, IfOk, Some, Ok};
ghost use Rattle.std.specs.List.{flat_map};
ghost use Rattle.loads.specs.Formats.{told, put_front};
ghost use Rattle.profile.specs.Laws.{ReadsBack};
ghost use Rattle.profile.specs.Rows.{profile_fault, unless};
ghost use Rattle.profile.specs.Views.{row_of, profile_of};
ghost use Rattle.profile.specs.Wire.{row_bytes, row_size, header_bytes, profile_bytes, profile_size, write_answer, written, put_at, place_after, read_profile};

use crate::limits::Limits;
use crate::put::{HEADER_LEN, put_header, put_row, row_len, rows_end};
use crate::row::{Header, Row};
use loads::kind::Kind;
use terms::refusal::Refusal;

/// How many bytes a profile of so many rows has, or the largest number where they are more.
pub fn profile_len<K: Kind>(rows: usize) -> u64
    ensures { result ≡ told (profile_size K.Kind.format rows) }
{
    // It saturates, since it is told; `rows_end` refuses what is too long.
    let rows_len = row_len::<K>().saturating_mul(rows as u64);
    rows_len.saturating_add(HEADER_LEN as u64)
}

// Refuses a horizon and rows that are no profile.
fn check_rows<K: Kind>(horizon: u32, rows: &[Row<K::Load>]) -> Result<(), Refusal>
    ensures { result ≡ unless (profile_fault (profile_of K.Kind.counts horizon rows.now)) tt }
{
    let mut limits = Limits::<K>::new(horizon)?;
    for row in rows {
        limits.admit(*row)?;
    }
    Ok(())
}

// The rows one after another, from a place on; nothing where there is no room for all.
fn put_rows<K: Kind>(rows: &[Row<K::Load>], start: usize, buffer: &mut [u8]) -> Option<usize>
    ensures place { result ≡ place_after start (length rows.now * row_size K.Kind.format) buffer.old }
    ensures after { buffer.new ≡ put_at start (flat_map (row_bytes K.Kind.format) (map (row_of K.Kind.counts) rows.now)) buffer.old }
{
    let end = rows_end::<K>(start, rows.len(), buffer)?;
    // The place is carried along: `put_row` says why.
    let mut at = start;
    for row in rows {
        at = put_row::<K>(*row, at, buffer)?;
    }
    Some(end)
}

// The header at the front, and then the rows; nothing where there is no room for all.
fn put_profile<K: Kind>(header: Header, rows: &[Row<K::Load>], buffer: &mut [u8]) -> Option<usize>
    ensures place { result ≡ place_after 0 (profile_size K.Kind.format (length rows.now)) buffer.old }
    ensures after { buffer.new ≡ put_front (header_bytes K.Kind.format header.horizon header.count ++ flat_map (row_bytes K.Kind.format) (map (row_of K.Kind.counts) rows.now)) buffer.old }
{
    // The rows first: where they have room, the header has it too.
    let end = put_rows::<K>(rows, HEADER_LEN, buffer)?;
    put_header::<K>(header, buffer)?;
    Some(end)
}

/// Writes the profile of a horizon and rows at the front of the buffer and tells its length; later bytes are kept.
/// Rows that a reader would refuse are refused with the reader's number, and a buffer that is too short with the
/// bytes needed; nothing is written then.
pub fn write<K: Kind>(
    horizon: u32,
    rows: &[Row<K::Load>],
    buffer: &mut [u8],
) -> Result<usize, Refusal>
    ensures answer { result ≡ write_answer K.Kind.format (profile_of K.Kind.counts horizon rows.now) (length buffer.old) }
    ensures after { buffer.new ≡ written result (profile_bytes K.Kind.format (profile_of K.Kind.counts horizon rows.now)) buffer.old }
    ensures reads_back { IfOk result (λ n. read_profile K.Kind.format (take n buffer.new) ≡ Ok (profile_of K.Kind.counts horizon rows.now)) }
    ensures as_the_reader { ReadsBack K.Kind.format }
{
    check_rows::<K>(horizon, rows)?;
    // Rows without fault have a minute each below the horizon, so 32 bits hold their number.
    let count = rows.len() as u32;
    let needed = profile_len::<K>(rows.len());
    put_profile::<K>(Header { horizon, count }, rows, buffer).ok_or(Refusal::TooShort(needed))
}
