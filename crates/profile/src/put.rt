// The parts of a profile, written into a buffer: a header at its front, a row at a place.
ghost use Rattle.std.specs.Prelude.{◌≡◌, ◌*◌, ◌++◌, length, is_ok, nat_le};
ghost use Rattle.loads.specs.Digits.{to_bytes};
ghost use Rattle.loads.specs.Formats.{told, put_front};
ghost use Rattle.profile.specs.Views.{row_of};
ghost use Rattle.profile.specs.Wire.{row_bytes, row_size, header_bytes, put_at, place_after};

use crate::row::{Header, Row};
use loads::kind::{Kind, Short};
use loads::word::put_front;

/// The mark, the horizon and the number of rows.
pub(crate) const HEADER_LEN: usize = 9;

/// The offset and the length of a row, which stand before its image.
const SPAN_LEN: usize = 8;

/// How many bytes a row has, or the largest number where they are more.
pub(crate) fn row_len<K: Kind>() -> u64
    ensures { result ≡ told (row_size K.Kind.format) }
{
    K::image_len().saturating_add(SPAN_LEN as u64)
}

/// The place after so many rows from a place on, if the buffer goes so far.
pub(crate) fn rows_end<K: Kind>(at: usize, rows: usize, buffer: &[u8]) -> Option<usize>
    ensures { result ≡ place_after at (rows * row_size K.Kind.format) buffer.now }
{
    let len = row_len::<K>().checked_mul(rows as u64)?;
    let end = len.checked_add(at as u64)?;
    (end <= buffer.len() as u64).then_some(end as usize)
}

// Two numbers at the front of the buffer; nothing is written where it is too short.
fn put_words(first: u32, second: u32, buffer: &mut [u8]) -> Result<(), Short>
    ensures fits { is_ok result ≡ nat_le 8 (length buffer.old) }
    ensures after { buffer.new ≡ put_front (to_bytes 4 first ++ to_bytes 4 second) buffer.old }
{
    put_front(
        [first.to_be_bytes(), second.to_be_bytes()].as_flattened(),
        buffer,
    )
}

/// Writes the header at the front of the buffer and tells the place after it; nothing where the buffer is too short.
pub fn put_header<K: Kind>(header: Header, buffer: &mut [u8]) -> Option<usize>
    ensures place { result ≡ place_after 0 9 buffer.old }
    ensures after { buffer.new ≡ put_front (header_bytes K.Kind.format header.horizon header.count) buffer.old }
{
    let (mark, rest) = buffer.split_first_mut()?;
    put_words(header.horizon, header.count, rest).ok()?;
    *mark = K::MARK;
    Some(HEADER_LEN)
}

/// Writes the row at a place of the buffer and tells the place after it; nothing where it does not fit there.
// The place stands beside the buffer: a writer that held both would owe, at each call, that it writes to the same one.
pub fn put_row<K: Kind>(row: Row<K::Load>, at: usize, buffer: &mut [u8]) -> Option<usize>
    ensures place { result ≡ place_after at (row_size K.Kind.format) buffer.old }
    ensures after { buffer.new ≡ put_at at (row_bytes K.Kind.format (row_of K.Kind.counts row)) buffer.old }
{
    let (_, rest) = buffer.split_at_mut_checked(at)?;
    let (offset, rest) = rest.split_first_chunk_mut::<4>()?;
    let (length, image) = rest.split_first_chunk_mut::<4>()?;
    // The image first: a rest that is too short for it is found before anything is written.
    K::put(row.load, image).ok()?;
    // Each number by itself: both by `put_words` took two fifths longer.
    *offset = row.offset.to_be_bytes();
    *length = row.length.to_be_bytes();
    Some(at + SPAN_LEN + K::image_len() as usize)
}
