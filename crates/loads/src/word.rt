// Numbers as bytes, the highest byte first.
ghost use Rattle.std.specs.Prelude.{◌≡◌, ◌<◌, ◌≤◌, length, take, drop, is_ok, MatchOption, nat_le};
ghost use Rattle.loads.specs.Digits.{to_bytes, from_bytes};
ghost use Rattle.loads.specs.Formats.{put_front};

use crate::kind::Short;

/// Writes the bytes at the front of the buffer and keeps the rest; nothing is written where it is shorter.
pub fn put_front(bytes: &[u8], buffer: &mut [u8]) -> Result<(), Short>
    ensures fits { is_ok result ≡ nat_le (length bytes.now) (length buffer.old) }
    ensures after { buffer.new ≡ put_front bytes.now buffer.old }
{
    let (front, _) = buffer.split_at_mut_checked(bytes.len()).ok_or(Short)?;
    front.copy_from_slice(bytes);
    Ok(())
}

/// Writes the number in 4 bytes at the front of the buffer and keeps the rest; nothing is written where it is shorter.
pub fn put_u32(number: u32, buffer: &mut [u8]) -> Result<(), Short>
    ensures fits { is_ok result ≡ nat_le 4 (length buffer.old) }
    ensures after { buffer.new ≡ put_front (to_bytes 4 number) buffer.old }
{
    put_front(&number.to_be_bytes(), buffer)
}

/// The number in the first 4 bytes, and what follows them; none where there are fewer.
pub fn split_u32(bytes: &[u8]) -> Option<(u32, &[u8])>
    ensures { MatchOption result (length bytes.now < 4) (λ p. (4 ≤ length bytes.now) × (p.0 ≡ from_bytes (take 4 bytes.now)) × (p.1.now ≡ drop 4 bytes.now)) }
{
    let (front, rest) = bytes.split_first_chunk::<4>()?;
    Some((u32::from_be_bytes(*front), rest))
}
