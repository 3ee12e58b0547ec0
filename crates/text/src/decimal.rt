// Numbers written as decimal digits.
ghost use Rattle.std.specs.Prelude.{◌≡◌, ◌+◌, ◌<◌, ◌++◌, length, is_ok, if◌then◌else◌, vec_len, vec_capacity, decimal, OnErr};

use itoa::Buffer;
use std::alloc::AllocError;

/// Adds the digits of `n` without leading zeros. Where there is no memory for all of them, nothing is
/// added.
pub fn push_decimal(out: &mut Vec<u8>, n: u64) -> Result<(), AllocError>
    ensures items { out.new.items ≡ (if is_ok result then out.old.items ++ decimal n else out.old.items) }
    ensures refuses { OnErr result (vec_capacity out.old < vec_len out.old + length (decimal n)) }
{
    out.extend_from_slice(Buffer::new().format(n).as_bytes())
}
