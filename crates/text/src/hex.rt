// Bytes written as small hexadecimal digits, two for each byte. A capital letter is no digit here, though the library
// and the kit's `hex` read it as one.
ghost use Rattle.std.specs.Prelude.{◌≡◌, ◌+◌, ◌*◌, ◌<◌, ◌≤◌, true, [], ◌∷◌, ◌++◌, length, is_some, is_ok, if◌then◌else◌, slice_index, vec_items, vec_len, vec_capacity, MatchResult, OnErr};
ghost use Rattle.std.specs.List.{list_all};
ghost use Rattle.std.specs.Option.{option_map};
ghost use Rattle.text.specs.Hex.{hex_value, pair_value, hex_bytes, hex_digit, hex_text, HexLaw};

use std::alloc::{AllocError, Global};

/// The value of a small hexadecimal digit.
pub fn digit_value(byte: u8) -> Option<u8>
    ensures { result ≡ hex_value byte }
{
    match byte {
        b'0'..=b'9' => Some(byte - b'0'),
        b'a'..=b'f' => Some(byte - b'a' + 10),
        _ => None,
    }
}

// The byte that a pair of digits writes.
fn pair_value(pair: [u8; 2]) -> Option<u8>
    ensures { result ≡ pair_value (slice_index pair 0) (slice_index pair 1) }
{
    let [high, low] = pair;
    Some(digit_value(high)? * 16 + digit_value(low)?)
}

// Whether each pair writes a byte.
fn well_formed(pairs: &[[u8; 2]]) -> bool
    ensures { result ≡ list_all (λ p. is_some (pair_value (slice_index p 0) (slice_index p 1))) pairs.now }
{
    pairs.iter().all(|pair| pair_value(*pair).is_some())
}

/// The bytes that the digits write, `None` where they write none. Only digits that write some byte can
/// find no memory.
pub fn from_hex(heap: Global, digits: &[u8]) -> Result<Option<Vec<u8>>, AllocError>
    ensures { MatchResult result (λ o. option_map vec_items o ≡ hex_bytes digits.now) (λ _. (is_some (hex_bytes digits.now) ≡ true) × (2 ≤ length digits.now)) }
{
    let (pairs, odd) = digits.as_chunks::<2>();
    if !odd.is_empty() || !well_formed(pairs) {
        return Ok(None);
    }
    // A second pass: memory is asked for only where the digits write bytes.
    let mut bytes = Vec::new(heap);
    for pair in pairs {
        bytes.push(pair_value(*pair).unwrap())?;
    }
    Ok(Some(bytes))
}

// The digit that stands for a value; beside `digit_value`, since one law is about both directions.
fn digit_of(value: u8) -> u8
    requires { value < 16 }
    ensures { result ≡ hex_digit value }
{
    if value < 10 {
        b'0' + value
    } else {
        b'a' + (value - 10)
    }
}

// The two digits of a byte, as `digit_of` writes them.
fn digits_of(byte: u8) -> [u8; 2]
    ensures { result ≡ hex_text (byte ∷ []) }
{
    [digit_of(byte / 16), digit_of(byte % 16)]
}

/// Adds two digits for each byte. Where there is no memory for all of them, nothing is added.
#[tactic(auto, using(crate::proofs::Writes::hex_law, crate::proofs::Writes::text_more, crate::proofs::Writes::text_all))]
pub fn push_hex(out: &mut Vec<u8>, bytes: &[u8]) -> Result<(), AllocError>
    ensures items { out.new.items ≡ (if is_ok result then out.old.items ++ hex_text bytes.now else out.old.items) }
    ensures refuses { OnErr result (vec_capacity out.old < vec_len out.old + 2 * length bytes.now) }
    ensures law { HexLaw }
{
    out.reserve(2 * bytes.len())?;
    for byte in bytes {
        let [high, low] = digits_of(*byte);
        out.push_reserved(high);
        out.push_reserved(low);
    }
    Ok(())
}
