// A walk over the bytes of a profile: its header, and then row by row.
ghost use Rattle.std.specs.Prelude.{◌≡◌, ◌<◌, ◌≤◌, length, take, drop, slice_index, None, IfOk, IfSome, MatchOption};
ghost use Rattle.std.specs.Option.{option_map};
ghost use Rattle.std.specs.Result.{result_map_both as answered};
ghost use Rattle.loads.specs.Digits.{from_bytes};
ghost use Rattle.loads.specs.Formats.{read_front};
ghost use Rattle.profile.specs.Views.{row_of, header_of, read_on, with_next};
ghost use Rattle.profile.specs.Wire.{read_header, refusal_of, row_at, row_size, read_rows};

use crate::limits::Limits;
use crate::row::{Header, Row};
use loads::kind::{Kind, LoadFault};
use loads::word::split_u32;
use std::marker::Model;
use terms::refusal::Refusal;

// The mark, the horizon with the number of rows, and the bytes after them.
fn split_header(bytes: &[u8]) -> Option<(u8, Header, &[u8])>
    ensures { MatchOption result (length bytes.now < 9) (λ p. (9 ≤ length bytes.now) × (p.0 ≡ slice_index bytes.now 0) × (p.1.horizon ≡ from_bytes (take 4 (drop 1 bytes.now))) × (p.1.count ≡ from_bytes (take 4 (drop 5 bytes.now))) × (p.2.now ≡ drop 9 bytes.now)) }
{
    let (mark, rest) = bytes.split_first()?;
    let (horizon, rest) = split_u32(rest)?;
    let (count, rest) = split_u32(rest)?;
    Some((*mark, Header { horizon, count }, rest))
}

// The load whose image stands at the front, and the bytes after it.
fn split_load<K: Kind>(bytes: &[u8]) -> Result<(K::Load, &[u8]), LoadFault>
    ensures load { answered (λ p. K.Kind.counts p.0) (λ e. e) result ≡ read_front K.Kind.format bytes.now }
    ensures rest { IfOk result (λ p. p.1.now ≡ drop K.Kind.format.size bytes.now) }
{
    let load = K::read(bytes)?;
    // An image was read, so the bytes are as many.
    Ok((load, &bytes[K::image_len() as usize..]))
}

// A function and no `From`, since both types are of other crates.
fn load_refusal(fault: LoadFault) -> Refusal
    ensures { result ≡ refusal_of fault }
{
    match fault {
        LoadFault::Short => Refusal::ProfileLength,
        LoadFault::NoImage => Refusal::NoImage,
    }
}

// The row at the front, wherever it may stand, and the bytes after it.
fn split_row<K: Kind>(bytes: &[u8]) -> Result<(Row<K::Load>, &[u8]), Refusal>
    ensures row { answered (λ p. row_of K.Kind.counts p.0) (λ e. e) result ≡ row_at K.Kind.format bytes.now }
    ensures rest { IfOk result (λ p. p.1.now ≡ drop (row_size K.Kind.format) bytes.now) }
{
    let (offset, rest) = split_u32(bytes).ok_or(Refusal::ProfileLength)?;
    let (length, rest) = split_u32(rest).ok_or(Refusal::ProfileLength)?;
    let (load, rest) = split_load::<K>(rest).map_err(load_refusal)?;
    let row = Row {
        offset,
        length,
        load,
    };
    Ok((row, rest))
}

/// What the next row has to keep to, how many rows are left, and the bytes from the next one on.
// Rows are counted here, by the header's number, so that both readers only ask for the next one.
#[derive(Drop)]
pub(crate) struct Walk<'b, K: Kind> {
    limits: Limits<K>,
    left: u32,
    rest: &'b [u8],
}

impl<'b, K: Kind> Model for Walk<'b, K> {
    ghost use Rattle.profile.specs.Views.{Reading};

    ghost Value = { Reading };

    ghost view = { λ a. record { limits = a.limits; left = a.left; rest = a.rest.now } };
}

impl<'b, K: Kind> Walk<'b, K> {
    /// The header, and the walk that begins with the first row after it.
    pub(crate) fn start(bytes: &'b [u8]) -> Result<(Header, Walk<'b, K>), Refusal>
        ensures header { answered (λ p. header_of p.0) (λ e. e) result ≡ read_header K.Kind.format bytes.now }
        ensures rows { IfOk result (λ p. read_on K.Kind.format p.1 ≡ read_rows K.Kind.format p.0.horizon None p.0.count (drop 9 bytes.now)) }
    {
        let (mark, header, rest) = split_header(bytes).ok_or(Refusal::ProfileLength)?;
        if mark != K::MARK {
            return Err(Refusal::OtherMark);
        }
        let limits = Limits::new(header.horizon)?;
        let left = header.count;
        Ok((header, Walk { limits, left, rest }))
    }

    /// The row at the front of the rest, if it keeps to the limits, and the walk goes on behind it; none after the
    /// last one, where bytes that are left are refused.
    pub(crate) fn next_row(&mut self) -> Result<Option<Row<K::Load>>, Refusal>
        ensures rows { read_on K.Kind.format self.old ≡ with_next (answered (option_map (row_of K.Kind.counts)) (λ e. e) result) (read_on K.Kind.format self.new) }
        ensures fewer { IfOk result (λ row. IfSome row (λ _. self.new.left < self.old.left)) }
    {
        if self.left == 0 {
            return if self.rest.is_empty() {
                Ok(None)
            } else {
                Err(Refusal::ProfileLength)
            };
        }
        let (row, rest) = split_row::<K>(self.rest)?;
        self.limits.admit(row)?;
        self.left -= 1;
        self.rest = rest;
        Ok(Some(row))
    }
}
