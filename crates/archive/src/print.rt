// The text of what was read.
ghost use Rattle.std.specs.Prelude.{◌≡◌, ◌++◌, map, IfSome, OnOk};
ghost use Rattle.std.specs.List.{flat_map};
ghost use Rattle.profile.specs.Views.{row_of, profile_of};
ghost use Rattle.archive.specs.Texts.{feed, row_text, accepted_text, bad_text, refused_text};

use crate::rejection::{BAD_LINE, REFUSED};
use loads::kind::Kind;
use profile::row::{Profile, Row};
use std::alloc::AllocError;
use std::fmt::Display;
use terms::refusal::Refusal;
use text::decimal::push_decimal;
use text::hex::push_hex;

/// Adds a line with the text of a value, as `writeln!` does, but fails for want of memory alone. It makes that text on
/// the heap, so it is for the totals, which are one line a run.
pub(crate) fn push_line<D: Display + Drop>(out: &mut Vec<u8>, value: D) -> Result<(), AllocError>
    ensures { OnOk result (IfSome (D.output value) (λ bs. out.new.items ≡ out.old.items ++ (bs ++ feed))) }
{
    let line = format!(in *out.allocator(); "{value}\n")?;
    out.extend_from_slice(line.as_bytes())
}

// The answer to a line is pushed in pieces, here and in `push_profile`: with a text made for each, the program took
// 1.2 s in place of 0.26 s on 32,000,000 empty lines.

/// Adds the line of `Rejection::BadLine`.
pub(crate) fn push_bad(out: &mut Vec<u8>) -> Result<(), AllocError>
    ensures { OnOk result (out.new.items ≡ out.old.items ++ bad_text) }
{
    out.extend_from_slice(BAD_LINE.as_bytes())?;
    out.extend_from_slice(b"\n")
}

/// Adds the line of `Rejection::Refused`.
pub(crate) fn push_refused(out: &mut Vec<u8>, refusal: Refusal) -> Result<(), AllocError>
    ensures { OnOk result (out.new.items ≡ out.old.items ++ refused_text refusal) }
{
    out.extend_from_slice(REFUSED.as_bytes())?;
    push_decimal(out, u64::from(refusal.number()))?;
    out.extend_from_slice(b"\n")
}

// Adds a row, its load given as the image. It is pushed in pieces, since a text made for each row would take half as
// long again.
fn push_row<K: Kind>(out: &mut Vec<u8>, row: &Row<K::Load>, image: &[u8]) -> Result<(), AllocError>
    ensures { image.now ≡ K.Kind.format.image (K.Kind.counts row.now.load)
        → OnOk result (out.new.items ≡ out.old.items ++ row_text K.Kind.format (row_of K.Kind.counts row.now)) }
{
    push_decimal(out, u64::from(row.offset))?;
    out.extend_from_slice(b" ")?;
    push_decimal(out, u64::from(row.length))?;
    out.extend_from_slice(b" ")?;
    push_hex(out, image)?;
    out.extend_from_slice(b"\n")
}

fn push_rows<K: Kind>(out: &mut Vec<u8>, rows: &[Row<K::Load>]) -> Result<(), AllocError>
    ensures { OnOk result (out.new.items ≡ out.old.items ++ flat_map (row_text K.Kind.format) (map (row_of K.Kind.counts) rows.now)) }
{
    let mut room = vec![in *out.allocator(); 0; K::image_len() as usize]?;
    let image = room.as_mut_slice();
    for row in rows {
        // There is room for every image: for one that is longer than any buffer there was no memory.
        K::put(row.load, image).unwrap();
        push_row::<K>(out, row, image)?;
    }
    Ok(())
}

/// Adds the text of an accepted profile.
pub(crate) fn push_profile<K: Kind>(
    out: &mut Vec<u8>,
    profile: &Profile<K::Load>,
) -> Result<(), AllocError>
    ensures { OnOk result (out.new.items ≡ out.old.items ++ accepted_text K.Kind.format (profile_of K.Kind.counts profile.now.horizon profile.now.rows.items)) }
{
    out.extend_from_slice(b"ok ")?;
    push_decimal(out, u64::from(profile.horizon))?;
    out.extend_from_slice(b" ")?;
    push_decimal(out, profile.rows.len() as u64)?;
    out.extend_from_slice(b"\n")?;
    push_rows::<K>(out, profile.rows.as_slice())
}
