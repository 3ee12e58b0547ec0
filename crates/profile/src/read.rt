// Reading a whole profile, with or without its rows.
ghost use Rattle.std.specs.Prelude.{◌≡◌, Ok};
ghost use Rattle.std.specs.Result.{result_map_both as answered};
ghost use Rattle.profile.specs.Views.{header_of, Tells};
ghost use Rattle.profile.specs.Laws.{AcceptsWritings, RowsAreRuns, OneWriting};
ghost use Rattle.profile.specs.Wire.{read_profile, header_read};
ghost use Rattle.profile.specs.Rows.{Profile as PlainProfile};

use crate::row::{Header, Profile, ReadError};
use crate::walk::Walk;
use loads::kind::Kind;
use std::alloc::Global;
use terms::refusal::Refusal;

/// The header, if the bytes are a profile of the kind. Nothing is allocated.
pub fn check<K: Kind>(bytes: &[u8]) -> Result<Header, Refusal>
    ensures { answered header_of (λ e. e) result ≡ header_read (read_profile K.Kind.format bytes.now) }
{
    let (header, mut walk) = Walk::<K>::start(bytes)?;
    while walk.next_row()?.is_some() {}
    Ok(header)
}

// The profile of bytes that were found to be one.
fn collect<K: Kind>(heap: Global, bytes: &[u8]) -> Result<Profile<K::Load>, ReadError>
    ensures { (p : PlainProfile) → read_profile K.Kind.format bytes.now ≡ Ok p → Tells K.Kind.counts (Ok p) result }
{
    let (header, mut walk) = Walk::<K>::start(bytes)?;
    let mut rows = Vec::new(heap);
    while let Some(row) = walk.next_row()? {
        rows.push(row)?;
    }
    Ok(Profile {
        horizon: header.horizon,
        rows,
    })
}

/// The profile that the bytes are, for one kind, or why they are none. Each load has just one writing: two byte
/// strings that are read to one horizon and the same load at every minute are the same.
pub fn read<K: Kind>(heap: Global, bytes: &[u8]) -> Result<Profile<K::Load>, ReadError>
    ensures tells { Tells K.Kind.counts (read_profile K.Kind.format bytes.now) result }
    ensures accepts_writings { AcceptsWritings K.Kind.format }
    ensures rows_are_runs { RowsAreRuns K.Kind.format }
    ensures one_writing { OneWriting K.Kind.format }
{
    // Two walks: memory is asked for only where the bytes are a profile.
    check::<K>(bytes)?;
    collect::<K>(heap, bytes)
}
