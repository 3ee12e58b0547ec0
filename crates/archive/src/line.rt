// A line of an archive: a kind's word, a space, and the bytes of a profile in hexadecimal digits.
ghost use Rattle.std.specs.Prelude.{◌≡◌, true, is_some, MatchResult};
ghost use Rattle.std.specs.Option.{option_map};
ghost use Rattle.archive.specs.Grammar.{line_of};
ghost use Rattle.archive.specs.Views.{filing_of};

use crate::kind_name::KindName;
use std::alloc::{AllocError, Global};
use text::hex::from_hex;
use text::lines::word;

/// A profile as a line files it: its kind, and what should be its bytes.
#[derive(Drop)]
pub struct Filing {
    pub kind: KindName,
    pub bytes: Vec<u8>,
}

/// What the line files, `None` where it is not of the form. Only a line of the form can find no memory.
pub fn read_line(heap: Global, line: &[u8]) -> Result<Option<Filing>, AllocError>
    ensures { MatchResult result (λ o. option_map filing_of o ≡ line_of line.now) (λ _. is_some (line_of line.now) ≡ true) }
{
    let (name, rest) = word(line);
    let (Ok(kind), Some(digits)) = (KindName::try_from(name), rest) else {
        return Ok(None);
    };
    let bytes = from_hex(heap, digits)?;
    Ok(bytes.map(|bytes| Filing { kind, bytes }))
}
