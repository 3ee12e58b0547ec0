// The report on a whole input: the answer to each line, and the totals.
ghost use Rattle.std.specs.Prelude.{◌≡◌, IfOk};
ghost use Rattle.archive.specs.Laws.{OneKind, OneWritingEach};
ghost use Rattle.archive.specs.Reports.{report_text};

use crate::answer::answer;
use crate::rejection::Rejection;
use crate::total::push_totals;
use std::alloc::{AllocError, Global};
use text::lines::Lines;

/// What is printed of an input, any bytes. Bytes are accepted for one of the three kinds only, and one load at every
/// minute has one byte string, so that the different byte strings are the different profiles.
pub fn report(heap: Global, input: &[u8]) -> Result<Vec<u8>, AllocError>
    ensures text { IfOk result (λ v. v.items ≡ report_text input.now) }
    ensures one_kind { OneKind }
    ensures one_writing { OneWritingEach }
{
    let mut text = Vec::new(heap);
    let mut accepted = Vec::new(heap);
    let mut refused = 0;
    let mut bad = 0;
    for line in Lines::of(input) {
        match answer(&mut text, line)? {
            Ok(bytes) => accepted.push(bytes)?,
            Err(Rejection::Refused(_)) => refused += 1,
            Err(Rejection::BadLine) => bad += 1,
        }
    }
    push_totals(&mut text, accepted, refused, bad)?;
    Ok(text)
}
