// The answer to one line.
ghost use Rattle.std.specs.Prelude.{◌≡◌, ◌++◌, IfOk, Some, OnOk};
ghost use Rattle.std.specs.Option.{option_map};
ghost use Rattle.std.specs.Result.{result_err};
ghost use Rattle.profile.specs.Wire.{read_profile};
ghost use Rattle.archive.specs.Findings.{found, finding, verdict};
ghost use Rattle.archive.specs.Grammar.{format_of};
ghost use Rattle.archive.specs.Texts.{read_text, answer_text};
ghost use Rattle.archive.specs.Views.{filing_of, verdict_of};
ghost use Rattle.archive.specs.declared.rejection.Rejection.TheVariants.{Refused};

use crate::kind_name::KindName;
use crate::line::{Filing, read_line};
use crate::print::{push_bad, push_profile, push_refused};
use crate::rejection::Rejection;
use loads::airtime::Airtime;
use loads::crews::Crews;
use loads::kind::Kind;
use loads::pair::Pair;
use profile::read::read;
use profile::row::ReadError;
use std::alloc::AllocError;

/// What a line was found to be: of an accepted one, the bytes of its profile.
pub type Verdict = Result<Vec<u8>, Rejection>;

// Adds what is printed of bytes for one kind, and tells why they were rejected, if they were.
fn answer_as<K: Kind>(out: &mut Vec<u8>, bytes: &[u8]) -> Result<Result<(), Rejection>, AllocError>
    ensures text { OnOk result (out.new.items ≡ out.old.items ++ read_text K.Kind.format (read_profile K.Kind.format bytes.now)) }
    ensures rejection { IfOk result (λ r. result_err r ≡ option_map Refused (result_err (read_profile K.Kind.format bytes.now))) }
{
    match read::<K>(*out.allocator(), bytes) {
        Ok(profile) => {
            push_profile::<K>(out, &profile)?;
            Ok(Ok(()))
        }
        Err(ReadError::Refused(refusal)) => {
            push_refused(out, refusal)?;
            Ok(Err(Rejection::Refused(refusal)))
        }
        // Want of memory is no answer to the line, so it leaves by the outer error.
        Err(ReadError::OutOfMemory) => Err(AllocError),
    }
}

// The same for the kind of a name. Kinds are types, so each is written out.
fn answer_named(
    out: &mut Vec<u8>,
    kind: KindName,
    bytes: &[u8],
) -> Result<Result<(), Rejection>, AllocError>
    ensures text { OnOk result (out.new.items ≡ out.old.items ++ read_text (format_of kind) (read_profile (format_of kind) bytes.now)) }
    ensures rejection { IfOk result (λ r. result_err r ≡ option_map Refused (result_err (read_profile (format_of kind) bytes.now))) }
{
    match kind {
        KindName::Airtime => answer_as::<Airtime>(out, bytes),
        KindName::Crews => answer_as::<Crews>(out, bytes),
        KindName::Both => answer_as::<Pair<Airtime, Crews>>(out, bytes),
    }
}

// Adds the answer to a line of the form, and tells what it was found to be.
fn answer_filing(out: &mut Vec<u8>, filing: Filing) -> Result<Verdict, AllocError>
    ensures text { OnOk result (out.new.items ≡ out.old.items ++ answer_text (found (Some (filing_of filing)))) }
    ensures verdict { IfOk result (λ v. verdict_of v ≡ verdict (found (Some (filing_of filing)))) }
{
    let Filing { kind, bytes } = filing;
    Ok(answer_named(out, kind, bytes.as_slice())?.map(|()| bytes))
}

/// Adds the answer to a line, and tells what it was found to be.
pub fn answer(out: &mut Vec<u8>, line: &[u8]) -> Result<Verdict, AllocError>
    ensures text { OnOk result (out.new.items ≡ out.old.items ++ answer_text (finding line.now)) }
    ensures verdict { IfOk result (λ v. verdict_of v ≡ verdict (finding line.now)) }
{
    match read_line(*out.allocator(), line)? {
        Some(filing) => answer_filing(out, filing),
        None => {
            push_bad(out)?;
            Ok(Err(Rejection::BadLine))
        }
    }
}
