// Why a line files no profile.
ghost use Rattle.std.specs.Prelude.{Some};
ghost use Rattle.archive.specs.Texts.{rejection_text};

use std::error::Error;
use std::fmt;
use terms::refusal::Refusal;

pub(crate) const BAD_LINE: &str = "bad line";

/// What stands before the number of the refusal.
pub(crate) const REFUSED: &str = "refused ";

/// The line is not of the form, or its bytes were refused.
#[derive(Clone, Copy, PartialEq, Eq, Debug)]
pub enum Rejection {
    BadLine,
    Refused(Refusal),
}

impl fmt::Display for Rejection {
    ghost output = { λ r. Some (rejection_text r) };

    fn fmt<W: fmt::Write>(&self, f: &mut fmt::Formatter<W>) -> fmt::Result {
        match self {
            Rejection::BadLine => write!(f, "{BAD_LINE}"),
            Rejection::Refused(refusal) => {
                let number = refusal.number();
                write!(f, "{REFUSED}{number}")
            }
        }
    }
}

impl Error for Rejection {}
