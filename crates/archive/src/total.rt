// The totals, which stand last.
ghost use Rattle.std.specs.Prelude.{◌≡◌, ◌+◌, ◌<◌, List, ◌++◌, vec_len, OnOk};
ghost use Rattle.archive.specs.Findings.{Finding};
ghost use Rattle.archive.specs.Reports.{totals_of, total_text};
ghost use Rattle.archive.specs.Views.{Parted};

use crate::print::push_line;
use std::alloc::AllocError;
use text::distinct::distinct;

/// Adds how many lines there were, how many of each verdict, and how many different profiles were accepted.
pub(crate) fn push_totals(
    out: &mut Vec<u8>,
    accepted: Vec<Vec<u8>>,
    refused: usize,
    bad: usize,
) -> Result<(), AllocError>
    requires { vec_len accepted + refused + bad < usize.MAX }
    ensures { OnOk result ((fs : List Finding) → Parted fs accepted.items refused bad → out.new.items ≡ out.old.items ++ total_text (totals_of fs)) }
{
    let ok = accepted.len();
    let total = ok + refused + bad;
    let distinct = distinct(accepted);
    push_line(
        out,
        format_args!("total {total} ok {ok} refused {refused} bad {bad} distinct {distinct}"),
    )
}
