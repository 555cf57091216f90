//! What a loop over a reader tells of errors, when the text is read.
ghost use Rattle.std.specs.Prelude.{◌≡◌, ◌<◌, ◌^◌, List, false, [], length, map, ℕ, OnOk};
ghost use Rattle.ecma_token.specs.View.{error_view};
ghost use Rattle.ecma_faults.specs.Faults.{all_of};
ghost use Rattle.ecma_report.specs.FaultLines.{OfFaults};
ghost use Rattle.ecma_report.specs.Reports.{Adds, IsOf, IsStill, writes_errors};
ghost use Rattle.ecma_report.specs.Rows.{Look};
ghost use Rattle.ecma_report.specs.Unmet.{unmet_told};

use ecma_command::words::Named;
use ecma_faults::in_order;
use ecma_report::faults::tell_found;
use ecma_report::report::{Report, Stop};
use ecma_report::unmet::tell_unmet;
use ecma_token::Error;
use std::io::Write;

/// Takes the errors of tokens and those that were recorded, in any order, and tells of each in order of place, as
/// [`tell_found`] does. Before them it tells of the places that were named and are no slash's; `rereads` is how many slashes
/// the reader read again.
///
/// # Errors
///
/// `OutOfMemory` where allocation fails, `Closed` where a write fails; what was written before stays.
pub(crate) fn tell_errors<'a, W: Write>(
    report: &mut Report<'a>,
    named: Named<'a>,
    tokens: Vec<Error<'a>>,
    recorded: Vec<Error<'a>>,
    rereads: usize,
    out: &mut W,
) -> Result<(), Stop>
    requires { length report.old.text.now < 2 ^ 32 }
    ensures adds { writes_errors report.old.asked.face ≡ false
        → OnOk result (Adds (W.contents out.old) (W.contents out.new) report.old.out.items report.new.out.items []) }
    ensures lines { (look : Look) (name text : List ℕ) → IsOf look name text report.old
        → OnOk result (OfFaults (unmet_told named.entry look name text rereads) look name text (all_of (map error_view tokens.entry.items) (map error_view recorded.entry.items) []) report.old report.new) }
    ensures still { OnOk result (IsStill report.old report.new) }
{
    let waiting = Vec::new(report.alloc);
    let found = in_order(report.alloc, tokens, recorded, waiting)?;
    tell_unmet(report, named, rereads)?;
    tell_found(report, &found, out)?;
    Ok(())
}
