//! Which slashes begin regular expressions.
ghost use Rattle.std.specs.Prelude.{◌≡◌, ◌<◌, ◌^◌, [], length, true, IfOk};
ghost use Rattle.ecma_options.specs.Begin.{begin};
ghost use Rattle.ecma_reader.specs.Rereads.{is_in_order, rule_of};
ghost use Rattle.ecma_reader.specs.Readers.{IsReady, Shows};
ghost use Rattle.ecma_report.specs.Slashes.{rule_at};

use crate::report::Report;
use ecma_command::words::Named;
use ecma_reader::{Reader, Slashes, ascend};
use ecma_span::BytePos;
use std::alloc::AllocError;

/// The place at which a text starts.
pub const START: BytePos = BytePos(0);

/// Which slashes begin regular expressions: those at the places, or those of the other rule where there are none, or they do
/// not ascend.
pub fn slashes_at<'a>(named: Named<'a>) -> Slashes<'a>
    ensures rule { rule_of result ≡ rule_at named.entry }
    ensures in_order { is_in_order (rule_of result) ≡ true }
{
    if !named.places.is_empty() && ascend(named.places) {
        Slashes::At(named.places)
    } else if named.by_flag {
        Slashes::ByFlag
    } else {
        Slashes::ByRole
    }
}

/// A reader of the text that a report is of. `comments` says whether comments are collected.
///
/// # Errors
///
/// `AllocError` where allocation fails for it.
pub fn open<'a>(
    report: &Report<'a>,
    named: Named<'a>,
    comments: bool,
) -> Result<Reader<'a>, AllocError>
    requires { length report.now.text.now < 2 ^ 32 }
    ensures shows { IfOk result (Shows (rule_at named.entry) (begin comments report.now.asked.options report.now.text.now) []) }
    ensures ready { IfOk result (λ reader. IsReady reader) }
{
    let settings = report.asked.options.settings(comments);
    let context = report.asked.options.context();
    let slashes = slashes_at(named);
    Reader::new(
        report.alloc,
        &settings,
        context,
        report.text,
        START,
        slashes,
    )
}
