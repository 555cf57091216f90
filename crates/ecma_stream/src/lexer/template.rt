//! The arm of a read in a template: its text, and the sign behind that.
ghost use Rattle.std.specs.Prelude.{◌≡◌, ◌<◌, ◌≤◌, ℕ, true, None, Some, length, slice_get, IsOk, OnOk, OnErr, []};
ghost use Rattle.ecma_place.specs.Cursor.{HasPlace, rest};
ghost use Rattle.ecma_state.specs.Reading.{reading};
ghost use Rattle.ecma_state.specs.Run.{at_place, is_free_read, mode_of};
ghost use Rattle.ecma_state.specs.Session.{lexer_state};
ghost use Rattle.ecma_plain.specs.Plain.{IsKept, ReadsText, text_reading};
ghost use Rattle.ecma_stream.specs.Giving.{back_at, Gives, IsRefused};
ghost use Rattle.ecma_token.specs.View.{spanned_view};

use super::Lexer;
use ecma_place::BytePos;
use ecma_plain::plain::{Plain, plain_text, text_between};
use ecma_reads::{PlainTemplate, eat_plain_template};
use ecma_slot::put;
use ecma_state::mode::Mode;
use ecma_token::TokenAndSpan;
use std::alloc::AllocError;

/// Whether template text is read at the cursor, and a token came before.
#[inline(always)]
fn reads_text(mode: &Mode) -> bool
    ensures { result ≡ true → ReadsText mode.now }
{
    !mode.shebang_allowed && !mode.first && mode.is_in_template()
}

impl<'a> Lexer<'a> {
    /// Takes in and puts into the slot what is just before the cursor, and what a read from `before` finds in a template.
    #[inline(always)]
    fn give_text(
        &mut self,
        slot: &mut Option<TokenAndSpan<'a>>,
        before: BytePos,
        plain: Plain<'a>,
    ) -> Result<(), AllocError>
        requires none { self.old.reread ≡ None }
        requires place { HasPlace self.old.input before.0 }
        requires opened { self.old.state.opened.0 ≤ before.0 }
        requires found { reading (mode_of (lexer_state self.old)) (at_place before self.old.input) ≡ text_reading (spanned_view plain.token) self.old.input }
        requires kept { IsKept plain }
        ensures done { OnOk result (Gives (back_at before self.old) self.new slot.old slot.new true) }
        ensures refused { OnErr result (IsRefused (back_at before self.old) self.new slot.old slot.new) }
        ensures free { length self.old.state.contexts < 128 → IsOk result }
    {
        if let Err(refused) = self.take_plain(plain.kept) {
            self.go_before(before);
            return Err(refused);
        }
        put(slot, plain.token);
        Ok(())
    }

    /// Reads what is in a template at the cursor, with an escape or a CR in it.
    // A call of its own, so that the room for what is scanned is kept there alone.
    #[inline(never)]
    fn scanned_text_into(&mut self, slot: &mut Option<TokenAndSpan<'a>>) -> Result<(), AllocError>
        requires none { self.old.reread ≡ None }
        requires text { ReadsText (mode_of (lexer_state self.old)) }
        requires more { (c : ℕ) × (slice_get (rest self.old.input) 0 ≡ Some c) }
        ensures done { OnOk result (Gives self.old self.new slot.old slot.new true) }
        ensures refused { OnErr result (IsRefused self.old self.new slot.old slot.new) }
        ensures free { length self.old.state.contexts < 128 → is_free_read (lexer_state self.old) ≡ true → IsOk result }
    {
        let mode = self.mode();
        let before = self.input.cur_pos();
        match plain_text(self.alloc, &mut self.input, &mode)? {
            Some(plain) => self.give_text(slot, before, plain),
            None => {
                self.go_before(before);
                self.besides_into(slot)
            }
        }
    }

    /// Reads what is in a template at the cursor.
    #[inline(never)]
    fn template_into(&mut self, slot: &mut Option<TokenAndSpan<'a>>) -> Result<(), AllocError>
        requires none { self.old.reread ≡ None }
        requires text { ReadsText (mode_of (lexer_state self.old)) }
        requires more { (c : ℕ) × (slice_get (rest self.old.input) 0 ≡ Some c) }
        ensures done { OnOk result (Gives self.old self.new slot.old slot.new true) }
        ensures refused { OnErr result (IsRefused self.old self.new slot.old slot.new) }
        ensures free { length self.old.state.contexts < 128 → is_free_read (lexer_state self.old) ≡ true → IsOk result }
    {
        let before = self.input.cur_pos();
        let after_template = self.mode().is_after_template();
        match eat_plain_template(&mut self.input, after_template) {
            PlainTemplate::Read(token, line_break) => {
                let end = self.input.cur_pos();
                self.give_text(slot, before, text_between(token, line_break, before, end))
            }
            PlainTemplate::Unterminated(_) => {
                self.go_before(before);
                self.besides_into(slot)
            }
            PlainTemplate::Other => self.scanned_text_into(slot),
        }
    }

    /// Reads what is at the cursor where `plain_gap` returns `None`: what is in a template, else a name that begins past
    /// ASCII, or what has more to report than a token.
    #[inline(never)]
    pub(super) fn text_into(
        &mut self,
        slot: &mut Option<TokenAndSpan<'a>>,
    ) -> Result<(), AllocError>
        requires none { self.old.reread ≡ None }
        ensures done { OnOk result (Gives self.old self.new slot.old slot.new true) }
        ensures refused { OnErr result (IsRefused self.old self.new slot.old slot.new) }
        ensures free { length self.old.state.contexts < 128 → is_free_read (lexer_state self.old) ≡ true → IsOk result }
        ensures ended { rest self.old.input ≡ [] → IsOk result }
    {
        let mode = self.mode();
        if !reads_text(&mode) {
            return self.foreign_into(slot);
        }
        match self.input.cur() {
            Some(_) => self.template_into(slot),
            None => self.besides_into(slot),
        }
    }
}
