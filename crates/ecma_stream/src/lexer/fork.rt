//! The fork of a read, on the first character behind the gap.
ghost use Rattle.std.specs.Prelude.{◌≡◌, ◌<◌, true, None, length, IsOk, OnOk, OnErr, []};
ghost use Rattle.ecma_place.specs.Cursor.{rest};
ghost use Rattle.ecma_state.specs.Run.{is_free_read};
ghost use Rattle.ecma_state.specs.Session.{lexer_state};
ghost use Rattle.ecma_reads.specs.Alone.{StandsAlone};
ghost use Rattle.ecma_stream.specs.Giving.{back_at, Gives, IsBehindGap, IsRefused};

use super::Lexer;
use ecma_place::BytePos;
use ecma_plain::plain::{begins_word, plain_space};
use ecma_reads::{BlankGap, alone_kind, stands_alone};
use ecma_state::lookahead::Lookahead;
use ecma_token::TokenAndSpan;
use std::alloc::AllocError;

impl<'a> Lexer<'a> {
    /// Reads what is at the cursor, whatever it is.
    #[inline(never)]
    fn other_into(
        &mut self,
        slot: &mut Option<TokenAndSpan<'a>>,
        before: BytePos,
        gap: BlankGap,
    ) -> Result<(), AllocError>
        requires behind { IsBehindGap before self.old gap }
        ensures done { OnOk result (Gives (back_at before self.old) self.new slot.old slot.new true) }
        ensures refused { OnErr result (IsRefused (back_at before self.old) self.new slot.old slot.new) }
        ensures free { length self.old.state.contexts < 128 → is_free_read (lexer_state (back_at before self.old)) ≡ true → IsOk result }
    {
        let mode = self.mode();
        match Lookahead::at(&self.input, &mode, gap.line_break, gap.next as char) {
            Lookahead::Other => self.punctuator_into(slot, before, gap),
            Lookahead::String => self.string_into(slot, before, gap),
            Lookahead::Number => self.number_into(slot, before, gap),
            Lookahead::Word | Lookahead::Template | Lookahead::Bars => {
                self.rest_into(slot, before, gap)
            }
        }
    }

    /// Reads what is at the cursor, most often an operator.
    #[inline(never)]
    fn operator_into(
        &mut self,
        slot: &mut Option<TokenAndSpan<'a>>,
        before: BytePos,
        gap: BlankGap,
    ) -> Result<(), AllocError>
        requires behind { IsBehindGap before self.old gap }
        ensures done { OnOk result (Gives (back_at before self.old) self.new slot.old slot.new true) }
        ensures refused { OnErr result (IsRefused (back_at before self.old) self.new slot.old slot.new) }
        ensures free { length self.old.state.contexts < 128 → is_free_read (lexer_state (back_at before self.old)) ≡ true → IsOk result }
    {
        match alone_kind(gap.next) {
            Some(kind) if stands_alone(&self.input, gap.next) => {
                self.give_alone(slot, before, gap, kind)
            }
            _ => self.other_into(slot, before, gap),
        }
    }

    /// Gives the punctuator that the character `C`, which is at the cursor, spells alone.
    // A function of its own for each such character: the punctuator is a constant there, up to and with the change of the
    // state.
    #[inline(never)]
    fn alone_into<const C: u8>(
        &mut self,
        slot: &mut Option<TokenAndSpan<'a>>,
        before: BytePos,
        gap: BlankGap,
    ) -> Result<(), AllocError>
        requires behind { IsBehindGap before self.old gap }
        requires next { gap.next ≡ C }
        requires alone { StandsAlone (rest self.old.input) }
        ensures done { OnOk result (Gives (back_at before self.old) self.new slot.old slot.new true) }
        ensures refused { OnErr result (IsRefused (back_at before self.old) self.new slot.old slot.new) }
        ensures free { length self.old.state.contexts < 128 → is_free_read (lexer_state (back_at before self.old)) ≡ true → IsOk result }
    {
        match alone_kind(C) {
            Some(kind) => self.give_alone(slot, before, gap, kind),
            None => self.other_into(slot, before, gap),
        }
    }

    /// Reads the token behind the white space with which a read from `before` begins.
    #[inline(always)]
    fn fork(
        &mut self,
        slot: &mut Option<TokenAndSpan<'a>>,
        before: BytePos,
        gap: BlankGap,
    ) -> Result<(), AllocError>
        requires behind { IsBehindGap before self.old gap }
        ensures done { OnOk result (Gives (back_at before self.old) self.new slot.old slot.new true) }
        ensures refused { OnErr result (IsRefused (back_at before self.old) self.new slot.old slot.new) }
        ensures free { length self.old.state.contexts < 128 → is_free_read (lexer_state (back_at before self.old)) ≡ true → IsOk result }
    {
        if begins_word(gap.next) {
            return self.word_into(slot, before, gap);
        }
        match gap.next {
            b'(' => self.alone_into::<b'('>(slot, before, gap),
            b')' => self.alone_into::<b')'>(slot, before, gap),
            b'{' => self.alone_into::<b'{'>(slot, before, gap),
            b'}' => self.alone_into::<b'}'>(slot, before, gap),
            b'[' => self.alone_into::<b'['>(slot, before, gap),
            b']' => self.alone_into::<b']'>(slot, before, gap),
            b';' => self.alone_into::<b';'>(slot, before, gap),
            b',' => self.alone_into::<b','>(slot, before, gap),
            b':' => self.alone_into::<b':'>(slot, before, gap),
            b'.' if stands_alone(&self.input, b'.') => self.alone_into::<b'.'>(slot, before, gap),
            b'=' if stands_alone(&self.input, b'=') => self.alone_into::<b'='>(slot, before, gap),
            b'.' | b'=' => self.other_into(slot, before, gap),
            b'"' | b'\'' => self.string_into(slot, before, gap),
            b'0'..=b'9' => self.number_into(slot, before, gap),
            _ => self.operator_into(slot, before, gap),
        }
    }

    /// Reads behind any gap, where no slash is read again.
    #[inline(never)]
    fn gap_into(&mut self, slot: &mut Option<TokenAndSpan<'a>>) -> Result<(), AllocError>
        requires none { self.old.reread ≡ None }
        ensures done { OnOk result (Gives self.old self.new slot.old slot.new true) }
        ensures refused { OnErr result (IsRefused self.old self.new slot.old slot.new) }
        ensures free { length self.old.state.contexts < 128 → is_free_read (lexer_state self.old) ≡ true → IsOk result }
        ensures ended { rest self.old.input ≡ [] → IsOk result }
    {
        let before = self.input.cur_pos();
        match self.pass_gap(before)? {
            Some(gap) => self.fork(slot, before, gap),
            None => self.text_into(slot),
        }
    }

    /// Reads into the slot without asking whether an allocation failed before.
    // What most tokens need is done here and in the arm that is called last, so that neither keeps room for the rest.
    #[inline(never)]
    pub(super) fn next_into(
        &mut self,
        slot: &mut Option<TokenAndSpan<'a>>,
    ) -> Result<(), AllocError>
        ensures done { OnOk result (Gives self.old self.new slot.old slot.new true) }
        ensures refused { OnErr result (IsRefused self.old self.new slot.old slot.new) }
        ensures free { length self.old.state.contexts < 128 → is_free_read (lexer_state self.old) ≡ true → IsOk result }
        ensures ended { self.old.reread ≡ None → rest self.old.input ≡ [] → IsOk result }
    {
        if self.reads_again() {
            return self.besides_into(slot);
        }
        let before = self.input.cur_pos();
        let stood = self.input.clone()?;
        let mode = self.mode();
        match plain_space(&mut self.input, &mode) {
            Some(gap) => self.fork(slot, before, gap),
            None => {
                self.input = stood;
                self.gap_into(slot)
            }
        }
    }
}
