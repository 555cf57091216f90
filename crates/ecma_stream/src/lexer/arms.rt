//! The arms of a read, which read what comes behind white space: words, punctuators of one character, and all else of which
//! there is nothing else to report.
ghost use Rattle.std.specs.Prelude.{◌≡◌, ◌<◌, ◌≤◌, true, false, None, Some, [], length, IfNone, IfOk, IfSome, IsOk, OnOk, OnErr};
ghost use Rattle.ecma_token.specs.View.{spanned_view};
ghost use Rattle.ecma_place.specs.Cursor.{HasPlace, place, rest};
ghost use Rattle.ecma_reads.specs.Alone.{IsSpelledBy, StandsAlone};
ghost use Rattle.ecma_plain.specs.Plain.{IsKept, begins_word, plain_reading};
ghost use Rattle.ecma_stream.specs.Giving.{back_at, Gives, IsBehindGap, IsRefused};
ghost use Rattle.ecma_state.specs.Reading.{reading};
ghost use Rattle.ecma_state.specs.TokenAt.{lookahead};
ghost use Rattle.ecma_state.specs.declared.lookahead.Lookahead.TheVariants as opens;
ghost use Rattle.ecma_state.specs.Session.{lexer_state};
ghost use Rattle.ecma_state.specs.Run.{at_place, is_free_read, mode_of};

use super::Lexer;
use ecma_place::BytePos;
use ecma_plain::plain::{
    Plain, eaten_number, eaten_string, plain_alone, plain_foreign, plain_gap, plain_number,
    plain_punctuator, plain_string, with_kept, word_behind,
};
use ecma_reads::{BlankGap, PunctuatorKind, eat_plain_kind};
use ecma_slot::put;
use ecma_syntax::{IdentKind, WordKind};
use ecma_token::TokenAndSpan;
use std::alloc::AllocError;

impl<'a> Lexer<'a> {
    /// Passes the gap with which a read from here begins, where there is nothing to report of it but the flag; else the lexer stays.
    #[inline(always)]
    pub(super) fn pass_gap(&mut self, before: BytePos) -> Result<Option<BlankGap>, AllocError>
        requires none { self.old.reread ≡ None }
        requires here { before.0 ≡ place self.old.input }
        ensures behind { IfOk result (λ gap. IfSome gap (IsBehindGap before self.new)) }
        ensures back { IfOk result (λ gap. IfSome gap (λ _. back_at before self.new ≡ self.old)) }
        ensures same { IfOk result (λ gap. IfNone gap (self.new ≡ self.old)) }
        ensures free { IsOk result }
    {
        let stood = self.input.clone()?;
        let mode = self.mode();
        match plain_gap(&mut self.input, &mode) {
            Some(gap) => Ok(Some(gap)),
            None => {
                self.input = stood;
                Ok(None)
            }
        }
    }

    /// Takes in and puts into the slot a token that is just before the cursor, and that a read from `before` finds with
    /// nothing else to report.
    #[inline(always)]
    fn give(
        &mut self,
        slot: &mut Option<TokenAndSpan<'a>>,
        before: BytePos,
        plain: Plain<'a>,
    ) -> Result<(), AllocError>
        requires none { self.old.reread ≡ None }
        requires place { HasPlace self.old.input before.0 }
        requires opened { self.old.state.opened.0 ≤ before.0 }
        requires found { reading (mode_of (lexer_state self.old)) (at_place before self.old.input) ≡ plain_reading (spanned_view plain.token) self.old.input }
        requires kept { IsKept plain }
        ensures done { OnOk result (Gives (back_at before self.old) self.new slot.old slot.new true) }
        ensures refused { OnErr result (IsRefused (back_at before self.old) self.new slot.old slot.new) }
        ensures free { length self.old.state.contexts < 128 → IsOk result }
    {
        if let Err(refused) = self.take_plain(plain.kept) {
            self.go_before(before);
            return Err(refused);
        }
        put(slot, plain.token);
        Ok(())
    }

    /// Puts the cursor back, since nothing was read.
    #[inline(always)]
    pub(super) fn go_before(&mut self, before: BytePos)
        requires place { HasPlace self.old.input before.0 }
        requires opened { self.old.state.opened.0 ≤ before.0 }
        ensures { self.new ≡ back_at before self.old }
    {
        self.input.reset_to(before);
    }

    /// Gives the word at the cursor, where it is written with no escape, and says whether it did.
    #[inline(always)]
    fn give_word(
        &mut self,
        slot: &mut Option<TokenAndSpan<'a>>,
        before: BytePos,
        gap: BlankGap,
    ) -> Result<bool, AllocError>
        requires behind { IsBehindGap before self.old gap }
        requires begins { begins_word gap.next ≡ true }
        ensures done { IfOk result (λ done. Gives (back_at before self.old) self.new slot.old slot.new done) }
        ensures refused { OnErr result (IsRefused (back_at before self.old) self.new slot.old slot.new) }
        ensures free { length self.old.state.contexts < 128 → IsOk result }
    {
        let start = self.input.cur_pos();
        let Some(kind) = eat_plain_kind(&mut self.input) else {
            self.go_before(before);
            return Ok(false);
        };
        // Names have an arm of their own, in which the kind is a constant, up to and with the change of the state.
        let name = WordKind::Ident(IdentKind::Other);
        if kind == name {
            let plain = word_behind(&self.input, gap, start, name);
            self.give(slot, before, plain)?;
        } else {
            let plain = word_behind(&self.input, gap, start, kind);
            self.give(slot, before, plain)?;
        }
        Ok(true)
    }

    /// Reads the word at the cursor.
    #[inline(never)]
    pub(super) fn word_into(
        &mut self,
        slot: &mut Option<TokenAndSpan<'a>>,
        before: BytePos,
        gap: BlankGap,
    ) -> Result<(), AllocError>
        requires behind { IsBehindGap before self.old gap }
        requires begins { begins_word gap.next ≡ true }
        ensures done { OnOk result (Gives (back_at before self.old) self.new slot.old slot.new true) }
        ensures refused { OnErr result (IsRefused (back_at before self.old) self.new slot.old slot.new) }
        ensures free { length self.old.state.contexts < 128 → is_free_read (lexer_state (back_at before self.old)) ≡ true → IsOk result }
    {
        if self.give_word(slot, before, gap)? {
            Ok(())
        } else {
            self.besides_into(slot)
        }
    }

    /// Gives the punctuator at the cursor, which the character there spells alone.
    #[inline(always)]
    pub(super) fn give_alone(
        &mut self,
        slot: &mut Option<TokenAndSpan<'a>>,
        before: BytePos,
        gap: BlankGap,
        kind: PunctuatorKind,
    ) -> Result<(), AllocError>
        requires behind { IsBehindGap before self.old gap }
        requires spelled { IsSpelledBy gap.next kind }
        requires alone { StandsAlone (rest self.old.input) }
        ensures done { OnOk result (Gives (back_at before self.old) self.new slot.old slot.new true) }
        ensures refused { OnErr result (IsRefused (back_at before self.old) self.new slot.old slot.new) }
        ensures free { length self.old.state.contexts < 128 → IsOk result }
    {
        let plain = plain_alone(&mut self.input, gap, kind);
        self.give(slot, before, plain)
    }

    /// Gives the punctuator at the cursor, if there is one, and says whether it did.
    #[inline(always)]
    fn give_punctuator(
        &mut self,
        slot: &mut Option<TokenAndSpan<'a>>,
        before: BytePos,
        gap: BlankGap,
    ) -> Result<bool, AllocError>
        requires behind { IsBehindGap before self.old gap }
        requires opens { lookahead (mode_of (lexer_state self.old)) gap.line_break (rest self.old.input) ≡ opens.Other }
        ensures done { IfOk result (λ done. Gives (back_at before self.old) self.new slot.old slot.new done) }
        ensures refused { OnErr result (IsRefused (back_at before self.old) self.new slot.old slot.new) }
        ensures free { length self.old.state.contexts < 128 → IsOk result }
    {
        let mode = self.mode();
        match plain_punctuator(&mut self.input, &mode, gap.line_break) {
            Some(plain) => {
                self.give(slot, before, plain)?;
                Ok(true)
            }
            None => {
                self.go_before(before);
                Ok(false)
            }
        }
    }

    /// Gives the string at the cursor, where nothing is wrong with it and it holds no line terminator, and says whether it
    /// did.
    #[inline(always)]
    fn give_string(
        &mut self,
        slot: &mut Option<TokenAndSpan<'a>>,
        before: BytePos,
        gap: BlankGap,
    ) -> Result<bool, AllocError>
        requires behind { IsBehindGap before self.old gap }
        requires opens { lookahead (mode_of (lexer_state self.old)) gap.line_break (rest self.old.input) ≡ opens.String }
        ensures done { IfOk result (λ done. Gives (back_at before self.old) self.new slot.old slot.new done) }
        ensures refused { OnErr result (IsRefused (back_at before self.old) self.new slot.old slot.new) }
        ensures free { length self.old.state.contexts < 128 → is_free_read (lexer_state (back_at before self.old)) ≡ true → IsOk result }
    {
        match plain_string(self.alloc, &mut self.input, gap.line_break) {
            Ok(Some(token)) => {
                self.give(slot, before, with_kept(token))?;
                Ok(true)
            }
            Ok(None) => {
                self.go_before(before);
                Ok(false)
            }
            Err(refused) => {
                self.go_before(before);
                Err(refused)
            }
        }
    }

    /// Reads the string at the cursor, where it is more than `eaten_string` passes.
    // A call of its own, so that the room for what is scanned is kept there alone.
    #[inline(never)]
    fn scanned_string_into(
        &mut self,
        slot: &mut Option<TokenAndSpan<'a>>,
        before: BytePos,
        gap: BlankGap,
    ) -> Result<(), AllocError>
        requires behind { IsBehindGap before self.old gap }
        requires opens { lookahead (mode_of (lexer_state self.old)) gap.line_break (rest self.old.input) ≡ opens.String }
        ensures done { OnOk result (Gives (back_at before self.old) self.new slot.old slot.new true) }
        ensures refused { OnErr result (IsRefused (back_at before self.old) self.new slot.old slot.new) }
        ensures free { length self.old.state.contexts < 128 → is_free_read (lexer_state (back_at before self.old)) ≡ true → IsOk result }
    {
        if self.give_string(slot, before, gap)? {
            Ok(())
        } else {
            self.besides_into(slot)
        }
    }

    /// Reads the string at the cursor.
    #[inline(never)]
    pub(super) fn string_into(
        &mut self,
        slot: &mut Option<TokenAndSpan<'a>>,
        before: BytePos,
        gap: BlankGap,
    ) -> Result<(), AllocError>
        requires behind { IsBehindGap before self.old gap }
        requires opens { lookahead (mode_of (lexer_state self.old)) gap.line_break (rest self.old.input) ≡ opens.String }
        ensures done { OnOk result (Gives (back_at before self.old) self.new slot.old slot.new true) }
        ensures refused { OnErr result (IsRefused (back_at before self.old) self.new slot.old slot.new) }
        ensures free { length self.old.state.contexts < 128 → is_free_read (lexer_state (back_at before self.old)) ≡ true → IsOk result }
    {
        match eaten_string(&mut self.input, gap.line_break) {
            Some(plain) => self.give(slot, before, plain),
            None => self.scanned_string_into(slot, before, gap),
        }
    }

    /// Gives the number at the cursor, where nothing is wrong with it, and says whether it did.
    #[inline(always)]
    fn give_number(
        &mut self,
        slot: &mut Option<TokenAndSpan<'a>>,
        before: BytePos,
        gap: BlankGap,
    ) -> Result<bool, AllocError>
        requires behind { IsBehindGap before self.old gap }
        requires opens { lookahead (mode_of (lexer_state self.old)) gap.line_break (rest self.old.input) ≡ opens.Number }
        ensures done { IfOk result (λ done. Gives (back_at before self.old) self.new slot.old slot.new done) }
        ensures refused { OnErr result (IsRefused (back_at before self.old) self.new slot.old slot.new) }
        ensures free { length self.old.state.contexts < 128 → is_free_read (lexer_state (back_at before self.old)) ≡ true → IsOk result }
    {
        let mode = self.mode();
        match plain_number(self.alloc, &mut self.input, &mode, gap.line_break) {
            Ok(Some(token)) => {
                self.give(slot, before, with_kept(token))?;
                Ok(true)
            }
            Ok(None) => {
                self.go_before(before);
                Ok(false)
            }
            Err(refused) => {
                self.go_before(before);
                Err(refused)
            }
        }
    }

    /// Reads the number at the cursor, where it is more than `eaten_number` passes.
    // A call of its own, so that the room for what is scanned is kept there alone.
    #[inline(never)]
    fn scanned_number_into(
        &mut self,
        slot: &mut Option<TokenAndSpan<'a>>,
        before: BytePos,
        gap: BlankGap,
    ) -> Result<(), AllocError>
        requires behind { IsBehindGap before self.old gap }
        requires opens { lookahead (mode_of (lexer_state self.old)) gap.line_break (rest self.old.input) ≡ opens.Number }
        ensures done { OnOk result (Gives (back_at before self.old) self.new slot.old slot.new true) }
        ensures refused { OnErr result (IsRefused (back_at before self.old) self.new slot.old slot.new) }
        ensures free { length self.old.state.contexts < 128 → is_free_read (lexer_state (back_at before self.old)) ≡ true → IsOk result }
    {
        if self.give_number(slot, before, gap)? {
            Ok(())
        } else {
            self.besides_into(slot)
        }
    }

    /// Reads the number at the cursor.
    #[inline(never)]
    pub(super) fn number_into(
        &mut self,
        slot: &mut Option<TokenAndSpan<'a>>,
        before: BytePos,
        gap: BlankGap,
    ) -> Result<(), AllocError>
        requires behind { IsBehindGap before self.old gap }
        requires opens { lookahead (mode_of (lexer_state self.old)) gap.line_break (rest self.old.input) ≡ opens.Number }
        ensures done { OnOk result (Gives (back_at before self.old) self.new slot.old slot.new true) }
        ensures refused { OnErr result (IsRefused (back_at before self.old) self.new slot.old slot.new) }
        ensures free { length self.old.state.contexts < 128 → is_free_read (lexer_state (back_at before self.old)) ≡ true → IsOk result }
    {
        match eaten_number(&mut self.input, gap.line_break) {
            Some(plain) => self.give(slot, before, plain),
            None => self.scanned_number_into(slot, before, gap),
        }
    }

    /// Reads a name that begins past ASCII, and all else with what is found beside the token.
    #[inline(never)]
    pub(super) fn foreign_into(
        &mut self,
        slot: &mut Option<TokenAndSpan<'a>>,
    ) -> Result<(), AllocError>
        requires none { self.old.reread ≡ None }
        ensures done { OnOk result (Gives self.old self.new slot.old slot.new true) }
        ensures refused { OnErr result (IsRefused self.old self.new slot.old slot.new) }
        ensures free { length self.old.state.contexts < 128 → is_free_read (lexer_state self.old) ≡ true → IsOk result }
        ensures ended { rest self.old.input ≡ [] → IsOk result }
    {
        let before = self.input.cur_pos();
        let here = self.input.clone()?;
        let mode = self.mode();
        match plain_foreign(&mut self.input, &mode) {
            Some(plain) => self.give(slot, before, plain),
            None => {
                self.input = here;
                self.besides_into(slot)
            }
        }
    }

    /// Reads the punctuator at the cursor, or what no token begins with.
    #[inline(always)]
    pub(super) fn punctuator_into(
        &mut self,
        slot: &mut Option<TokenAndSpan<'a>>,
        before: BytePos,
        gap: BlankGap,
    ) -> Result<(), AllocError>
        requires behind { IsBehindGap before self.old gap }
        requires opens { lookahead (mode_of (lexer_state self.old)) gap.line_break (rest self.old.input) ≡ opens.Other }
        ensures done { OnOk result (Gives (back_at before self.old) self.new slot.old slot.new true) }
        ensures refused { OnErr result (IsRefused (back_at before self.old) self.new slot.old slot.new) }
        ensures free { length self.old.state.contexts < 128 → is_free_read (lexer_state (back_at before self.old)) ≡ true → IsOk result }
    {
        if self.give_punctuator(slot, before, gap)? {
            Ok(())
        } else {
            self.besides_into(slot)
        }
    }

    /// Goes back, and reads with all that is found beside the token.
    #[inline(always)]
    pub(super) fn rest_into(
        &mut self,
        slot: &mut Option<TokenAndSpan<'a>>,
        before: BytePos,
        gap: BlankGap,
    ) -> Result<(), AllocError>
        requires behind { IsBehindGap before self.old gap }
        ensures done { OnOk result (Gives (back_at before self.old) self.new slot.old slot.new true) }
        ensures refused { OnErr result (IsRefused (back_at before self.old) self.new slot.old slot.new) }
        ensures free { length self.old.state.contexts < 128 → is_free_read (lexer_state (back_at before self.old)) ≡ true → IsOk result }
    {
        self.go_before(before);
        self.besides_into(slot)
    }
}
