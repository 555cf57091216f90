//! The markup of a text, which is written a piece at a time.
ghost use Rattle.std.specs.Prelude.{◌≡◌, ◌++◌, ◌<◌, ◌^◌, false, true, [], length, IfOk, OnOk};
ghost use Rattle.std.specs.Str.{chars};
ghost use Rattle.ecma_classes.specs.Classes.{begin, classes_of, joined};
ghost use Rattle.ecma_pieces.specs.Covered.{MayBeCovered};
ghost use Rattle.ecma_styles.specs.Tokens as tokens;
ghost use Rattle.ecma_html.specs.Marked.{AreInOrder};
ghost use Rattle.ecma_html.specs.Parts as parts;
ghost use Rattle.ecma_html.specs.Parts.{Moves, left_html};

use crate::markup::{marked_style, push_close_tag, push_open_tag, push_styled};
use crate::page::{TAIL, push_front};
use ecma_classes::Cover;
use ecma_span::BytePos;
use ecma_state::Kept;
use ecma_state::comments_buffer::BufferedComment;
use ecma_styles::{Class, class_of_piece, taken_behind, token_classes};
use std::alloc::{AllocError, Global};
use std::marker::Model;

/// The pieces of a text that are not yet written, with what says how each is shown. It holds the class of each token and the
/// places of the comments, and no list of pieces.
#[derive(Drop)]
pub struct Markup<'t> {
    bytes: &'t [u8],
    cover: Cover<'t>,
    /// Those of the tokens that hold a byte.
    classes: Vec<Option<Class>>,
    /// How many of them were taken.
    taken: usize,
    /// Where errors begin.
    places: &'t [BytePos],
}

impl<'t> Model for Markup<'t> {
    ghost use Rattle.std.specs.Prelude.{drop, length};
    ghost use Rattle.ecma_html.specs.Parts.{Covers, MarkupLeft};

    ghost Value = { MarkupLeft };

    ghost view = { λ m. record { text = m.bytes.now; styles = drop m.taken m.classes.items; pieces = m.cover; places = m.places.now } };

    ghost invariant = { λ m. Covers m.cover (length m.bytes.now) };
}

impl<'t> Markup<'t> {
    /// All pieces of a text that starts at the place 0, by its tokens and comments, as
    /// [`html_with_errors`](crate::html_with_errors) shows them. The places are those where errors of the text begin, in
    /// order.
    ///
    /// The caller knows that pieces can cover the text with these tokens and comments.
    ///
    /// # Errors
    ///
    /// `AllocError` where allocation fails.
    pub fn new(
        alloc: Global,
        source: &'t str,
        kept: &'t [Kept],
        comments: &[BufferedComment],
        places: &'t [BytePos],
    ) -> Result<Markup<'t>, AllocError>
        requires fits { length source.now < 2 ^ 32 }
        requires covered { MayBeCovered (begin 0 (chars source.now)) kept.now comments.now }
        ensures text { IfOk result (λ m. m.text ≡ source.now) }
        ensures styles { IfOk result (λ m. m.styles ≡ tokens.token_classes kept.now) }
        ensures pieces { IfOk result (λ m. m.pieces ≡ classes_of 0 (length source.now) kept.now comments.now) }
        ensures whole { IfOk result (λ m. joined 0 source.now m.pieces ≡ source.now) }
        ensures places { IfOk result (λ m. m.places ≡ places.now) }
    {
        let cover = Cover::new(alloc, source, BytePos(0), kept, comments)?;
        Ok(Markup {
            bytes: source.as_bytes(),
            cover,
            classes: token_classes(alloc, kept)?,
            taken: 0,
            places,
        })
    }

    /// Adds the next piece, and says whether there was one.
    ///
    /// # Errors
    ///
    /// `AllocError` where allocation fails for the bytes, of which a part may then be there. The piece is taken all the
    /// same.
    #[inline(always)]
    pub fn push_next(&mut self, out: &mut Vec<u8>) -> Result<bool, AllocError>
        ensures added { AreInOrder self.old.places → OnOk result (Moves out.old.items out.new.items self.old self.new) }
        ensures shorter { IfOk result (λ more. more ≡ true → length self.new.pieces < length self.old.pieces) }
        ensures ended { IfOk result (λ more. more ≡ false → left_html self.old ≡ []) }
        ensures places { self.new.places ≡ self.old.places }
    {
        let Some(piece) = self.cover.next() else {
            return Ok(false);
        };
        let class = class_of_piece(piece.class, &self.classes, self.taken);
        let style = marked_style(self.places, piece.span, class);
        let own = &self.bytes[piece.span.lo.0 as usize..piece.span.hi.0 as usize];
        self.taken = taken_behind(piece.class, &self.classes, self.taken);
        push_styled(out, style, own)?;
        Ok(true)
    }
}

/// Adds what is before the pieces of a text: of a whole page with this title, or of the element alone.
///
/// # Errors
///
/// `AllocError` where allocation fails for the bytes, of which a part may then be there.
pub fn push_begin(
    out: &mut Vec<u8>,
    page: bool,
    title: &str,
    source: &str,
) -> Result<(), AllocError>
    ensures { OnOk result (out.new.items ≡ out.old.items ++ parts.begin_of page title.now source.now) }
{
    if page {
        push_front(out, title, source.as_bytes())?;
        push_open_tag(out)?;
        return Ok(());
    }
    push_open_tag(out)
}

/// Adds what is behind the pieces of a text: of a whole page, or of the element alone.
///
/// # Errors
///
/// `AllocError` where allocation fails for the bytes, of which a part may then be there.
pub fn push_end(out: &mut Vec<u8>, page: bool) -> Result<(), AllocError>
    ensures { OnOk result (out.new.items ≡ out.old.items ++ parts.end_of page) }
{
    push_close_tag(out)?;
    if page {
        out.extend_from_slice(TAIL.as_bytes())?;
    }
    Ok(())
}
