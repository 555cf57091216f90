//! One number for all results of a job.
use ecma_kinds::kind_number;
use ecma_place::{Span, Spanned};
use ecma_state::{BufferedComment, BufferedCommentKind, Kept};
use ecma_token::{Error, Token, TokenAndSpan};

/// A number that all results of a job went into, in order.
#[derive(Clone, Copy, Debug)]
pub struct Digest {
    state: u64,
}

impl Digest {
    pub fn new() -> Digest {
        Digest { state: 0 }
    }

    pub fn value(self) -> u64 {
        self.state
    }

    #[inline(always)]
    pub fn add(&mut self, number: u64) {
        self.state = (self.state.rotate_left(5) ^ number).wrapping_mul(0x9e37_79b9_7f4a_7c15);
    }

    pub fn add_bytes(&mut self, bytes: &[u8]) {
        self.add(bytes.len() as u64);
        let (words, rest) = bytes.as_chunks::<8>();
        for word in words {
            self.add(u64::from_le_bytes(*word));
        }
        for byte in rest {
            self.add(u64::from(*byte));
        }
    }

    #[inline(always)]
    pub fn add_span(&mut self, span: Span) {
        self.add((u64::from(span.hi.0) << 32) | u64::from(span.lo.0));
    }

    /// What a token means besides its kind; of a word its length.
    fn add_value(&mut self, token: &Token) {
        match token {
            Token::Word(word) => self.add(word.as_str().len() as u64),
            Token::Str { value, .. } => self.add_bytes(value.as_str().as_bytes()),
            Token::Num { digits, whole, .. } => {
                self.add_bytes(digits.as_str().as_bytes());
                self.add(u64::from(whole.is_some()));
            }
            Token::BigInt { digits, .. } => self.add_bytes(digits.as_str().as_bytes()),
            Token::Regex(body, flags) => {
                self.add_bytes(body.as_str().as_bytes());
                self.add_bytes(flags.as_str().as_bytes());
            }
            Token::Template {
                raw,
                cooked: Ok(cooked),
            } => {
                self.add_bytes(raw.as_str().as_bytes());
                self.add_bytes(cooked.as_str().as_bytes());
            }
            Token::Error(error) => self.add_span(error.span()),
            _ => {}
        }
    }

    pub fn add_token(&mut self, token: &TokenAndSpan) {
        self.add_span(token.span);
        self.add(
            u64::from(kind_number(token.token.kind())) | (u64::from(token.had_line_break) << 32),
        );
        self.add_value(&token.token);
    }

    pub fn add_kept(&mut self, kept: &[Kept]) {
        for token in kept {
            self.add_span(token.span);
            self.add(u64::from(kind_number(token.kind)) | (u64::from(token.flag) << 32));
        }
    }

    pub fn add_comments(&mut self, comments: &[BufferedComment]) {
        for buffered in comments {
            self.add_span(buffered.comment.span);
            self.add(u64::from(buffered.pos.0));
            self.add(buffered.comment.text.as_str().len() as u64);
            self.add(match buffered.kind {
                BufferedCommentKind::Leading => 1,
                BufferedCommentKind::Trailing => 2,
            });
        }
    }

    pub fn add_errors(&mut self, errors: &[Error]) {
        for error in errors {
            self.add_span(error.span());
        }
    }
}
