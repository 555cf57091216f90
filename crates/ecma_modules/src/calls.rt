//! Calls of `import` whose parentheses are open.
ghost use Rattle.std.specs.Prelude.{◌≡◌, ◌∷◌, [], drop, length, IsOk, OnErr, OnOk};
ghost use Rattle.ecma_modules.specs.Calls as specs;

use ecma_module_table::part::{Part, more};
use ecma_module_table::rows::{Argument, Form, Import, ImportTold, Phase, Specifier};
use ecma_span::{BytePos, Span};
use std::alloc::{AllocError, Global};
use std::marker::Model;

/// Where a call is.
#[derive(Clone, Copy, Debug, PartialEq, Eq)]
pub(crate) enum CallStage {
    /// Behind the left parenthesis.
    Paren,
    /// In the first argument.
    First,
    /// Behind the first comma.
    Comma,
    /// In the second argument.
    Second,
    /// Behind the second comma.
    Rest,
}

/// A call whose parentheses are open.
#[derive(Clone, Copy, Debug, PartialEq, Eq)]
pub(crate) struct Call {
    /// How many rows of imports come before its own.
    pub number: usize,
    /// How many brackets were open before its parentheses.
    pub depth: usize,
    pub stage: CallStage,
    pub phase: Phase,
    /// Whether it is a type.
    pub is_type: bool,
    /// How many rows of exports come before it.
    pub exports: usize,
    /// From its first token to the last that was seen.
    pub statement: Span,
    pub paren: BytePos,
    /// The first argument so far.
    pub argument: Span,
    /// The string, where the first argument is one so far.
    pub specifier: Option<Specifier>,
    /// The second argument so far.
    pub attributes: Option<Span>,
}

/// A token, as it is seen in a text.
#[derive(Clone, Copy, Debug, PartialEq, Eq)]
pub(crate) struct At {
    pub part: Part,
    /// How many tokens come before it.
    pub index: usize,
    pub span: Span,
    /// How many brackets are open before it.
    pub depth: usize,
}

/// The string, where it is one.
fn specifier_at(at: At) -> Option<Specifier>
    ensures { result ≡ specs.specifier_of at at.part }
{
    match at.part {
        Part::Text => Some(Specifier {
            index: at.index,
            span: at.span,
        }),
        _ => None,
    }
}

/// From the beginning of a span, or else of the token, to the end of the token.
fn up_to(span: Option<Span>, at: At) -> Span
    ensures { result ≡ specs.up_to span at.span }
{
    match span {
        Some(span) => Span {
            lo: span.lo,
            hi: at.span.hi,
        },
        None => at.span,
    }
}

impl Call {
    /// A call whose parentheses begin here.
    pub(crate) fn begun(
        number: usize,
        statement: BytePos,
        phase: Phase,
        is_type: bool,
        exports: usize,
        at: At,
    ) -> Call
        ensures { result ≡ specs.begun number statement phase is_type exports at }
    {
        Call {
            number,
            depth: at.depth,
            stage: CallStage::Paren,
            phase,
            is_type,
            exports,
            statement: Span {
                lo: statement,
                hi: at.span.hi,
            },
            paren: at.span.lo,
            argument: Span {
                lo: at.span.hi,
                hi: at.span.hi,
            },
            specifier: None,
            attributes: None,
        }
    }

    /// Behind a comma between arguments.
    fn behind_comma(self, at: At) -> Call
        ensures { result ≡ specs.behind_comma at self }
    {
        let stage = match self.stage {
            CallStage::Paren | CallStage::First => CallStage::Comma,
            CallStage::Comma | CallStage::Second | CallStage::Rest => CallStage::Rest,
        };
        Call {
            stage,
            statement: up_to(Some(self.statement), at),
            ..self
        }
    }

    /// Behind a token of an argument.
    fn behind_part(self, at: At) -> Call
        ensures { result ≡ specs.behind_part at self }
    {
        let seen = Call {
            statement: up_to(Some(self.statement), at),
            ..self
        };
        match self.stage {
            CallStage::Paren => Call {
                stage: CallStage::First,
                argument: at.span,
                specifier: specifier_at(at),
                ..seen
            },
            CallStage::First => Call {
                argument: up_to(Some(self.argument), at),
                specifier: None,
                ..seen
            },
            CallStage::Comma | CallStage::Second => Call {
                stage: CallStage::Second,
                attributes: Some(up_to(self.attributes, at)),
                ..seen
            },
            CallStage::Rest => seen,
        }
    }

    /// Whether the token stands no deeper than its arguments.
    fn is_among(self, at: At) -> bool
        ensures { result ≡ specs.is_among self at }
    {
        at.depth <= more(self.depth)
    }

    /// Whether the token closes its parentheses.
    pub(crate) fn ends_with(self, at: At) -> bool
        ensures { result ≡ specs.ends_with at self }
    {
        at.part.closes() && self.is_among(at)
    }

    /// Behind one token more, which doesn't close its parentheses.
    pub(crate) fn step(self, at: At) -> Call
        ensures { result ≡ specs.stepped at self }
    {
        match at.part {
            Part::Comma if self.is_among(at) => self.behind_comma(at),
            _ => self.behind_part(at),
        }
    }

    /// Its row, where this place is behind it.
    pub(crate) fn row(self, hi: BytePos) -> Import
        ensures { result ≡ specs.row hi self }
    {
        Import {
            form: Form::Call,
            phase: self.phase,
            is_type: self.is_type,
            statement: Span {
                lo: self.statement.lo,
                hi,
            },
            specifier: self.specifier,
            argument: Some(Argument {
                paren: self.paren,
                span: self.argument,
            }),
            attributes: self.attributes,
            first_export: self.exports,
            exports: 0,
        }
    }

    /// That it has ended, where this place is behind it.
    fn told(self, hi: BytePos) -> ImportTold
        ensures { result ≡ specs.ended hi self }
    {
        ImportTold::Ended(self.number, self.row(hi))
    }
}

/// Calls that are open, of which contracts see the innermost first.
#[derive(Drop)]
pub(crate) struct Calls {
    // Only a call inside another allocates.
    innermost: Option<Call>,
    // Those around it, the outermost first.
    around: Vec<Call>,
}

impl Model for Calls {
    ghost use Rattle.std.specs.Prelude.{◌≡◌, [], List, None, reverse};
    ghost use Rattle.ecma_modules.specs.declared.calls.Call.{Call};
    ghost use Rattle.ecma_modules.specs.Calls.{nested};

    ghost Value = { List Call };

    ghost view = { λ calls. nested calls.innermost (reverse calls.around.items) };

    ghost invariant = { λ calls. calls.innermost ≡ None → calls.around.items ≡ [] };
}

impl Calls {
    /// None, which does not allocate.
    pub(crate) fn new(alloc: Global) -> Calls
        ensures { result ≡ [] }
    {
        Calls {
            innermost: None,
            around: Vec::new(alloc),
        }
    }

    /// How many there are.
    pub(crate) fn count(&self) -> usize
        ensures { result ≡ length self.now }
    {
        match self.innermost {
            Some(_) => self.around.len() + 1,
            None => 0,
        }
    }

    /// One more. It does not allocate where there is none.
    ///
    /// # Errors
    ///
    /// `AllocError` where it can't be allocated. Nothing is then changed.
    pub(crate) fn push(&mut self, call: Call) -> Result<(), AllocError>
        ensures ok { OnOk result (self.new ≡ call ∷ self.old) }
        ensures err { OnErr result (self.new ≡ self.old) }
        ensures free { self.old ≡ [] → IsOk result }
    {
        if let Some(around) = self.innermost {
            self.around.push(around)?;
        }
        self.innermost = Some(call);
        Ok(())
    }

    /// The innermost goes on with a token.
    fn pass(&mut self, at: At)
        ensures { self.new ≡ specs.passed at self.old }
    {
        if let Some(call) = self.innermost {
            self.innermost = Some(call.step(at));
        }
    }

    /// The innermost goes.
    fn pop(&mut self)
        ensures { self.new ≡ drop 1 self.old }
    {
        self.innermost = self.around.pop();
    }

    /// Behind a token, which ends the innermost or goes on with it; tells the row of one that ends.
    pub(crate) fn step(&mut self, at: At) -> Option<ImportTold>
        ensures calls { self.new ≡ specs.calls_behind at self.old }
        ensures told { result ≡ specs.calls_told at self.old }
    {
        match self.innermost {
            Some(call) if call.ends_with(at) => {
                self.pop();
                self.pass(at);
                Some(call.told(at.span.hi))
            }
            _ => {
                self.pass(at);
                None
            }
        }
    }

    /// At the end of a text, by its last token: the innermost ends, and the one around it goes on.
    pub(crate) fn end(&mut self, at: At) -> Option<ImportTold>
        ensures calls { self.new ≡ specs.calls_ended at self.old }
        ensures told { result ≡ specs.told_at_end at self.old }
    {
        match self.innermost {
            Some(call) => {
                self.pop();
                self.pass(at);
                Some(call.told(at.span.hi))
            }
            None => None,
        }
    }
}
