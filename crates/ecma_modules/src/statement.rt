//! What is known of the statement that is read.
ghost use Rattle.std.specs.Prelude.{◌≡◌, None};
ghost use Rattle.ecma_modules.specs.Statements as statements;

use crate::calls::At;
use ecma_module_table::rows::{Export, Form, Import, Phase, Specifier};
use ecma_span::{BytePos, Span};

/// What is known of the import or export that is read.
#[derive(Clone, Copy, Debug, PartialEq, Eq)]
pub(crate) struct Statement {
    pub lo: BytePos,
    pub form: Form,
    pub phase: Phase,
    pub is_type: bool,
    pub specifier: Option<Specifier>,
    /// Where the braces of its attributes begin.
    pub attributes: BytePos,
    /// The last name of this module, or `default`.
    pub name: Span,
    /// Whether that is the name of a type.
    pub is_type_name: bool,
    /// The `as` of `type as`.
    pub alias: Span,
    /// How many rows of exports come before it.
    pub exports: usize,
}

impl Statement {
    /// A statement that begins there, of types alone or not.
    pub(crate) fn begun(span: Span, is_type: bool, exports: usize) -> Statement
        ensures { result ≡ statements.statement_begun span is_type exports }
    {
        Statement {
            lo: span.lo,
            form: Form::Static,
            phase: Phase::Evaluation,
            is_type,
            specifier: None,
            attributes: span.lo,
            name: span,
            is_type_name: false,
            alias: span,
            exports,
        }
    }

    /// With the string that stands here.
    pub(crate) fn specified(self, form: Form, at: At) -> Statement
        ensures { result ≡ statements.specified form at self }
    {
        Statement {
            form,
            specifier: Some(Specifier {
                index: at.index,
                span: at.span,
            }),
            ..self
        }
    }

    /// Its row, where this place is behind it.
    fn row(self, form: Form, hi: BytePos, exports: usize) -> Import
        ensures { result ≡ statements.row form hi exports None self }
    {
        Import {
            form,
            phase: self.phase,
            is_type: self.is_type,
            statement: Span { lo: self.lo, hi },
            specifier: self.specifier,
            argument: None,
            attributes: None,
            first_export: self.exports,
            exports,
        }
    }

    /// The row of an import that ends with a place, by how many rows of exports there are.
    pub(crate) fn import(self, hi: BytePos, exports: usize) -> Import
        ensures { result ≡ statements.import_of hi exports self }
    {
        match self.form {
            Form::Reexport => self.row(self.form, hi, exports.saturating_sub(self.exports)),
            _ => self.row(self.form, hi, 0),
        }
    }

    /// The same, with attributes up to the place.
    pub(crate) fn import_with(self, hi: BytePos, exports: usize) -> Import
        ensures { result ≡ statements.import_with hi exports self }
    {
        Import {
            attributes: Some(Span {
                lo: self.attributes,
                hi,
            }),
            ..self.import(hi, exports)
        }
    }

    /// The row of `import.meta`.
    pub(crate) fn meta(self, hi: BytePos) -> Import
        ensures { result ≡ statements.meta_of hi self }
    {
        self.row(Form::Meta, hi, 0)
    }

    /// Where its string ends.
    pub(crate) fn string_end(self) -> BytePos
        ensures { result ≡ statements.string_end self }
    {
        match self.specifier {
            Some(specifier) => specifier.span.hi,
            None => self.lo,
        }
    }

    /// The row of a name that is exported.
    pub(crate) fn export(self, name: Span, local: Option<Span>) -> Export
        ensures { result ≡ statements.export_of name local self }
    {
        Export {
            name,
            local,
            is_type: self.is_type || self.is_type_name,
        }
    }

    /// The same, of a type.
    pub(crate) fn export_type(name: Span, local: Span) -> Export
        ensures { result ≡ statements.export_type_of name local }
    {
        Export {
            name,
            local: Some(local),
            is_type: true,
        }
    }
}
