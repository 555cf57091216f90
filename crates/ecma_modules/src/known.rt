//! What is known of a text behind some of its tokens.
ghost use Rattle.std.specs.Prelude.{◌≡◌, IfSome};
ghost use Rattle.ecma_modules.specs.Known as specs;
ghost use Rattle.ecma_module_table.specs.Parts as parts;

use crate::calls::{At, Call};
use crate::region::{ModuleToken, part_in};
use crate::statement::Statement;
use ecma_module_table::part::{Part, Word, more};
use ecma_module_table::rows::{Export, Form, Import, ImportTold, ModuleOptions, Told};
use ecma_module_table::stage::{Change, Move, Seen, Stage};
use ecma_module_table::table::{begun, row};
use ecma_module_table::variables::{VariableSeen, Variables};
use ecma_span::{BytePos, Span};
use ecma_state::Kept;
use ecma_token::TokenKind;

/// What is known of a text, but for the calls that are open.
#[derive(Clone, Copy, Debug, PartialEq, Eq)]
pub(crate) struct Known {
    stage: Stage,
    statement: Statement,
    variables: Variables,
    /// How many brackets are open.
    depth: usize,
    /// How many tokens were taken.
    tokens: usize,
    /// How many rows of imports were told.
    imports: usize,
    /// How many rows of exports were told.
    exports: usize,
    /// The last token.
    last: Span,
    /// Its kind, where there is one.
    before: Option<TokenKind>,
    pub is_facade: bool,
    pub has_module_syntax: bool,
    options: ModuleOptions,
}

/// Whether a token of this kind ends an operand.
fn ends_operand(kind: TokenKind) -> bool
    ensures { result ≡ parts.ends_operand kind }
{
    match kind {
        TokenKind::PlusPlus | TokenKind::MinusMinus => true,
        _ => !kind.before_expr(),
    }
}

/// Whether the token before, if there is one, ends an operand.
fn is_behind_operand(before: Option<TokenKind>) -> bool
    ensures { result ≡ specs.is_behind_operand before }
{
    match before {
        Some(kind) => ends_operand(kind),
        None => false,
    }
}

/// Whether a change is of something other than imports and exports.
fn is_other(change: Change) -> bool
    ensures { result ≡ specs.is_other change }
{
    matches!(
        change,
        Change::Other
            | Change::BeginOther
            | Change::Meta
            | Change::Call
            | Change::TellDeclared
            | Change::TellType
            | Change::TellDefault
            | Change::TellDefaultName
            | Change::TellDefaultType
            | Change::Variables
    )
}

/// Whether a change is of what only a module has.
fn is_module_syntax(change: Change) -> bool
    ensures { result ≡ specs.is_module_syntax change }
{
    matches!(
        change,
        Change::BeginExport
            | Change::Meta
            | Change::Specify(Form::Static | Form::Reexport | Form::Equals)
    )
}

/// Whether a change makes one row of imports more.
fn adds_import(change: Change) -> bool
    ensures { result ≡ specs.adds_import change }
{
    matches!(
        change,
        Change::Complete
            | Change::CompleteAttributes
            | Change::CompleteHere
            | Change::CompleteText
            | Change::Meta
            | Change::Call
    )
}

/// Whether a change makes one row of exports more.
fn adds_export(change: Change) -> bool
    ensures { result ≡ specs.adds_export change }
{
    matches!(
        change,
        Change::TellName
            | Change::TellAs
            | Change::TellLast
            | Change::TellAlias
            | Change::TellAliasAs
            | Change::TellAlone
            | Change::TellDeclared
            | Change::TellType
            | Change::TellDefault
            | Change::TellDefaultName
            | Change::TellDefaultType
    )
}

/// The stage behind a token that begins nothing that is looked for, where nothing is read.
#[inline]
fn quiet_stage(stage: Stage, part: Part) -> Option<Stage>
    ensures { result ≡ specs.quiet_stage stage part }
{
    match (stage, part) {
        (
            Stage::Nothing,
            Part::Word(
                Word::Import | Word::ImportType | Word::Export | Word::Declare | Word::Require,
            ),
        ) => None,
        (Stage::Nothing, Part::Member) => Some(Stage::Member),
        (Stage::Member, Part::Member) => None,
        (Stage::Nothing | Stage::Member, _) => Some(Stage::Nothing),
        _ => None,
    }
}

impl Known {
    pub(crate) fn none(options: ModuleOptions) -> Known
        ensures { result ≡ specs.nothing_known options }
    {
        let nowhere = Span {
            lo: BytePos(0),
            hi: BytePos(0),
        };
        Known {
            stage: Stage::Nothing,
            statement: Statement::begun(nowhere, false, 0),
            variables: Variables::off(),
            depth: 0,
            tokens: 0,
            imports: 0,
            exports: 0,
            last: nowhere,
            before: None,
            is_facade: true,
            has_module_syntax: false,
            options,
        }
    }

    /// The token as it is seen behind those that were taken.
    #[inline]
    pub(crate) fn at(self, token: ModuleToken) -> At
        ensures { result ≡ specs.at_of self token }
    {
        At {
            part: part_in(token, self.before),
            index: self.tokens,
            span: token.kept.span,
            depth: self.depth,
        }
    }

    /// The statement behind a change.
    fn statement_behind(self, change: Change, at: At) -> Statement
        ensures { result ≡ specs.statement_behind change at self.exports self.statement }
    {
        let statement = self.statement;
        match change {
            Change::Begin | Change::BeginExport | Change::BeginOther => Statement::begun(
                at.span,
                false,
                self.exports,
            ),
            Change::BeginType => Statement::begun(at.span, true, self.exports),
            Change::TypeOnly => Statement {
                is_type: true,
                ..statement
            },
            Change::Phase(phase) => Statement { phase, ..statement },
            Change::Specify(form) => statement.specified(form, at),
            Change::CompleteText => statement.specified(Form::Ambient, at),
            Change::Attributes => Statement {
                attributes: at.span.lo,
                ..statement
            },
            Change::Name => Statement {
                name: at.span,
                is_type_name: false,
                ..statement
            },
            Change::TypeName => Statement {
                name: at.span,
                is_type_name: true,
                ..statement
            },
            Change::Alias => Statement {
                alias: at.span,
                ..statement
            },
            _ => statement,
        }
    }

    /// The variables behind a change.
    fn variables_behind(self, change: Change) -> Variables
        ensures { result ≡ specs.variables_behind change self.variables }
    {
        match change {
            Change::Variables => Variables::begun(),
            Change::BeginExport => Variables::off(),
            _ => self.variables,
        }
    }

    /// Behind a change, at a stage.
    fn changed(self, stage: Stage, change: Change, at: At) -> Known
        ensures { result ≡ specs.changed stage change at self }
    {
        Known {
            stage,
            statement: self.statement_behind(change, at),
            variables: self.variables_behind(change),
            is_facade: self.is_facade && !is_other(change),
            has_module_syntax: self.has_module_syntax || is_module_syntax(change),
            ..self
        }
    }

    /// The import that a change tells.
    fn import_told(self, change: Change, at: At) -> Option<Import>
        ensures { result ≡ specs.import_told change at self.exports self.statement }
    {
        let statement = self.statement;
        match change {
            Change::Complete => Some(statement.import(statement.string_end(), self.exports)),
            Change::CompleteAttributes => Some(statement.import_with(at.span.hi, self.exports)),
            Change::CompleteHere => Some(statement.import(at.span.hi, self.exports)),
            Change::CompleteText => Some(
                statement
                    .specified(Form::Ambient, at)
                    .import(at.span.hi, self.exports),
            ),
            Change::Meta => Some(statement.meta(at.span.hi)),
            _ => None,
        }
    }

    /// The export that a change tells.
    fn export_told(self, change: Change, at: At) -> Option<Export>
        ensures { result ≡ specs.export_told change at.span self.last self.statement }
    {
        let statement = self.statement;
        match change {
            Change::TellName => Some(statement.export(statement.name, Some(statement.name))),
            Change::TellAs => Some(statement.export(at.span, Some(statement.name))),
            Change::TellLast => Some(statement.export(self.last, Some(statement.name))),
            Change::TellAlias => Some(Statement::export_type(statement.alias, statement.alias)),
            Change::TellAliasAs => Some(Statement::export_type(at.span, statement.alias)),
            Change::TellAlone => Some(statement.export(at.span, None)),
            Change::TellDeclared => Some(statement.export(at.span, Some(at.span))),
            Change::TellType => Some(Statement::export_type(at.span, at.span)),
            Change::TellDefault => Some(statement.export(statement.name, None)),
            Change::TellDefaultName => Some(statement.export(statement.name, Some(at.span))),
            Change::TellDefaultType => Some(Statement::export_type(statement.name, at.span)),
            _ => None,
        }
    }

    /// Behind a token that may begin something.
    fn begun_with(self, seen: Seen, at: At) -> Known
        ensures { result ≡ specs.begun_with seen at self }
    {
        let (stage, change) = begun(seen, at.part);
        self.changed(stage, change, at)
    }

    /// Behind the variables that a token tells.
    fn behind_variables(self, had_line_break: bool, at: At) -> (Known, Option<Export>)
        ensures { result ≡ specs.behind_variables had_line_break at self }
    {
        let seen = VariableSeen {
            depth: self.depth,
            had_line_break,
            is_behind_operand: is_behind_operand(self.before),
            typescript: self.options.typescript,
        };
        let (variables, name) = self.variables.step(seen, at.part, at.span);
        let behind = Known { variables, ..self };
        match name {
            Some(name) => (
                Known {
                    exports: more(self.exports),
                    ..behind
                },
                Some(Export {
                    name,
                    local: Some(name),
                    is_type: false,
                }),
            ),
            None => (behind, None),
        }
    }

    /// What a row says of a token: the change, and what is known behind it.
    fn moved(self, had_line_break: bool, at: At) -> (Known, Change)
        ensures { result ≡ specs.moved had_line_break at self }
    {
        let seen = Seen {
            depth: self.depth,
            had_line_break,
            commonjs: self.options.commonjs,
        };
        match row(self.stage, seen, at.part) {
            Move::To(stage, change) => (self.changed(stage, change, at), change),
            Move::Again(change) => (
                self.changed(Stage::Nothing, change, at)
                    .begun_with(seen, at),
                change,
            ),
        }
    }

    /// The stage behind a token that tells nothing and changes nothing else, where that is known at once: most tokens, once
    /// there is something other than imports and exports.
    #[inline]
    pub(crate) fn passed(&self, part: Part) -> Option<Stage>
        ensures { IfSome result (λ stage. specs.Passes stage part self.now) }
    {
        if self.is_facade || !self.variables.is_off() {
            return None;
        }
        quiet_stage(self.stage, part)
    }

    /// Passes a token that leads to a stage and changes nothing else.
    #[inline]
    pub(crate) fn pass(&mut self, stage: Stage, token: &Kept, at: At)
        ensures { self.new ≡ specs.behind token.now at (specs.with_stage stage self.old) }
    {
        self.stage = stage;
        self.depth = at.part.depth_behind(self.depth);
        self.tokens = more(self.tokens);
        self.last = token.span;
        self.before = Some(token.kind);
    }

    /// Behind a token, but for what it is to the next one; and what it tells, but for calls.
    #[tactic(auto, unfolding(crate::specs::Known::stepped))]
    pub(crate) fn step(self, had_line_break: bool, at: At) -> (Known, Told)
        ensures { result ≡ specs.stepped had_line_break at self }
    {
        let (known, variable) = self.behind_variables(had_line_break, at);
        let (behind, change) = known.moved(had_line_break, at);
        let import = known.import_told(change, at);
        let export = known.export_told(change, at);
        let told = Told {
            import: import.map(ImportTold::Row),
            export: export.or(variable),
        };
        (behind.counted(change), told)
    }

    /// With the rows that a change tells counted, but for a variable's.
    fn counted(self, change: Change) -> Known
        ensures { result ≡ specs.counted change self }
    {
        Known {
            imports: if adds_import(change) {
                more(self.imports)
            } else {
                self.imports
            },
            exports: if adds_export(change) {
                more(self.exports)
            } else {
                self.exports
            },
            ..self
        }
    }

    /// With what the token is to the next one.
    pub(crate) fn behind(self, token: Kept, at: At) -> Known
        ensures { result ≡ specs.behind token at self }
    {
        Known {
            depth: at.part.depth_behind(self.depth),
            tokens: more(self.tokens),
            last: token.span,
            before: Some(token.kind),
            ..self
        }
    }

    /// The call that begins with a parenthesis.
    pub(crate) fn call(self, at: At) -> Call
        ensures { result ≡ specs.call_of self at }
    {
        Call::begun(
            self.imports,
            self.statement.lo,
            self.statement.phase,
            self.statement.is_type,
            self.exports,
            at,
        )
    }

    /// The end of the text, as if a semicolon on a line of its own came behind the last token.
    pub(crate) fn end(self) -> At
        ensures { result ≡ specs.end_of self }
    {
        At {
            part: Part::Semi,
            index: self.tokens,
            span: Span {
                lo: self.last.hi,
                hi: self.last.hi,
            },
            depth: self.depth,
        }
    }

    /// The last token, as one of an argument that the text does not end.
    pub(crate) fn last_at(self) -> At
        ensures { result ≡ specs.last_of self }
    {
        At {
            part: Part::Other,
            index: self.tokens,
            span: self.last,
            depth: self.depth,
        }
    }

    /// Whether a call begins with the token.
    pub(crate) fn opens(self, at: At) -> bool
        ensures { result ≡ specs.opens self at }
    {
        match self.stage {
            Stage::Import | Stage::Inside | Stage::PhaseCall => matches!(at.part, Part::Paren),
            _ => false,
        }
    }
}
