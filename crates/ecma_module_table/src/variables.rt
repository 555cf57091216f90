//! The names that an exported declaration of variables declares.
ghost use Rattle.std.specs.Prelude.{◌≡◌};
ghost use Rattle.ecma_module_table.specs.Variables as specs;

use crate::part::{Part, Word, more};
use ecma_span::{BytePos, Span};

/// What the tokens before say of a declaration of variables.
#[derive(Clone, Copy, Debug, PartialEq, Eq)]
pub enum VariableStage {
    /// There is none.
    Off,
    /// A name or a pattern comes.
    Binding,
    /// Behind `const enum` of TypeScript.
    Enum,
    /// Behind a name.
    Named,
    /// In the type of a name or pattern.
    Annotation,
    /// In the type parameters of an arrow function.
    Parameters,
    /// In what is assigned, or behind what is no name after all.
    Initializer,
    /// In brackets, where an element comes.
    Element,
    /// In braces, where a property comes.
    Property,
    /// Behind a name there.
    Key,
    /// In the brackets of a key that is computed.
    Computed,
    /// Behind another key.
    KeyEnd,
    /// Behind the colon of a property, or `...`.
    Value,
    /// Behind a name in a pattern that is declared.
    Target,
    /// Behind a pattern.
    PatternEnd,
}

/// What a token changes.
#[derive(Clone, Copy, Debug, PartialEq, Eq)]
pub enum VariableChange {
    Nothing,
    /// The name that stands here may be declared.
    Name,
    /// The last name is.
    Tell,
    /// The name that stands here is declared.
    TellHere,
    /// A pattern begins, in braces or not.
    Open(bool),
    /// A pattern ends.
    Close,
    /// The last name is declared, with which a pattern ends.
    TellClose,
    /// What is assigned begins at this depth, or the expression of a key.
    Enter,
    /// The last name is declared, and what is assigned to it begins at this depth.
    TellEnter,
    /// `<` in a type, or as an operator.
    Less,
    /// So many of `>`.
    Greater(usize),
}

use VariableChange as Change;
use VariableStage as Stage;

/// What is seen beside a token.
#[derive(Clone, Copy, Debug, PartialEq, Eq)]
pub struct VariableSeen {
    /// How many brackets are open before the token.
    pub depth: usize,
    /// Whether a line terminator comes before the token.
    pub had_line_break: bool,
    /// Whether the token before ends an operand.
    pub is_behind_operand: bool,
    /// Whether `<` may enclose types.
    pub typescript: bool,
}

/// A declaration of variables.
#[derive(Clone, Copy, Debug, PartialEq, Eq)]
pub struct Variables {
    stage: Stage,
    /// The last name.
    name: Span,
    /// How many of `<` are open that may enclose types.
    angles: usize,
    /// How many brackets were open where what is assigned, or a computed key, began.
    level: usize,
    /// Which of the patterns that are open are in braces: a bit each, the innermost last.
    braces: u64,
}

/// What follows in the innermost pattern, or outside of all.
fn next_in(depth: usize, braces: u64) -> Stage
    ensures { result ≡ specs.next_in depth braces }
{
    if depth == 0 {
        Stage::Binding
    } else if braces % 2 == 1 {
        Stage::Property
    } else {
        Stage::Element
    }
}

/// Whether a statement begins with the token, no semicolon before it (ECMA-262, 12.10).
fn begins_statement(seen: VariableSeen, part: Part) -> bool
    ensures { result ≡ specs.begins_statement seen part }
{
    match part {
        Part::Word(Word::Operator) => false,
        Part::Word(_) => seen.had_line_break && seen.is_behind_operand,
        _ => false,
    }
}

/// A stage and a change.
type Row = (Stage, Change);

/// Where a pattern comes, and nothing else can.
fn pattern(part: Part) -> Row
    ensures { result ≡ specs.pattern part }
{
    match part {
        Part::Brace => (Stage::Property, Change::Open(true)),
        Part::Bracket => (Stage::Element, Change::Open(false)),
        _ => (Stage::Off, Change::Nothing),
    }
}

/// Where a name or a pattern comes; among arguments that are types, whatever stands there.
fn binding(angles: usize, part: Part) -> Row
    ensures { result ≡ specs.binding angles part }
{
    match part {
        Part::Word(Word::Enum) => (Stage::Enum, Change::Nothing),
        Part::Word(_) => (Stage::Named, Change::Name),
        Part::Greater(count) => (Stage::Initializer, Change::Greater(count)),
        _ => if angles == 0 {
            pattern(part)
        } else {
            (Stage::Initializer, Change::Nothing)
        },
    }
}

fn behind_enum(part: Part) -> Row
    ensures { result ≡ specs.behind_enum part }
{
    match part {
        Part::Word(_) => (Stage::Off, Change::TellHere),
        _ => (Stage::Off, Change::Nothing),
    }
}

/// Behind a comma that comes behind a name: among arguments that are types the name is none that is declared.
fn comma_behind_name(angles: usize) -> Row
    ensures { result ≡ specs.comma_behind_name angles }
{
    if angles == 0 {
        (Stage::Binding, Change::Tell)
    } else {
        (Stage::Binding, Change::Nothing)
    }
}

/// Behind a name that what follows doesn't belong to.
fn name_ends(had_line_break: bool) -> Row
    ensures { result ≡ specs.name_ends had_line_break }
{
    if had_line_break {
        (Stage::Off, Change::Tell)
    } else {
        (Stage::Initializer, Change::Nothing)
    }
}

/// Behind a name, which is declared where only this can stand there.
fn named(had_line_break: bool, angles: usize, part: Part) -> Row
    ensures { result ≡ specs.named had_line_break angles part }
{
    match part {
        Part::Equals => (Stage::Initializer, Change::TellEnter),
        Part::Colon => (Stage::Annotation, Change::Tell),
        Part::Comma => comma_behind_name(angles),
        Part::Semi => (Stage::Off, Change::Tell),
        Part::Bang => (Stage::Named, Change::Nothing),
        Part::Less => (Stage::Initializer, Change::Less),
        Part::Greater(count) => (Stage::Initializer, Change::Greater(count)),
        _ => name_ends(had_line_break),
    }
}

/// In a type, outside of its brackets.
fn behind_type(seen: VariableSeen, part: Part) -> Row
    ensures { result ≡ specs.behind_type seen part }
{
    match part {
        Part::Equals => (Stage::Initializer, Change::Enter),
        Part::Comma => (Stage::Binding, Change::Nothing),
        Part::Semi => (Stage::Off, Change::Nothing),
        _ => if begins_statement(seen, part) {
            (Stage::Off, Change::Nothing)
        } else {
            (Stage::Annotation, Change::Nothing)
        },
    }
}

fn annotation(seen: VariableSeen, angles: usize, part: Part) -> Row
    ensures { result ≡ specs.annotation seen angles part }
{
    if seen.depth > 0 {
        return (Stage::Annotation, Change::Nothing);
    }
    match part {
        Part::Less => (Stage::Annotation, Change::Less),
        Part::Greater(count) => (Stage::Annotation, Change::Greater(count)),
        _ => if angles == 0 {
            behind_type(seen, part)
        } else {
            (Stage::Annotation, Change::Nothing)
        },
    }
}

/// Behind so many of `>` among type parameters.
fn greater_in_parameters(angles: usize, count: usize) -> Row
    ensures { result ≡ specs.greater_in_parameters angles count }
{
    if count < angles {
        (Stage::Parameters, Change::Greater(count))
    } else {
        (Stage::Initializer, Change::Greater(count))
    }
}

fn parameters(is_inside: bool, angles: usize, part: Part) -> Row
    ensures { result ≡ specs.parameters is_inside angles part }
{
    if is_inside {
        return (Stage::Parameters, Change::Nothing);
    }
    match part {
        Part::Less => (Stage::Parameters, Change::Less),
        Part::Greater(count) => greater_in_parameters(angles, count),
        Part::Semi => (Stage::Off, Change::Nothing),
        _ => (Stage::Parameters, Change::Nothing),
    }
}

/// `<` in what is assigned: in TypeScript an operator, or the begin of arguments that are types or of an arrow function's
/// parameters.
fn less(seen: VariableSeen) -> Row
    ensures { result ≡ specs.less seen }
{
    if !seen.typescript {
        (Stage::Initializer, Change::Nothing)
    } else if seen.is_behind_operand {
        (Stage::Initializer, Change::Less)
    } else {
        (Stage::Parameters, Change::Less)
    }
}

/// A bracket that closes what encloses what is assigned.
fn closing(depth: usize) -> Row
    ensures { result ≡ specs.closing depth }
{
    if depth == 0 {
        (Stage::Initializer, Change::Nothing)
    } else {
        (Stage::PatternEnd, Change::Close)
    }
}

/// A word in what is assigned, with which a statement may begin.
fn word_assigned(seen: VariableSeen, part: Part) -> Row
    ensures { result ≡ specs.word_assigned seen part }
{
    if seen.depth == 0 && begins_statement(seen, part) {
        (Stage::Off, Change::Nothing)
    } else {
        (Stage::Initializer, Change::Nothing)
    }
}

fn initializer(seen: VariableSeen, is_inside: bool, braces: u64, part: Part) -> Row
    ensures { result ≡ specs.initializer seen is_inside braces part }
{
    if is_inside {
        return (Stage::Initializer, Change::Nothing);
    }
    match part {
        Part::Comma => (next_in(seen.depth, braces), Change::Nothing),
        Part::Semi => (Stage::Off, Change::Nothing),
        Part::Less => less(seen),
        Part::Greater(count) => (Stage::Initializer, Change::Greater(count)),
        Part::EndParen | Part::EndBrace | Part::EndBracket => closing(seen.depth),
        _ => word_assigned(seen, part),
    }
}

/// In the brackets of a pattern (ECMA-262, 14.3.3).
fn element(part: Part) -> Row
    ensures { result ≡ specs.element part }
{
    match part {
        Part::Word(_) => (Stage::Target, Change::Name),
        Part::Comma | Part::Spread => (Stage::Element, Change::Nothing),
        Part::Brace => (Stage::Property, Change::Open(true)),
        Part::Bracket => (Stage::Element, Change::Open(false)),
        Part::EndBracket => (Stage::PatternEnd, Change::Close),
        _ => (Stage::Off, Change::Nothing),
    }
}

/// In the braces of a pattern (ECMA-262, 14.3.3).
fn property(part: Part) -> Row
    ensures { result ≡ specs.property part }
{
    match part {
        Part::Word(_) => (Stage::Key, Change::Name),
        Part::Text | Part::Number => (Stage::KeyEnd, Change::Nothing),
        Part::Bracket => (Stage::Computed, Change::Enter),
        Part::Comma => (Stage::Property, Change::Nothing),
        Part::Spread => (Stage::Value, Change::Nothing),
        Part::EndBrace => (Stage::PatternEnd, Change::Close),
        _ => (Stage::Off, Change::Nothing),
    }
}

fn behind_key(part: Part) -> Row
    ensures { result ≡ specs.behind_key part }
{
    match part {
        Part::Colon => (Stage::Value, Change::Nothing),
        Part::Comma => (Stage::Property, Change::Tell),
        Part::Equals => (Stage::Initializer, Change::TellEnter),
        Part::EndBrace => (Stage::PatternEnd, Change::TellClose),
        _ => (Stage::Off, Change::Nothing),
    }
}

fn computed(is_inside: bool, part: Part) -> Row
    ensures { result ≡ specs.computed is_inside part }
{
    if is_inside || !part.closes() {
        (Stage::Computed, Change::Nothing)
    } else {
        (Stage::KeyEnd, Change::Nothing)
    }
}

fn behind_other_key(part: Part) -> Row
    ensures { result ≡ specs.behind_other_key part }
{
    match part {
        Part::Colon => (Stage::Value, Change::Nothing),
        _ => (Stage::Off, Change::Nothing),
    }
}

fn value(part: Part) -> Row
    ensures { result ≡ specs.value part }
{
    match part {
        Part::Word(_) => (Stage::Target, Change::Name),
        _ => pattern(part),
    }
}

fn behind_target(depth: usize, braces: u64, part: Part) -> Row
    ensures { result ≡ specs.behind_target depth braces part }
{
    match part {
        Part::Comma => (next_in(depth, braces), Change::Tell),
        Part::Equals => (Stage::Initializer, Change::TellEnter),
        Part::EndBrace | Part::EndBracket => (Stage::PatternEnd, Change::TellClose),
        _ => (Stage::Off, Change::Nothing),
    }
}

fn behind_pattern(depth: usize, braces: u64, part: Part) -> Row
    ensures { result ≡ specs.behind_pattern depth braces part }
{
    match part {
        Part::Comma => (next_in(depth, braces), Change::Nothing),
        Part::Equals => (Stage::Initializer, Change::Enter),
        Part::Colon => (Stage::Annotation, Change::Nothing),
        Part::EndBrace | Part::EndBracket => (Stage::PatternEnd, Change::Close),
        _ => (Stage::Off, Change::Nothing),
    }
}

impl Variables {
    /// There is no declaration.
    pub fn off() -> Variables
        ensures { result ≡ specs.off }
    {
        let nowhere = Span {
            lo: BytePos(0),
            hi: BytePos(0),
        };
        Variables {
            stage: Stage::Off,
            name: nowhere,
            angles: 0,
            level: 0,
            braces: 0,
        }
    }

    /// Behind `export var`, `export let` or `export const`.
    pub fn begun() -> Variables
        ensures { result ≡ specs.begun }
    {
        Variables {
            stage: Stage::Binding,
            ..Variables::off()
        }
    }

    /// Whether there is no declaration.
    #[inline]
    pub fn is_off(&self) -> bool
        ensures { result ≡ specs.is_off self.now.stage }
    {
        matches!(self.stage, Stage::Off)
    }

    #[tactic(auto, unfolding(crate::specs::Variables::row))]
    fn row(self, seen: VariableSeen, part: Part) -> Row
        ensures { result ≡ specs.row self.stage self seen part }
    {
        match self.stage {
            Stage::Off => (Stage::Off, Change::Nothing),
            Stage::Binding => binding(self.angles, part),
            Stage::Enum => behind_enum(part),
            Stage::Named => named(seen.had_line_break, self.angles, part),
            Stage::Annotation => annotation(seen, self.angles, part),
            Stage::Parameters => parameters(self.level < seen.depth, self.angles, part),
            Stage::Initializer => initializer(seen, self.level < seen.depth, self.braces, part),
            Stage::Element => element(part),
            Stage::Property => property(part),
            Stage::Key => behind_key(part),
            Stage::Computed => computed(more(self.level) < seen.depth, part),
            Stage::KeyEnd => behind_other_key(part),
            Stage::Value => value(part),
            Stage::Target => behind_target(seen.depth, self.braces, part),
            Stage::PatternEnd => behind_pattern(seen.depth, self.braces, part),
        }
    }

    /// The last name, or the one that stands here, where the change declares it.
    fn told(self, change: Change, span: Span) -> Option<Span>
        ensures { result ≡ specs.told change self.name span }
    {
        match change {
            Change::Tell | Change::TellClose | Change::TellEnter => Some(self.name),
            Change::TellHere => Some(span),
            _ => None,
        }
    }

    fn changed(self, stage: Stage, change: Change, depth: usize, span: Span) -> Variables
        ensures { result ≡ specs.changed stage change depth span self }
    {
        let here = Variables { stage, ..self };
        match change {
            Change::Name => Variables { name: span, ..here },
            Change::Open(in_braces) => Variables {
                braces: pushed(self.braces, in_braces),
                ..here
            },
            Change::Close | Change::TellClose => Variables {
                braces: self.braces / 2,
                ..here
            },
            Change::Enter | Change::TellEnter => Variables {
                level: depth,
                angles: 0,
                ..here
            },
            Change::Less => Variables {
                angles: more(self.angles),
                ..here
            },
            Change::Greater(count) => Variables {
                angles: self.angles.saturating_sub(count),
                ..here
            },
            Change::Nothing | Change::Tell | Change::TellHere => here,
        }
    }

    /// Behind one token more, which lies there, and the name that it tells.
    pub fn step(self, seen: VariableSeen, part: Part, span: Span) -> (Variables, Option<Span>)
        ensures { result ≡ specs.stepped seen part span self }
    {
        let (stage, change) = self.row(seen, part);
        (
            self.changed(stage, change, seen.depth, span),
            self.told(change, span),
        )
    }
}

/// One bit more, which comes last; the first of 64 goes.
fn pushed(bits: u64, bit: bool) -> u64
    ensures { result ≡ specs.pushed bits bit }
{
    let behind = bits % 9_223_372_036_854_775_808 * 2;
    if bit { behind + 1 } else { behind }
}
