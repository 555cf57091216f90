//! What a row of the table says to do.

use crate::frame::FrameKind;
use crate::part::PartKind;
use crate::state::State;

/// How many angle brackets a token closes.
#[derive(Clone, Copy)]
pub enum Angles {
    One,
    Two,
    Three,
}

/// What a colon stands behind.
#[derive(Clone, Copy)]
pub enum Grouping {
    /// No parentheses that may be parameters.
    None,
    /// Parentheses.
    Plain,
    /// Parentheses behind `async`.
    Async,
}

/// A change of what encloses the place.
#[derive(Clone, Copy)]
pub enum Change {
    Nothing,
    /// One frame more.
    Push(FrameKind),
    /// Two frames more, the second inside the first.
    PushTwo(FrameKind, FrameKind),
    /// The head of a function, async or not.
    Enter(FrameKind, bool),
    /// The innermost frame goes.
    Pop,
    /// The innermost frame becomes one of this kind.
    Turn(FrameKind),
    /// The head of a method and its parameters.
    Method,
    /// A static block.
    Static,
    /// An object.
    Object,
    /// An arrow function, async or not.
    Arrow(bool),
    /// Parentheses end that can only be parameters: the marks in them go.
    Parameters,
    /// What may have been type arguments is none.
    DropCandidates,
    /// The same, and the name of a method begins anew.
    DropCandidatesClear,
    /// The name of a method begins anew.
    ClearPending,
    /// The method whose name is read is async.
    PendAsync,
    /// The method whose name is read is a generator.
    PendGenerator,
    /// The method whose name is read may be async, and is no generator.
    PendNameAsync,
    /// `async` was the name itself.
    LoseAsync,
    /// The function around is a generator.
    Generator,
    /// At the top, the text is a module's.
    ModuleCode,
    /// An import ends; at the top, the text is a module's.
    ImportEnds,
}

/// What a row says to do.
#[derive(Clone, Copy)]
pub enum Move {
    /// A change, and the state that follows.
    To(State, Change),
    /// A change, and the same token again in this state.
    Again(State, Change),
    /// The same token again where something new may begin.
    Fresh,
    /// The same, with an operand in place of a member or a key.
    FreshOperand,
    /// The same, with an operand in place of a key.
    FreshBrace,
    /// The same, for a word that is an operand where only an operand may begin.
    FreshWord,
    /// A right brace.
    Brace,
    /// A right parenthesis.
    Paren,
    /// A right bracket.
    Bracket,
    /// A semicolon.
    Semi,
    /// A comma.
    Comma,
    /// A colon.
    Colon(Grouping),
    /// Right angle brackets behind an operand.
    Greater(Angles),
    /// Right angle brackets in a type, with or without `=` behind them.
    TypeGreater(Angles, bool),
    /// The body of a function begins.
    Body,
    /// The body of a class begins.
    ClassBody,
    /// A function has no body.
    NoBody,
    /// A class has no body.
    NoClassBody,
    /// What a decorator stands before begins.
    NoDecorator,
    /// A type ends.
    EndType,
    /// A substitution of a template begins.
    Substitution,
    /// A template ends.
    EndTemplate,
}

/// What a move leaves.
#[derive(Clone, Copy)]
pub enum Turn {
    /// The token is taken into account, and this is the state behind it.
    Done(State),
    /// What is left of the token is to be read in this state.
    Again(State, PartKind),
}
