//! The commands that tables of tests hold.
use ecma_place::{BytePos, Span};
use ecma_state::kept::{Kept, Seen};
use ecma_stream::Checkpoint;
use ecma_syntax::BinOpToken;
use ecma_token::TokenKind;
use listing::listing::Settings;

/// A call of the row's lexer, or something written of it.
#[derive(Clone, Copy)]
pub enum Command {
    /// Reads so many tokens.
    Read(usize),
    /// Has each read begin at the slash that was answered last.
    Reread,
    /// Has reads go on again.
    Withdraw,
    /// Says whether an expression may begin.
    Allow(bool),
    /// Sets the flags of the code.
    Flags(Settings),
    PopContext,
    TakeErrors,
    /// Takes the errors, those that wait too, and the comments.
    TakeFound,
    /// Adds an error of the layer above, from 1 to 2.
    AddError,
    /// Adds one that counts in module code.
    AddModuleError,
    /// Writes so many of the next tokens, and `end` where there is none.
    Write(usize),
    /// The same; behind each where the slash stands that was answered last.
    WriteSlashes(usize),
    /// The same as the iterator has them, with `none` where there is none.
    WriteItems(usize),
    /// The same as one slot has them that they are read into.
    WriteSlots(usize),
    /// Writes the tokens up to the end. A slash that is to be read again is read once.
    WriteAll,
    /// Writes the tokens up to the end, each with how many contexts there are behind it.
    WriteDepths,
    /// Writes how many contexts there are, and the innermost.
    WriteContext,
    /// Writes the flags of the code.
    WriteCode,
    /// Writes the errors that were recorded, and takes them.
    WriteRecorded,
    /// Writes the errors, the comments that are handed over and the contexts, and takes them.
    WriteRest,
    Note(&'static str),
    /// Makes a copy.
    Copy,
    /// Puts the copy that was made last in the place of the lexer, and that in the place of the copy.
    Swap,
    /// Puts a new lexer there.
    Open(Settings, &'static str),
    /// Makes a checkpoint, and a copy of it.
    Save,
    /// Changes the checkpoint that was made last.
    Forge(Forgery),
    /// Writes whether the lexer goes back to the checkpoint of this number: `back` where all is as it was there, else `went`;
    /// `stayed` where it doesn't and nothing changes, else `changed`.
    Go(usize),
    /// Goes on from the checkpoint that was made last over this as the rest of a text, or writes `none`.
    Resume(&'static str),
    /// The same over what is the rest of the row's text.
    ResumeRest,
    /// The same in the row's whole text.
    ResumeWhole,
    /// Begins a store of comments with room for so many.
    Store(usize),
    /// Gives the store room for so many.
    Room(usize),
    /// Writes whether comments are handed over to the store, and how many it has then.
    Hand,
    /// Writes the comments that the store has.
    WriteStore,
}

/// What is changed of a checkpoint.
#[derive(Clone, Copy)]
pub enum Forgery {
    At(u32),
    Opened(u32),
    Start(u32),
    Reread(u32),
    /// A slash was answered last, there.
    Answered(u32),
    Recorded(usize),
    Waiting(usize),
    Comments(usize),
}

/// A slash was answered there.
fn answered(slash: u32) -> Seen {
    let token = Kept {
        kind: TokenKind::BinOp(BinOpToken::Div),
        span: Span::new(BytePos(slash), BytePos(slash)),
        flag: false,
    };
    Seen {
        first: false,
        last: Some(token),
        flag: false,
        ended: false,
    }
}

pub fn forge(to: &mut Checkpoint, forgery: Forgery) {
    match forgery {
        Forgery::At(place) => to.at = BytePos(place),
        Forgery::Opened(place) => to.state.opened = BytePos(place),
        Forgery::Start(place) => to.state.start = BytePos(place),
        Forgery::Reread(place) => to.reread = Some(BytePos(place)),
        Forgery::Answered(place) => to.state.seen = answered(place),
        Forgery::Recorded(count) => to.counts.recorded = count,
        Forgery::Waiting(count) => to.counts.waiting = count,
        Forgery::Comments(count) => to.counts.comments = count,
    }
}
