//! What a run gives as rows of numbers.
use ecma_rows::{
    Answer, CommentRow, ErrorRow, ExportRow, ImportRow, TokenRow, count_tokens, write_canonical,
    write_comments, write_errors, write_imports, write_tokens,
};
use std::alloc::{AllocError, Global};
use std::io;

/// A text with a regular expression, comments, a value that is not its spelling, and errors of tokens and recorded ones.
const TEXT: &[u8] = b"x = /a/ /*b*/ 1__2 //c\n'\\n' \\u0062reak";

/// A text that is read cleanly.
const CLEAN: &[u8] = b"x = /a/ /*b*/ '\\n'";

/// A text with a call of `import` in another, and an export.
const MODULE: &[u8] = b"y = /a/; import(import('b')); export { c } from 'd'";

/// The place of the regular expression of all.
const SLASHES: [u32; 1] = [4];

/// Room for what a call tells, which is empty before it.
#[derive(Clone, Copy, Debug, PartialEq, Eq)]
struct Rooms {
    tokens: [TokenRow; 6],
    comments: [CommentRow; 2],
    errors: [ErrorRow; 2],
    imports: [ImportRow; 3],
    exports: [ExportRow; 1],
    bytes: [u8; 120],
}

/// Rooms for rows of imports and of exports.
fn empty_module() -> ([ImportRow; 3], [ExportRow; 1]) {
    let import = ImportRow {
        lo: 0,
        hi: 0,
        statement_lo: 0,
        statement_hi: 0,
        paren: 0,
        attributes_lo: 0,
        attributes_hi: 0,
        form: 0,
        phase: 0,
        flags: 0,
        first_export: 0,
        exports: 0,
    };
    let export = ExportRow {
        lo: 0,
        hi: 0,
        local_lo: 0,
        local_hi: 0,
        flags: 0,
    };
    ([import; 3], [export])
}

impl Rooms {
    fn empty() -> Rooms {
        let (imports, exports) = empty_module();
        Rooms {
            tokens: [TokenRow {
                lo: 0,
                hi: 0,
                kind: 0,
                flags: 0,
            }; 6],
            comments: [CommentRow {
                pos: 0,
                lo: 0,
                hi: 0,
                text_lo: 0,
                text_hi: 0,
                flags: 0,
            }; 2],
            errors: [ErrorRow {
                lo: 0,
                hi: 0,
                source: 0,
                message_lo: 0,
                message_hi: 0,
            }; 2],
            imports,
            exports,
            bytes: [0; 120],
        }
    }
}

fn ask_imports(alloc: Global, rooms: &mut Rooms) -> Result<Answer, AllocError> {
    let told = write_imports(
        alloc,
        MODULE,
        0,
        &SLASHES,
        &mut rooms.imports,
        &mut rooms.exports,
    )?;
    Ok(Answer {
        status: told.status,
        count: told.imports,
    })
}

/// What is asked for.
#[derive(Clone, Copy)]
enum Asked {
    Count,
    Tokens,
    Comments,
    Errors,
    Imports,
    Canonical,
}

impl Asked {
    fn name(self) -> &'static str {
        match self {
            Asked::Count => "count_tokens",
            Asked::Tokens => "write_tokens",
            Asked::Comments => "write_comments",
            Asked::Errors => "write_errors",
            Asked::Imports => "write_imports",
            Asked::Canonical => "write_canonical",
        }
    }

    /// Of imports and exports, how many imports there are.
    fn ask(self, alloc: Global, rooms: &mut Rooms) -> Result<Answer, AllocError> {
        match self {
            Asked::Count => count_tokens(alloc, TEXT, 0, &SLASHES),
            Asked::Tokens => write_tokens(alloc, TEXT, 0, &SLASHES, &mut rooms.tokens),
            Asked::Comments => write_comments(alloc, TEXT, 0, &SLASHES, &mut rooms.comments),
            Asked::Errors => write_errors(
                alloc,
                TEXT,
                0,
                &SLASHES,
                &mut rooms.errors,
                &mut rooms.bytes,
            ),
            Asked::Imports => ask_imports(alloc, rooms),
            Asked::Canonical => write_canonical(alloc, CLEAN, 0, &SLASHES, &mut rooms.bytes),
        }
    }
}

/// Says that a call was refused, and, where it writes nothing before it has all memory, whether the rooms are as before.
fn tell_refused(rt: &impl Print, asked: Asked, rooms: &Rooms) -> io::Result<()> {
    let name = asked.name();
    match asked {
        Asked::Count | Asked::Tokens => println!(rt; "refused {name}"),
        Asked::Comments | Asked::Errors | Asked::Imports | Asked::Canonical => {
            let same = *rooms == Rooms::empty();
            println!(rt; "refused {name}: same rooms {same}")
        }
    }
}

/// Writes what stands in the rooms of a call.
fn tell_rooms(rt: &impl Print, asked: Asked, rooms: &Rooms) -> io::Result<()> {
    match asked {
        Asked::Count => Ok(()),
        Asked::Tokens => println!(rt; "{:?}", rooms.tokens),
        Asked::Comments => println!(rt; "{:?}", rooms.comments),
        Asked::Errors => println!(rt; "{:?} {:?}", rooms.errors, rooms.bytes),
        Asked::Imports => println!(rt; "{:?} {:?}", rooms.imports, rooms.exports),
        Asked::Canonical => println!(rt; "{:?}", rooms.bytes),
    }
}

fn play_call(rt: &impl Print, alloc: Global, asked: Asked) -> io::Result<()> {
    let mut rooms = Rooms::empty();
    let answer = match asked.ask(alloc, &mut rooms) {
        Ok(answer) => answer,
        Err(_) => {
            tell_refused(rt, asked, &rooms)?;
            asked.ask(alloc, &mut rooms)?
        }
    };
    println!(rt; "{} {:?} {}", asked.name(), answer.status, answer.count)?;
    tell_rooms(rt, asked, &rooms)
}

/// Asks for all that there is.
pub fn play(rt: &impl Print, alloc: Global) -> io::Result<()> {
    play_call(rt, alloc, Asked::Count)?;
    play_call(rt, alloc, Asked::Tokens)?;
    play_call(rt, alloc, Asked::Comments)?;
    play_call(rt, alloc, Asked::Errors)?;
    play_call(rt, alloc, Asked::Imports)?;
    play_call(rt, alloc, Asked::Canonical)
}
