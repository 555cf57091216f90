//! The static library: the lexer for C and Rust. The caller owns all memory, and nothing is kept between calls.
//!
//! It has the exports alone, since no crate can be above a static library; the work is in `ecma_rows`. docs/C.md has
//! the calls, `uses/c` and `uses/rust` callers, and `uses/run` compares these with `ecma_lex`; `uses/js` makes a module
//! of WebAssembly of it (docs/JAVASCRIPT.md).
#![tactic(auto)]

ghost use Rattle.std.specs.Prelude.{◌≡◌, false, map, true};
ghost use Rattle.ecma_rows.specs.Asked.{judged, place_at};
ghost use Rattle.ecma_rows.specs.Canon.{canon_told};
ghost use Rattle.ecma_rows.specs.ErrorRows.{all_errors};
ghost use Rattle.ecma_rows.specs.ModuleRows.{is_commonjs, module_told, reading_bits};
ghost use Rattle.ecma_rows.specs.Rows.{comment_rows, token_rows};
ghost use Rattle.ecma_rows.specs.Told.{told_by};
ghost use Rattle.ecma_c.specs.Exported as told;
ghost use Rattle.ecma_c.specs.Exported.{Counts, Tells, ToldErrors, ToldModule, exported, exported_or_none};

use ecma_rows::{
    Answer, CommentRow, ErrorRow, ExportRow, ImportRow, ModuleAnswer, Status, TokenRow,
    count_tokens, write_canonical, write_comments, write_errors, write_imports, write_tokens,
};
use std::alloc::{AllocError, Global};

/// What a call came to: the number of its status ([`Status::number`]), and how many rows there are.
#[repr(C)]
#[derive(Clone, Copy, Debug, PartialEq, Eq)]
pub struct EcmaAnswer {
    pub count: usize,
    pub status: u32,
}

impl EcmaAnswer {
    fn of(answer: Answer) -> EcmaAnswer
        ensures { result ≡ exported answer }
    {
        EcmaAnswer {
            count: answer.count,
            status: answer.status.number(),
        }
    }

    fn of_told(told: Result<Answer, AllocError>) -> EcmaAnswer
        ensures { result ≡ exported_or_none told }
    {
        match told {
            Ok(answer) => EcmaAnswer::of(answer),
            Err(_) => EcmaAnswer {
                count: 0,
                status: Status::OutOfMemory.number(),
            },
        }
    }
}

/// What a call came to that tells of a module: how many rows of imports and of exports there are, the number of its status
/// ([`Status::number`]), and flags: 1 where there is nothing but imports, and exports that declare nothing, 2 where there is
/// an import or export, or `import.meta`.
#[repr(C)]
#[derive(Clone, Copy, Debug, PartialEq, Eq)]
pub struct EcmaModule {
    pub imports: usize,
    pub exports: usize,
    pub status: u32,
    pub flags: u32,
}

fn module_flags(is_facade: bool, has_module_syntax: bool) -> u32
    ensures { result ≡ told.module_flags is_facade has_module_syntax }
{
    let first = if is_facade { 1 } else { 0 };
    let second = if has_module_syntax { 2 } else { 0 };
    first + second
}

impl EcmaModule {
    fn of(answer: ModuleAnswer) -> EcmaModule
        ensures { result ≡ told.exported_module answer }
    {
        EcmaModule {
            imports: answer.imports,
            exports: answer.exports,
            status: answer.status.number(),
            flags: module_flags(answer.is_facade, answer.has_module_syntax),
        }
    }

    fn of_told(answer: Result<ModuleAnswer, AllocError>) -> EcmaModule
        ensures { result ≡ told.module_or_none answer }
    {
        match answer {
            Ok(answer) => EcmaModule::of(answer),
            Err(_) => EcmaModule {
                imports: 0,
                exports: 0,
                status: Status::OutOfMemory.number(),
                flags: 0,
            },
        }
    }
}

/// How many tokens a text has ([`count_tokens`]); status 5 where allocation fails.
#[unsafe(no_mangle)]
pub extern "C" fn ecma_count(
    alloc: Global,
    text: &[u8],
    options: u32,
    slashes: &[u32],
) -> EcmaAnswer
    ensures { Counts (told_by false token_rows (judged options (map place_at slashes.now) text.now)) result }
{
    EcmaAnswer::of_told(count_tokens(alloc, text, options, slashes))
}

/// Writes a row for each token to `out` ([`write_tokens`]); status 5 where allocation fails.
#[unsafe(no_mangle)]
pub extern "C" fn ecma_tokens(
    alloc: Global,
    text: &[u8],
    options: u32,
    slashes: &[u32],
    out: &mut [TokenRow],
) -> EcmaAnswer
    ensures { Tells (told_by false token_rows (judged options (map place_at slashes.now) text.now)) out.old out.new result }
{
    EcmaAnswer::of_told(write_tokens(alloc, text, options, slashes, out))
}

/// Writes a row for each comment to `out` ([`write_comments`]); status 5 where allocation fails.
#[unsafe(no_mangle)]
pub extern "C" fn ecma_comments(
    alloc: Global,
    text: &[u8],
    options: u32,
    slashes: &[u32],
    out: &mut [CommentRow],
) -> EcmaAnswer
    ensures { Tells (told_by true comment_rows (judged options (map place_at slashes.now) text.now)) out.old out.new result }
{
    EcmaAnswer::of_told(write_comments(alloc, text, options, slashes, out))
}

/// Writes a row for each error to `out`, and their messages to `messages` ([`write_errors`]); status 5 where allocation fails.
#[unsafe(no_mangle)]
pub extern "C" fn ecma_errors(
    alloc: Global,
    text: &[u8],
    options: u32,
    slashes: &[u32],
    out: &mut [ErrorRow],
    messages: &mut [u8],
) -> EcmaAnswer
    ensures { ToldErrors (told_by false all_errors (judged options (map place_at slashes.now) text.now)) out.old out.new messages.old messages.new result }
{
    EcmaAnswer::of_told(write_errors(alloc, text, options, slashes, out, messages))
}

/// Writes the canonical text to `out` ([`write_canonical`]); status 5 where allocation fails.
#[unsafe(no_mangle)]
pub extern "C" fn ecma_canonical(
    alloc: Global,
    text: &[u8],
    options: u32,
    slashes: &[u32],
    out: &mut [u8],
) -> EcmaAnswer
    ensures { Tells (canon_told (judged options (map place_at slashes.now) text.now)) out.old out.new result }
{
    EcmaAnswer::of_told(write_canonical(alloc, text, options, slashes, out))
}

/// Writes a row for each import to `imports` and a row for each export to `exports` ([`write_imports`]); status 5 where
/// allocation fails.
#[unsafe(no_mangle)]
pub extern "C" fn ecma_imports(
    alloc: Global,
    text: &[u8],
    options: u32,
    slashes: &[u32],
    imports: &mut [ImportRow],
    exports: &mut [ExportRow],
) -> EcmaModule
    ensures { ToldModule (module_told (is_commonjs options) (judged (reading_bits options) (map place_at slashes.now) text.now)) imports.old imports.new exports.old exports.new result }
{
    EcmaModule::of_told(write_imports(alloc, text, options, slashes, imports, exports))
}
