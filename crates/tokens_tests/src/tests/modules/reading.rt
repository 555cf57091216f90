//! The tokens of a text, and what they import and export.
ghost use Rattle.ecma_reader.specs.Readers.{IsReady};

use ecma_module_reader::gather_next;
use ecma_modules::{Gathering, Module, ModuleOptions};
use ecma_place::{BytePos, StringInput};
use ecma_reader::{Reader, Slashes};
use ecma_slot::Slot;
use listing::listing::{Settings, flags, lexer_settings};
use std::alloc::{AllocError, Global};

/// Reads to the end, and gathers what is told.
fn gather_all(gathering: &mut Gathering, reader: &mut Reader) -> Result<(), AllocError>
    requires { IsReady reader.old }
{
    let mut slot = Slot::new();
    'tokens: while gather_next(gathering, reader, &mut slot.token)? {}
    Ok(())
}

/// What a text imports and exports, with rows of `require(..)` or without, its slashes by a rule that has no places.
pub fn module(
    alloc: Global,
    settings: Settings,
    commonjs: bool,
    is_by_role: bool,
    text: &str,
) -> Result<Module, AllocError> {
    let start = BytePos(0);
    if !StringInput::fits(text, start) {
        return Err(AllocError);
    }
    let slashes = if is_by_role {
        Slashes::ByRole
    } else {
        Slashes::ByFlag
    };
    let lexing = lexer_settings(settings);
    let mut reader = Reader::new(alloc, &lexing, flags(settings), text, start, slashes)?;
    let options = ModuleOptions {
        typescript: settings.ts,
        commonjs,
    };
    let mut gathering = Gathering::new(alloc, options);
    gather_all(&mut gathering, &mut reader)?;
    gathering.finish()
}
