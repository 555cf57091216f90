//! Imports and exports as rows, by tokens alone: no text is read, and no tree is made.
//!
//! [`module_of`] returns all rows for a list of tokens. [`Gathering`] takes one token after another, for who keeps no list
//! (`ecma_module_reader` has it take what a reader reads). [`Scan`] returns each row as soon as it is complete: `step` for each
//! token, then `end`, then `end_call` until it returns none. A row of [`Import`] has the string that names the module, by its place
//! and by the number of its token, whose value it is; the statement; of a call its first argument; attributes; and
//! which rows of exports are its own. A row of [`Export`] has the exported name and the name in the module. From these follow
//! the fields of es-module-lexer, on real code with its values (`bench/modules files`). Besides there are rows and fields of
//! TypeScript's forms, of deferred and source phase imports and, where they are asked for, of `require("x")`, and a row for
//! each name that a declaration of variables binds, also by a pattern (`export const { a, b: [c] } = d`).
//!
//! What an `import` is goes by the [`Region`] of its token ([`ModuleToken`]): the name of a member or key is no import, and
//! a call that stands where a type does imports types alone. A track of the tokens (`ecma_roles`) says what is expected behind
//! an `import`, and that its region; where nothing is known of that, each `import(` is a call that evaluates a module.
//!
//! `ecma_module_table` has what each token says and changes. `specs/` has regions (`Regions`) and open calls (`Calls`), above
//! them the machine (`Known`, `Scans`) and all rows of a text (`Modules`).
//! Promised: code and definitions agree, the rows of a text's beginning don't change with what follows, and each row lies
//! within the tokens up to the one that completes it, its parts within its statement (`laws.rt`, `Places`).
//!
//! Our own choice, as tokens alone are seen: brackets are counted and not told apart; what a namespace or the braces of
//! `declare module "x"` declare, import and export has no rows, as it is not the text's own, but calls and `import.meta` there
//! have; in what may be type arguments a call behind a comma is one of a value (`f(a < b, import("c"))`); `defer` and
//! `source` (and `module` behind `declare`) are any names of as many bytes, where no other name is possible in a text
//! that is right; and in TypeScript a name between commas behind `<` is taken for one of a type.
#![tactic(auto)]

mod calls;
mod known;
pub mod laws;
mod module;
mod region;
mod scan;
mod statement;

pub use ecma_module_table::rows::{
    Argument, Export, Form, Import, ImportTold, ModuleOptions, Phase, Specifier, Told,
};
pub use module::{Gathering, Module, module_of};
pub use region::{ModuleToken, Region};
pub use scan::Scan;
