//! The table of imports and exports: what each token of a module says of them, at each stage of a declaration.
//!
//! [`table::row`] is the whole of it: `part.rt` has what a token is, `stage.rt` the stages and what a row changes, `imports.rt` and
//! `exports.rt` the rows. `variables.rt` has the names that an exported declaration of variables binds, and `rows.rt` the rows that
//! are told of a text; `ecma_modules` has the machine that goes by the table.
//!
//! `specs/` has the same table, which code is proved to agree with.
#![tactic(auto)]

mod exports;
mod imports;
pub mod part;
pub mod rows;
pub mod stage;
pub mod table;
pub mod variables;
