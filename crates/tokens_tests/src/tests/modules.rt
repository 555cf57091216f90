//! Tests of imports and exports.
mod exports;
mod imports;
mod reading;
mod regions;
mod rows;
mod shown;
mod typescript;
