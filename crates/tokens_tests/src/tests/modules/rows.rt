//! What the tests share: rows of texts.
use super::reading::module;
use super::shown::{Told, shown};
use listing::listing::Settings;
use std::alloc::{AllocError, Global};
use std::process::Abort;
use std::test::Fail;

/// A text, and what is told of it.
pub type Row = (&'static str, &'static str);

/// What is told of a text is what its row says. Here alone, as it brings printing into a proof.
fn assert_shown(rt: &impl Abort, row: &Row, found: &str) {
    assert_eq!(rt; found, row.1, "in {}", row.0);
}

fn shown_of(
    alloc: Global,
    settings: Settings,
    told: Told,
    text: &str,
) -> Result<String, AllocError> {
    let commonjs = matches!(told, Told::Requires);
    let is_by_role = !matches!(told, Told::ImportsByFlag);
    let module = module(alloc, settings, commonjs, is_by_role, text)?;
    shown(alloc, text, &module, told)
}

pub fn assert_rows(
    rt: &impl Abort,
    alloc: Global,
    settings: Settings,
    told: Told,
    rows: &[Row],
) -> Result<(), Fail> {
    for row in rows {
        assert_shown(rt, row, shown_of(alloc, settings, told, row.0)?.as_str());
    }
    Ok(())
}
