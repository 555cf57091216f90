//! What becomes of errors that wait, and of those of the layer above.
use super::rows::{Row, assert_rows};
use driver::command::Command::{
    AddError, AddModuleError, Flags, Write, WriteCode, WriteRecorded, WriteRest,
};
use listing::listing::{IGNORING, MODULE, PLAIN};
use std::test::Fail;

const LATE: &[Row] = &[(
    PLAIN,
    "a\n-->x\nb",
    &[Write(2), Flags(MODULE), WriteCode, Write(1), WriteRest],
    "0..1 lf name [a]; 7..8 lf name [b]; module true, strict false, types false, ignores false; end; \
     recorded 2..5 Legacy comments cannot be used in module code",
)];

#[test]
fn what_waits_is_recorded_once_the_code_is_a_module(rt: HostRuntime) -> Result<(), Fail> {
    assert_rows(&rt, rt.alloc(), LATE)
}

/// Where errors are ignored. What was taken is not recorded any more.
const ADDED: &[Row] = &[(
    IGNORING,
    "",
    &[AddError, AddModuleError, Write(1), WriteRest, WriteRecorded],
    "end; recorded 1..2 Legacy octal escape is not permitted in strict mode; \
     waiting 1..2 Merge conflict marker encountered.",
)];

#[test]
fn takes_in_errors(rt: HostRuntime) -> Result<(), Fail> {
    assert_rows(&rt, rt.alloc(), ADDED)
}
