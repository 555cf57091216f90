//! Whether standard output takes colours.

use std::env;
use std::io::IsTerminal;

/// Whether a variable of the environment is set, and not empty.
fn is_set(rt: &HostRuntime, name: &str) -> bool {
    match env::var(rt, name) {
        Ok(value) => !value.is_empty(),
        Err(_) => false,
    }
}

/// Whether standard output takes colours: where NO_COLOR is not set, and either CLICOLOR_FORCE is, or it is a terminal. A variable
/// that is empty counts as not set (no-color.org, bixense.com/clicolors).
pub fn takes_colours(rt: &HostRuntime) -> bool {
    !is_set(rt, "NO_COLOR") && (is_set(rt, "CLICOLOR_FORCE") || rt.stdout().is_terminal())
}
