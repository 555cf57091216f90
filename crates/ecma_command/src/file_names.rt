//! What the name of a file says of it, and which files of a directory are read.
ghost use Rattle.std.specs.Prelude.{◌≡◌};
ghost use Rattle.ecma_command.specs.FileNames as names;

use clap::ArgMatches;

/// Whether a name has this ending.
fn has_ending(name: &str, ending: &str) -> bool
    ensures { result ≡ names.has_ending name.now ending.now }
{
    name.as_bytes().ends_with(ending.as_bytes())
}

/// Whether a file's ending says that it holds TypeScript.
pub(crate) fn is_typescript(name: &str) -> bool
    ensures { result ≡ names.is_typescript name.now }
{
    has_ending(name, ".ts")
        || has_ending(name, ".mts")
        || has_ending(name, ".cts")
        || has_ending(name, ".tsx")
}

/// Whether a file's ending says that it is a module.
pub(crate) fn is_module(name: &str) -> bool
    ensures { result ≡ names.is_module name.now }
{
    has_ending(name, ".mts") || has_ending(name, ".mjs")
}

/// Whether a file's ending says that it has JSX, which is not read.
pub fn has_jsx(name: &str) -> bool
    ensures { result ≡ names.has_jsx name.now }
{
    has_ending(name, ".jsx") || has_ending(name, ".tsx")
}

/// Whether a file's ending says that it holds ECMAScript or TypeScript, and no JSX.
fn is_source(name: &str) -> bool
    ensures { result ≡ names.is_source name.now }
{
    has_ending(name, ".js")
        || has_ending(name, ".mjs")
        || has_ending(name, ".cjs")
        || has_ending(name, ".ts")
        || has_ending(name, ".mts")
        || has_ending(name, ".cts")
}

/// Whether a name in a directory is that of what is passed over, where hidden files are not asked for.
fn is_hidden(name: &str) -> bool
    ensures { result ≡ names.is_hidden name.now }
{
    name.as_bytes().starts_with(b".") || name == "node_modules"
}

/// Which files are read in a directory.
#[derive(Clone, Copy, Debug, PartialEq, Eq)]
pub struct Chosen {
    /// Whether hidden files and directories are, and `node_modules`.
    pub hidden: bool,
    /// Whether files that have JSX are.
    pub as_is: bool,
}

impl Chosen {
    /// Which the words ask for, where they ask for the files in directories.
    pub fn of(matches: &ArgMatches) -> Option<Chosen> {
        if !matches.get_flag("recursive") {
            return None;
        }
        Some(Chosen {
            hidden: matches.get_flag("hidden"),
            as_is: matches.get_flag("as-is"),
        })
    }
}

/// Whether what a directory holds under this name is read, or looked into where it is a directory.
pub fn is_chosen(chosen: Chosen, name: &str, is_directory: bool) -> bool
    ensures { result ≡ names.is_chosen chosen name.now is_directory }
{
    if is_hidden(name) && !chosen.hidden {
        return false;
    }
    is_directory || is_source(name) || (chosen.as_is && has_jsx(name))
}

/// Whether what a directory holds under this name is passed over for its JSX alone.
pub fn is_left_for_jsx(chosen: Chosen, name: &str) -> bool
    ensures { result ≡ names.is_left_for_jsx chosen name.now }
{
    has_jsx(name) && !chosen.as_is && (chosen.hidden || !is_hidden(name))
}
