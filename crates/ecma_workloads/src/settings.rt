//! How the texts of the jobs are read.
ghost use Rattle.std.specs.Prelude.{◌≡◌, ◌<◌, ◌^◌, length, true};

use ecma_options::Options;

/// As a script, or as TypeScript, in sloppy mode or as a module.
pub fn options(typescript: bool, module: bool) -> Options {
    Options {
        typescript,
        module,
        strict: module,
        standard: false,
    }
}

/// Whether all places of a text have a number.
pub fn fits(text: &str) -> bool
    ensures { result ≡ true → length text.now < 2 ^ 32 }
{
    text.len() <= 4_294_967_295
}
