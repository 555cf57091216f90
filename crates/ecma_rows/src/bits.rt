//! What a number says of how a text is to be read.
ghost use Rattle.std.specs.Prelude.{◌≡◌};
ghost use Rattle.ecma_rows.specs.Asked as requests;
ghost use Rattle.ecma_rows.specs.ModuleRows as rows;

use ecma_options::Options;

const TYPESCRIPT: u32 = 1;

const MODULE: u32 = 2;

const STRICT: u32 = 4;

const BY_FLAG: u32 = 8;

const BY_ROLE: u32 = 16;

/// Of `write_imports` alone: it doesn't say how a text is read.
const COMMONJS: u32 = 32;

/// The options of a sum of 1 for TypeScript, 2 for module code, 4 for strict mode code, 8 for slashes by the lexer's own flag,
/// and 16 for slashes by the tokens before them; nothing for any other number. Our own.
pub fn options_of_bits(bits: u32) -> Option<Options>
    ensures { result ≡ requests.options_of bits }
{
    if bits >= 2 * BY_ROLE {
        return None;
    }
    Some(Options {
        typescript: bits / TYPESCRIPT % 2 == 1,
        module: bits / MODULE % 2 == 1,
        strict: bits / STRICT % 2 == 1,
        standard: false,
    })
}

/// Whether the lexer's own flag says which slashes begin regular expressions.
pub(crate) fn is_by_flag(bits: u32) -> bool
    ensures { result ≡ requests.is_by_flag bits }
{
    bits / BY_FLAG % 2 == 1
}

/// Whether the tokens before say which slashes begin regular expressions.
pub(crate) fn is_by_role(bits: u32) -> bool
    ensures { result ≡ requests.is_by_role bits }
{
    bits / BY_ROLE % 2 == 1
}

/// Whether rows are asked for of `require`.
pub(crate) fn is_commonjs(bits: u32) -> bool
    ensures { result ≡ rows.is_commonjs bits }
{
    bits / COMMONJS % 2 == 1
}

/// The options that say how a text is read.
pub(crate) fn reading_bits(bits: u32) -> u32
    ensures { result ≡ rows.reading_bits bits }
{
    if is_commonjs(bits) {
        bits - COMMONJS
    } else {
        bits
    }
}
