//! The table of words, laid out for a look-up of a word at the front of 16 bytes.
ghost use Rattle.std.specs.Prelude.{◌≡◌, ◌≤◌, ◌<◌, true, map, take, length, nat_eq};
ghost use Rattle.std.specs.Cmp.Lexicographic.{pointwise};
ghost use Rattle.std.specs.List.{list_all};
ghost use Rattle.ecma_word.specs.ShortWords.{hash, row_kind, row_word, is_placed};
ghost use Rattle.ecma_word.specs.Table.{table_of_words};
ghost use Rattle.ecma_word.specs.Word.{word_kind, word_of};

use crate::keyword::Keyword;
use crate::known_ident::KnownIdent;
use crate::word::{IdentKind, WordKind};
use std::simd::prelude::*;

// A word of `length` bytes, with zeros behind it; an empty row has no bytes.
struct Row {
    text: [u8; 16],
    length: u32,
    kind: WordKind,
}

macro_rules! keyword {
    ($text:literal, $length:literal, $name:ident) => {
        Row {
            text: *$text,
            length: $length,
            kind: WordKind::Keyword(Keyword::$name),
        }
    };
}

macro_rules! known {
    ($text:literal, $length:literal, $name:ident) => {
        Row {
            text: *$text,
            length: $length,
            kind: WordKind::Ident(IdentKind::Known(KnownIdent::$name)),
        }
    };
}

macro_rules! literal {
    ($text:literal, $length:literal, $name:ident) => {
        Row {
            text: *$text,
            length: $length,
            kind: WordKind::$name,
        }
    };
}

const NONE: Row = Row {
    text: [0; 16],
    length: 0,
    kind: WordKind::Ident(IdentKind::Other),
};

// Each word is at the place that `place_of` works out.
static ROWS: [Row; 256] = [
    known!(b"from\0\0\0\0\0\0\0\0\0\0\0\0", 4, From),
    NONE,
    NONE,
    NONE,
    NONE,
    NONE,
    NONE,
    keyword!(b"try\0\0\0\0\0\0\0\0\0\0\0\0\0", 3, Try),
    NONE,
    keyword!(b"throw\0\0\0\0\0\0\0\0\0\0\0", 5, Throw),
    NONE,
    NONE,
    keyword!(b"catch\0\0\0\0\0\0\0\0\0\0\0", 5, Catch),
    NONE,
    NONE,
    NONE,
    NONE,
    NONE,
    keyword!(b"while\0\0\0\0\0\0\0\0\0\0\0", 5, While),
    literal!(b"false\0\0\0\0\0\0\0\0\0\0\0", 5, False),
    NONE,
    NONE,
    NONE,
    known!(b"namespace\0\0\0\0\0\0\0", 9, Namespace),
    known!(b"readonly\0\0\0\0\0\0\0\0", 8, Readonly),
    NONE,
    known!(b"get\0\0\0\0\0\0\0\0\0\0\0\0\0", 3, Get),
    NONE,
    NONE,
    NONE,
    NONE,
    NONE,
    NONE,
    NONE,
    NONE,
    NONE,
    keyword!(b"const\0\0\0\0\0\0\0\0\0\0\0", 5, Const),
    keyword!(b"let\0\0\0\0\0\0\0\0\0\0\0\0\0", 3, Let),
    keyword!(b"extends\0\0\0\0\0\0\0\0\0", 7, Extends),
    NONE,
    known!(b"number\0\0\0\0\0\0\0\0\0\0", 6, Number),
    keyword!(b"new\0\0\0\0\0\0\0\0\0\0\0\0\0", 3, New),
    known!(b"asserts\0\0\0\0\0\0\0\0\0", 7, Asserts),
    NONE,
    NONE,
    NONE,
    NONE,
    NONE,
    NONE,
    known!(b"enum\0\0\0\0\0\0\0\0\0\0\0\0", 4, Enum),
    NONE,
    known!(b"is\0\0\0\0\0\0\0\0\0\0\0\0\0\0", 2, Is),
    NONE,
    NONE,
    NONE,
    NONE,
    NONE,
    keyword!(b"default\0\0\0\0\0\0\0\0\0", 7, Default_),
    NONE,
    known!(b"declare\0\0\0\0\0\0\0\0\0", 7, Declare),
    NONE,
    NONE,
    NONE,
    NONE,
    known!(b"keyof\0\0\0\0\0\0\0\0\0\0\0", 5, Keyof),
    NONE,
    literal!(b"true\0\0\0\0\0\0\0\0\0\0\0\0", 4, True),
    NONE,
    known!(b"async\0\0\0\0\0\0\0\0\0\0\0", 5, Async),
    known!(b"never\0\0\0\0\0\0\0\0\0\0\0", 5, Never),
    known!(b"target\0\0\0\0\0\0\0\0\0\0", 6, Target),
    NONE,
    NONE,
    NONE,
    NONE,
    NONE,
    NONE,
    NONE,
    keyword!(b"yield\0\0\0\0\0\0\0\0\0\0\0", 5, Yield),
    known!(b"boolean\0\0\0\0\0\0\0\0\0", 7, Boolean),
    keyword!(b"super\0\0\0\0\0\0\0\0\0\0\0", 5, Super),
    known!(b"meta\0\0\0\0\0\0\0\0\0\0\0\0", 4, Meta),
    NONE,
    known!(b"protected\0\0\0\0\0\0\0", 9, Protected),
    NONE,
    keyword!(b"with\0\0\0\0\0\0\0\0\0\0\0\0", 4, With),
    NONE,
    NONE,
    keyword!(b"delete\0\0\0\0\0\0\0\0\0\0", 6, Delete),
    NONE,
    NONE,
    NONE,
    NONE,
    NONE,
    known!(b"undefined\0\0\0\0\0\0\0", 9, Undefined),
    keyword!(b"switch\0\0\0\0\0\0\0\0\0\0", 6, Switch),
    NONE,
    keyword!(b"import\0\0\0\0\0\0\0\0\0\0", 6, Import),
    NONE,
    keyword!(b"break\0\0\0\0\0\0\0\0\0\0\0", 5, Break),
    NONE,
    keyword!(b"export\0\0\0\0\0\0\0\0\0\0", 6, Export),
    NONE,
    known!(b"symbol\0\0\0\0\0\0\0\0\0\0", 6, Symbol),
    NONE,
    known!(b"assert\0\0\0\0\0\0\0\0\0\0", 6, Assert),
    keyword!(b"typeof\0\0\0\0\0\0\0\0\0\0", 6, TypeOf),
    NONE,
    NONE,
    NONE,
    NONE,
    known!(b"abstract\0\0\0\0\0\0\0\0", 8, Abstract),
    NONE,
    NONE,
    NONE,
    NONE,
    NONE,
    known!(b"static\0\0\0\0\0\0\0\0\0\0", 6, Static),
    NONE,
    NONE,
    NONE,
    NONE,
    NONE,
    NONE,
    NONE,
    NONE,
    keyword!(b"void\0\0\0\0\0\0\0\0\0\0\0\0", 4, Void),
    NONE,
    NONE,
    keyword!(b"finally\0\0\0\0\0\0\0\0\0", 7, Finally),
    known!(b"type\0\0\0\0\0\0\0\0\0\0\0\0", 4, Type_),
    NONE,
    NONE,
    NONE,
    keyword!(b"await\0\0\0\0\0\0\0\0\0\0\0", 5, Await),
    keyword!(b"for\0\0\0\0\0\0\0\0\0\0\0\0\0", 3, For),
    known!(b"intrinsic\0\0\0\0\0\0\0", 9, Intrinsic),
    NONE,
    NONE,
    NONE,
    NONE,
    known!(b"require\0\0\0\0\0\0\0\0\0", 7, Require),
    NONE,
    NONE,
    NONE,
    NONE,
    NONE,
    known!(b"of\0\0\0\0\0\0\0\0\0\0\0\0\0\0", 2, Of),
    NONE,
    NONE,
    literal!(b"null\0\0\0\0\0\0\0\0\0\0\0\0", 4, Null),
    NONE,
    NONE,
    NONE,
    NONE,
    NONE,
    NONE,
    NONE,
    keyword!(b"this\0\0\0\0\0\0\0\0\0\0\0\0", 4, This),
    NONE,
    keyword!(b"do\0\0\0\0\0\0\0\0\0\0\0\0\0\0", 2, Do),
    keyword!(b"else\0\0\0\0\0\0\0\0\0\0\0\0", 4, Else),
    NONE,
    NONE,
    NONE,
    NONE,
    NONE,
    NONE,
    NONE,
    NONE,
    known!(b"any\0\0\0\0\0\0\0\0\0\0\0\0\0", 3, Any),
    NONE,
    NONE,
    NONE,
    NONE,
    known!(b"private\0\0\0\0\0\0\0\0\0", 7, Private),
    NONE,
    NONE,
    NONE,
    NONE,
    NONE,
    NONE,
    NONE,
    NONE,
    known!(b"bigint\0\0\0\0\0\0\0\0\0\0", 6, Bigint),
    keyword!(b"if\0\0\0\0\0\0\0\0\0\0\0\0\0\0", 2, If),
    NONE,
    known!(b"as\0\0\0\0\0\0\0\0\0\0\0\0\0\0", 2, As),
    NONE,
    NONE,
    NONE,
    NONE,
    NONE,
    NONE,
    keyword!(b"class\0\0\0\0\0\0\0\0\0\0\0", 5, Class),
    keyword!(b"case\0\0\0\0\0\0\0\0\0\0\0\0", 4, Case),
    NONE,
    NONE,
    NONE,
    NONE,
    known!(b"public\0\0\0\0\0\0\0\0\0\0", 6, Public),
    keyword!(b"in\0\0\0\0\0\0\0\0\0\0\0\0\0\0", 2, In),
    NONE,
    known!(b"implements\0\0\0\0\0\0", 10, Implements),
    known!(b"interface\0\0\0\0\0\0\0", 9, Interface),
    NONE,
    known!(b"set\0\0\0\0\0\0\0\0\0\0\0\0\0", 3, Set),
    keyword!(b"continue\0\0\0\0\0\0\0\0", 8, Continue),
    NONE,
    keyword!(b"instanceof\0\0\0\0\0\0", 10, InstanceOf),
    NONE,
    NONE,
    NONE,
    NONE,
    NONE,
    known!(b"unique\0\0\0\0\0\0\0\0\0\0", 6, Unique),
    keyword!(b"debugger\0\0\0\0\0\0\0\0", 8, Debugger),
    NONE,
    NONE,
    NONE,
    keyword!(b"return\0\0\0\0\0\0\0\0\0\0", 6, Return),
    NONE,
    NONE,
    NONE,
    NONE,
    NONE,
    NONE,
    NONE,
    NONE,
    NONE,
    NONE,
    NONE,
    NONE,
    NONE,
    NONE,
    known!(b"accessor\0\0\0\0\0\0\0\0", 8, Accessor),
    known!(b"unknown\0\0\0\0\0\0\0\0\0", 7, Unknown),
    NONE,
    keyword!(b"function\0\0\0\0\0\0\0\0", 8, Function),
    known!(b"package\0\0\0\0\0\0\0\0\0", 7, Package),
    NONE,
    NONE,
    NONE,
    known!(b"global\0\0\0\0\0\0\0\0\0\0", 6, Global),
    NONE,
    NONE,
    NONE,
    keyword!(b"var\0\0\0\0\0\0\0\0\0\0\0\0\0", 3, Var),
    known!(b"using\0\0\0\0\0\0\0\0\0\0\0", 5, Using),
    NONE,
    known!(b"infer\0\0\0\0\0\0\0\0\0\0\0", 5, Infer),
    known!(b"object\0\0\0\0\0\0\0\0\0\0", 6, Object),
    NONE,
    known!(b"string\0\0\0\0\0\0\0\0\0\0", 6, String),
    known!(b"satisfies\0\0\0\0\0\0\0", 9, Satisfies),
    NONE,
];

// The whole table: each row has its word's kind, and each word has its row.
#[inline(always)]
fn rows() -> &'static [Row; 256]
    ensures right { map row_kind result.now ≡ map row_word result.now }
    ensures all { length result.now ≡ 256 }
    ensures placed { list_all (is_placed result.now) table_of_words ≡ true }
{
    &ROWS
}

// Where a word of 2 to 10 bytes would be: no two words of the table have the same place.
#[inline(always)]
fn place_of(text: &[u8; 16], length: u32) -> usize
    requires { (2 ≤ length) × (length ≤ 10) }
    ensures place { result ≡ hash (take length text.now) }
    ensures below { result < 256 }
{
    let first = text[0] as u32;
    let second = text[1] as u32;
    let last = text[length as usize - 1] as u32;
    ((first * 207 + second * 192 + last * 34 + length * 227) % 256) as usize
}

// Whether the first `length` bytes are the same: 16 lanes are compared at once.
#[inline(always)]
fn same_front(left: &[u8; 16], right: &[u8; 16], length: u32) -> bool
    requires { length ≤ 16 }
    ensures { result ≡ pointwise nat_eq (take length left.now) (take length right.now) }
{
    let differ = u8x16::from_array(*left)
        .simd_ne(u8x16::from_array(*right))
        .to_bitmask();
    // With a bit behind the lanes there is a first one.
    (differ | 0x10000).trailing_zeros() >= length
}

/// What the word is that the first `length` of these 16 bytes spell; what follows them doesn't matter. It does not
/// allocate, and compares with one row at most.
///
/// Our own, for speed.
#[inline(always)]
pub fn kind_in(chunk: &[u8; 16], length: u32) -> WordKind
    requires { length ≤ 16 }
    ensures { result ≡ word_kind (word_of (take length chunk.now)) }
{
    if length < 2 || length > 10 {
        return WordKind::Ident(IdentKind::Other);
    }
    let row = &rows()[place_of(chunk, length)];
    if row.length == length && same_front(&row.text, chunk, length) {
        return row.kind;
    }
    WordKind::Ident(IdentKind::Other)
}

/// What the word with this text is. It does not allocate, and compares with one row at most.
pub(crate) fn kind_of(text: &str) -> WordKind
    ensures { result ≡ word_kind (word_of text.now) }
{
    let bytes = text.as_bytes();
    if bytes.len() > 10 {
        return WordKind::Ident(IdentKind::Other);
    }
    let mut chunk = [0; 16];
    chunk[..bytes.len()].copy_from_slice(bytes);
    kind_in(&chunk, bytes.len() as u32)
}
