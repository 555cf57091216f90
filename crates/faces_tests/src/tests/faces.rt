//! What is told of texts: rows over each face, with what the command wrote before its faces could be called.
use clap::ArgMatches;
use ecma_command::words::{Among, Asked, Face, Named, command, is_by_flag, slash_places};
use ecma_faces::telling::tell;
use ecma_options::Options;
use ecma_place::{BytePos, StringInput};
use ecma_positions::Columns;
use ecma_report::report::{Report, Stop};
use std::alloc::{AllocError, Global};
use std::io::{self, Write};
use std::process::Abort;
use std::test::Fail;

/// The words of the command line, a text, whether it is faulty, and what is written of it and of its faults.
type Told = (&'static str, &'static str, bool, &'static str, &'static str);

/// Rows of tokens.
const TOKENS: &[Told] = &[
    (
        "tokens",
        "let a = /b/g; // c\n",
        false,
        "keyword 0 3 lf let\nname 4 5 - a\npunctuator 6 7 - =\nregexp 8 12 - /b/g\npunctuator 12 13 - ;\n",
        "",
    ),
    (
        "tokens --lines",
        "let a = /b/g; // c\n",
        false,
        "keyword 1:1 0 3 lf let\nname 1:5 4 5 - a\npunctuator 1:7 6 7 - =\nregexp 1:9 8 12 - /b/g\npunctuator 1:13 12 13 - ;\n",
        "",
    ),
    (
        "tokens --json",
        "a.if\n`x${null}y` 1n 'b'",
        false,
        "{\"column\":1,\"file\":\"a.js\",\"hi\":1,\"kind\":\"name\",\"line\":1,\"line_break_before\":true,\"lo\":0,\"text\":\"a\"}\n{\"column\":2,\"file\":\"a.js\",\"hi\":2,\"kind\":\"punctuator\",\"line\":1,\"line_break_before\":false,\"lo\":1,\"text\":\".\"}\n{\"column\":3,\"file\":\"a.js\",\"hi\":4,\"kind\":\"property\",\"line\":1,\"line_break_before\":false,\"lo\":2,\"text\":\"if\"}\n{\"column\":1,\"file\":\"a.js\",\"hi\":6,\"kind\":\"template\",\"line\":2,\"line_break_before\":true,\"lo\":5,\"text\":\"`\"}\n{\"column\":2,\"file\":\"a.js\",\"hi\":7,\"kind\":\"template\",\"line\":2,\"line_break_before\":false,\"lo\":6,\"text\":\"x\"}\n{\"column\":3,\"file\":\"a.js\",\"hi\":9,\"kind\":\"punctuator\",\"line\":2,\"line_break_before\":false,\"lo\":7,\"text\":\"${\"}\n{\"column\":5,\"file\":\"a.js\",\"hi\":13,\"kind\":\"literal\",\"line\":2,\"line_break_before\":false,\"lo\":9,\"text\":\"null\"}\n{\"column\":9,\"file\":\"a.js\",\"hi\":14,\"kind\":\"punctuator\",\"line\":2,\"line_break_before\":false,\"lo\":13,\"text\":\"}\"}\n{\"column\":10,\"file\":\"a.js\",\"hi\":15,\"kind\":\"template\",\"line\":2,\"line_break_before\":false,\"lo\":14,\"text\":\"y\"}\n{\"column\":11,\"file\":\"a.js\",\"hi\":16,\"kind\":\"template\",\"line\":2,\"line_break_before\":false,\"lo\":15,\"text\":\"`\"}\n{\"column\":13,\"file\":\"a.js\",\"hi\":19,\"kind\":\"number\",\"line\":2,\"line_break_before\":false,\"lo\":17,\"text\":\"1n\"}\n{\"column\":16,\"file\":\"a.js\",\"hi\":23,\"kind\":\"string\",\"line\":2,\"line_break_before\":false,\"lo\":20,\"text\":\"'b'\"}\n",
        "",
    ),
    (
        "tokens --lines",
        "\"\\\t\" é\r\n𝒳",
        false,
        "string 1:1 0 4 lf \"\\\\\t\"\nname 1:6 5 7 - é\nname 2:1 9 13 lf 𝒳\n",
        "",
    ),
    (
        "tokens",
        "a = \"\n1__0",
        true,
        "name 0 1 lf a\npunctuator 2 3 - =\nstring 4 5 - \"\nnumber 6 10 lf 1__0\n",
        "a.js:1:5: Unterminated string constant\na.js:2:1: A numeric separator is only allowed between two digits\n",
    ),
    (
        "tokens --lines",
        "a = \"\n1__0",
        true,
        "name 1:1 0 1 lf a\npunctuator 1:3 2 3 - =\nstring 1:5 4 5 - \"\nnumber 2:1 6 10 lf 1__0\n",
        "a.js:1:5: Unterminated string constant\na.js:2:1: A numeric separator is only allowed between two digits\n",
    ),
    ("tokens", "", false, "", ""),
    ("tokens --json", "", false, "", ""),
    (
        "tokens --lines",
        "#!x\n@ \\",
        true,
        "comment 1:1 0 3 - #!x\npunctuator 2:1 4 5 lf @\nerror 2:3 6 7 - \\\\\n",
        "a.js:2:3: Expected unicode escape\n",
    ),
    (
        "tokens --json",
        "#!x\n@ \\",
        true,
        "{\"column\":1,\"file\":\"a.js\",\"hi\":3,\"kind\":\"comment\",\"line\":1,\"line_break_before\":false,\"lo\":0,\"text\":\"#!x\"}\n{\"column\":1,\"file\":\"a.js\",\"hi\":5,\"kind\":\"punctuator\",\"line\":2,\"line_break_before\":true,\"lo\":4,\"text\":\"@\"}\n{\"column\":3,\"file\":\"a.js\",\"hi\":7,\"kind\":\"error\",\"line\":2,\"line_break_before\":false,\"lo\":6,\"text\":\"\\\\\"}\n",
        "a.js:2:3: Expected unicode escape\n",
    ),
    (
        "tokens",
        "a /b/ c /d/",
        false,
        "name 0 1 lf a\npunctuator 2 3 - /\nname 3 4 - b\npunctuator 4 5 - /\nname 6 7 - c\npunctuator 8 9 - /\nname 9 10 - d\npunctuator 10 11 - /\n",
        "",
    ),
    (
        "tokens --slash 8",
        "a /b/ c /d/",
        false,
        "name 0 1 lf a\npunctuator 2 3 - /\nname 3 4 - b\npunctuator 4 5 - /\nname 6 7 - c\nregexp 8 11 - /d/\n",
        "",
    ),
    (
        "tokens --slash 2 --slash 8",
        "a /b/ c /d/",
        false,
        "name 0 1 lf a\nregexp 2 5 - /b/\nname 6 7 - c\nregexp 8 11 - /d/\n",
        "",
    ),
    (
        "tokens --slash 8 --slash 2 --slash 3 --slash 90",
        "a /b/ c /d/",
        true,
        "name 0 1 lf a\nregexp 2 5 - /b/\nname 6 7 - c\nregexp 8 11 - /d/\n",
        "a.js: no slash is read at the place 3\na.js: no slash is read at the place 90\n",
    ),
    (
        "tokens --slash 0 --json",
        "a /b/ c /d/",
        true,
        "{\"column\":1,\"file\":\"a.js\",\"hi\":1,\"kind\":\"name\",\"line\":1,\"line_break_before\":true,\"lo\":0,\"text\":\"a\"}\n{\"column\":3,\"file\":\"a.js\",\"hi\":3,\"kind\":\"punctuator\",\"line\":1,\"line_break_before\":false,\"lo\":2,\"text\":\"/\"}\n{\"column\":4,\"file\":\"a.js\",\"hi\":4,\"kind\":\"name\",\"line\":1,\"line_break_before\":false,\"lo\":3,\"text\":\"b\"}\n{\"column\":5,\"file\":\"a.js\",\"hi\":5,\"kind\":\"punctuator\",\"line\":1,\"line_break_before\":false,\"lo\":4,\"text\":\"/\"}\n{\"column\":7,\"file\":\"a.js\",\"hi\":7,\"kind\":\"name\",\"line\":1,\"line_break_before\":false,\"lo\":6,\"text\":\"c\"}\n{\"column\":9,\"file\":\"a.js\",\"hi\":9,\"kind\":\"punctuator\",\"line\":1,\"line_break_before\":false,\"lo\":8,\"text\":\"/\"}\n{\"column\":10,\"file\":\"a.js\",\"hi\":10,\"kind\":\"name\",\"line\":1,\"line_break_before\":false,\"lo\":9,\"text\":\"d\"}\n{\"column\":11,\"file\":\"a.js\",\"hi\":11,\"kind\":\"punctuator\",\"line\":1,\"line_break_before\":false,\"lo\":10,\"text\":\"/\"}\n",
        "a.js: no slash is read at the place 0\n",
    ),
    // A slash with which template text begins is part of that.
    (
        "tokens --slash 1 --slash 5",
        "`/x``/\\u`",
        true,
        "template 0 1 lf `\ntemplate 1 3 - /x\ntemplate 3 4 - `\ntemplate 4 5 - `\ntemplate 5 8 - /\\\\u\ntemplate 8 9 - `\n",
        "a.js: no slash is read at the place 1\na.js: no slash is read at the place 5\n",
    ),
    (
        "tokens --ts",
        "let a = /b/g; // c\n",
        false,
        "keyword 0 3 lf let\nname 4 5 - a\npunctuator 6 7 - =\nregexp 8 12 - /b/g\npunctuator 12 13 - ;\n",
        "",
    ),
];

/// Rows of errors, in order of place.
const ERRORS: &[Told] = &[
    (
        "errors --lines",
        "a = \"\n1__0",
        true,
        "recorded 1:5 4 5 Unterminated string constant\nrecorded 2:1 6 7 A numeric separator is only allowed between two digits\n",
        "",
    ),
    (
        "errors --json",
        "a = \"\n1__0",
        true,
        "{\"column\":5,\"file\":\"a.js\",\"hi\":5,\"kind\":\"recorded\",\"line\":1,\"lo\":4,\"text\":\"Unterminated string constant\"}\n{\"column\":1,\"file\":\"a.js\",\"hi\":7,\"kind\":\"recorded\",\"line\":2,\"lo\":6,\"text\":\"A numeric separator is only allowed between two digits\"}\n",
        "",
    ),
    (
        "errors",
        "await 08\n<!-- c\n",
        false,
        "waiting 6 8 Legacy decimal escape is not permitted in strict mode\nwaiting 9 16 Legacy comments cannot be used in module code\n",
        "",
    ),
    (
        "errors --module",
        "await 08\n<!-- c\n",
        true,
        "recorded 6 8 Legacy decimal escape is not permitted in strict mode\nrecorded 9 16 Legacy comments cannot be used in module code\n",
        "",
    ),
    (
        "errors --strict",
        "await 08\n<!-- c\n",
        true,
        "recorded 6 8 Legacy decimal escape is not permitted in strict mode\nwaiting 9 16 Legacy comments cannot be used in module code\n",
        "",
    ),
    (
        "errors",
        "#!x\n@ \\",
        true,
        "token 6 6 Expected unicode escape\n",
        "",
    ),
    (
        "errors --slash 9",
        "a /b/ c /d/",
        true,
        "",
        "a.js: no slash is read at the place 9\n",
    ),
    ("errors", "let a = /b/g; // c\n", false, "", ""),
    // Each message as it is.
    (
        "errors",
        "a = \"\n\\ 1\n\u{1}\n<!-- c\n1__0",
        true,
        "recorded 4 5 Unterminated string constant\ntoken 6 6 Expected unicode escape\ntoken 10 10 Unexpected character '\\u{1}'\nwaiting 12 19 Legacy comments cannot be used in module code\nrecorded 19 20 A numeric separator is only allowed between two digits\n",
        "",
    ),
    // Columns in bytes, and in units of UTF-16.
    (
        "errors --lines",
        "\"é\u{1F600}\" 1__0",
        true,
        "recorded 1:10 9 10 A numeric separator is only allowed between two digits\n",
        "",
    ),
    (
        "errors --lines --columns utf16",
        "\"é\u{1F600}\" 1__0",
        true,
        "recorded 1:7 9 10 A numeric separator is only allowed between two digits\n",
        "",
    ),
    (
        "errors --with-filename --lines",
        "\u{1}",
        true,
        "a.js:token 1:1 0 0 Unexpected character '\\u{1}'\n",
        "",
    ),
    (
        "tokens --with-filename",
        "a\u{1}",
        true,
        "a.js:name 0 1 lf a\na.js:error 1 2 - \u{1}\n",
        "a.js:1:2: Unexpected character '\\u{1}'\n",
    ),
    (
        "tokens --with-filename --no-filename",
        "a",
        false,
        "name 0 1 lf a\n",
        "",
    ),
];

/// Rows of tokens with their values: in a line a field of JSON before the text.
const VALUES: &[Told] = &[
    (
        "tokens --values",
        "if ('a\\x62 c') fo\\u006f;",
        false,
        "keyword 0 2 lf \"if\" if\npunctuator 3 4 - - (\nstring 4 13 - \"ab c\" 'a\\\\x62 c'\npunctuator 13 14 - - )\nname 15 23 - \"foo\" fo\\\\u006f\npunctuator 23 24 - - ;\n",
        "",
    ),
    // 2^53 - 1 is the last whole number that is told.
    (
        "tokens --values --lines",
        "0xF_F 9007199254740991 9007199254740992 1e3 1_0n 017",
        false,
        "number 1:1 0 5 lf 255 0xF_F\nnumber 1:7 6 22 - 9007199254740991 9007199254740991\nnumber 1:24 23 39 - [10,\"9007199254740992\"] 9007199254740992\nnumber 1:41 40 43 - [10,\"1e3\"] 1e3\nnumber 1:45 44 48 - [10,\"10\"] 1_0n\nnumber 1:50 49 52 - 15 017\n",
        "",
    ),
    // In a template CR and LF stand for LF; a text with an escape that is refused stands for nothing.
    (
        "tokens --values",
        "`a\r\n${b}\\u`",
        false,
        "template 0 1 lf - `\ntemplate 1 4 lf \"a\\n\" a\\r\\n\npunctuator 4 6 - - ${\nname 6 7 - \"b\" b\npunctuator 7 8 - - }\ntemplate 8 10 - null \\\\u\ntemplate 10 11 - - `\n",
        "",
    ),
    // An escape of a surrogate stays as it is spelled, also in a pair.
    (
        "tokens --values",
        "'\\ud83d\\ude00' '\\u{1F600}'",
        false,
        "string 0 14 lf \"\\\\ud83d\\\\ude00\" '\\\\ud83d\\\\ude00'\nstring 15 26 - \"😀\" '\\\\u{1F600}'\n",
        "",
    ),
    (
        "tokens --values",
        "#!x\n/a \"b/gi; null \\",
        true,
        "comment 0 3 - - #!x\nregexp 4 12 lf [\"a \\\"b\",\"gi\"] /a \"b/gi\npunctuator 12 13 - - ;\nliteral 14 18 - \"null\" null\nerror 19 20 - - \\\\\n",
        "a.js:2:16: Expected unicode escape\n",
    ),
    (
        "tokens --values --json",
        "0b1_1/a/g;",
        false,
        "{\"column\":1,\"digits\":\"11\",\"file\":\"a.js\",\"hi\":5,\"kind\":\"number\",\"line\":1,\"line_break_before\":true,\"lo\":0,\"radix\":2,\"text\":\"0b1_1\",\"value\":3}\n{\"column\":6,\"file\":\"a.js\",\"hi\":6,\"kind\":\"punctuator\",\"line\":1,\"line_break_before\":false,\"lo\":5,\"text\":\"/\"}\n{\"column\":7,\"file\":\"a.js\",\"hi\":7,\"kind\":\"name\",\"line\":1,\"line_break_before\":false,\"lo\":6,\"text\":\"a\",\"value\":\"a\"}\n{\"column\":8,\"file\":\"a.js\",\"hi\":8,\"kind\":\"punctuator\",\"line\":1,\"line_break_before\":false,\"lo\":7,\"text\":\"/\"}\n{\"column\":9,\"file\":\"a.js\",\"hi\":9,\"kind\":\"name\",\"line\":1,\"line_break_before\":false,\"lo\":8,\"text\":\"g\",\"value\":\"g\"}\n{\"column\":10,\"file\":\"a.js\",\"hi\":10,\"kind\":\"punctuator\",\"line\":1,\"line_break_before\":false,\"lo\":9,\"text\":\";\"}\n",
        "",
    ),
    (
        "tokens --values --json",
        "/a/g,'\\\"',1.5,0x1n,`\\u`",
        false,
        "{\"column\":1,\"file\":\"a.js\",\"flags\":\"g\",\"hi\":4,\"kind\":\"regexp\",\"line\":1,\"line_break_before\":true,\"lo\":0,\"pattern\":\"a\",\"text\":\"/a/g\"}\n{\"column\":5,\"file\":\"a.js\",\"hi\":5,\"kind\":\"punctuator\",\"line\":1,\"line_break_before\":false,\"lo\":4,\"text\":\",\"}\n{\"column\":6,\"file\":\"a.js\",\"hi\":9,\"kind\":\"string\",\"line\":1,\"line_break_before\":false,\"lo\":5,\"text\":\"'\\\\\\\"'\",\"value\":\"\\\"\"}\n{\"column\":10,\"file\":\"a.js\",\"hi\":10,\"kind\":\"punctuator\",\"line\":1,\"line_break_before\":false,\"lo\":9,\"text\":\",\"}\n{\"column\":11,\"digits\":\"1.5\",\"file\":\"a.js\",\"hi\":13,\"kind\":\"number\",\"line\":1,\"line_break_before\":false,\"lo\":10,\"radix\":10,\"text\":\"1.5\"}\n{\"column\":14,\"file\":\"a.js\",\"hi\":14,\"kind\":\"punctuator\",\"line\":1,\"line_break_before\":false,\"lo\":13,\"text\":\",\"}\n{\"column\":15,\"digits\":\"1\",\"file\":\"a.js\",\"hi\":18,\"kind\":\"number\",\"line\":1,\"line_break_before\":false,\"lo\":14,\"radix\":16,\"text\":\"0x1n\"}\n{\"column\":19,\"file\":\"a.js\",\"hi\":19,\"kind\":\"punctuator\",\"line\":1,\"line_break_before\":false,\"lo\":18,\"text\":\",\"}\n{\"column\":20,\"file\":\"a.js\",\"hi\":20,\"kind\":\"template\",\"line\":1,\"line_break_before\":false,\"lo\":19,\"text\":\"`\"}\n{\"column\":21,\"file\":\"a.js\",\"hi\":22,\"kind\":\"template\",\"line\":1,\"line_break_before\":false,\"lo\":20,\"text\":\"\\\\u\",\"value\":null}\n{\"column\":23,\"file\":\"a.js\",\"hi\":23,\"kind\":\"template\",\"line\":1,\"line_break_before\":false,\"lo\":22,\"text\":\"`\"}\n",
        "",
    ),
];

/// Rows of comments.
const COMMENTS: &[Told] = &[
    (
        "comments --lines",
        "/*a*/ b // c\n/*d\n*/ e",
        false,
        "block 1:1 0 5 leading 6 a\nline 1:9 8 12 trailing 7  c\nblock 2:1 13 19 leading 20 d\\n\n",
        "",
    ),
    (
        "comments --json",
        "/*a*/ b // c\n/*d\n*/ e",
        false,
        "{\"column\":1,\"file\":\"a.js\",\"hi\":5,\"kind\":\"block\",\"line\":1,\"lo\":0,\"side\":\"leading\",\"text\":\"a\",\"token\":6}\n{\"column\":9,\"file\":\"a.js\",\"hi\":12,\"kind\":\"line\",\"line\":1,\"lo\":8,\"side\":\"trailing\",\"text\":\" c\",\"token\":7}\n{\"column\":1,\"file\":\"a.js\",\"hi\":19,\"kind\":\"block\",\"line\":2,\"lo\":13,\"side\":\"leading\",\"text\":\"d\\n\",\"token\":20}\n",
        "",
    ),
    (
        "comments",
        "a = \"\n1__0",
        true,
        "",
        "a.js:1:5: Unterminated string constant\na.js:2:1: A numeric separator is only allowed between two digits\n",
    ),
    (
        "comments",
        "await 08\n<!-- c\n",
        false,
        "line 10 15 trailing 8  c\n",
        "",
    ),
    (
        "comments --slash 0",
        "let a = /b/g; // c\n",
        true,
        "line 14 18 trailing 13  c\n",
        "a.js: no slash is read at the place 0\n",
    ),
];

/// Rows of what is imported.
const IMPORTS: &[Told] = &[
    (
        "imports --lines",
        "import a from 'b'\nexport * from \"c\"; import('d')",
        false,
        "static 1:15 14 17 'b'\nreexport 2:15 32 35 \"c\"\ndynamic 2:27 44 47 'd'\n",
        "",
    ),
    (
        "imports --ts",
        "let a: import('b').C; class D { import(e) {} }",
        false,
        "dynamic 14 17 type 'b'\n",
        "",
    ),
    (
        "imports --slashes flag",
        "class D { import(e) {} }",
        false,
        "dynamic 17 18 e\n",
        "",
    ),
    (
        "imports --json",
        "import a from 'b' with {}\nexport * from \"c\"",
        false,
        "{\"column\":15,\"file\":\"a.js\",\"hi\":17,\"kind\":\"static\",\"line\":1,\"lo\":14,\"phase\":\"evaluation\",\"statement_hi\":25,\"statement_lo\":0,\"text\":\"'b'\",\"type\":false,\"with_hi\":25,\"with_lo\":23}\n{\"column\":15,\"file\":\"a.js\",\"hi\":43,\"kind\":\"reexport\",\"line\":2,\"lo\":40,\"phase\":\"evaluation\",\"statement_hi\":43,\"statement_lo\":26,\"text\":\"\\\"c\\\"\",\"type\":false}\n",
        "",
    ),
    (
        "imports --ts",
        "import type { T } from 't'; import e = require('e'); declare module 'm';",
        false,
        "static 23 26 type 't'\nequals 47 50 'e'\nambient 68 71 'm'\n",
        "",
    ),
    (
        "imports",
        "import defer * as d from 'd'; import(a + b); import.meta.url; require('r')",
        false,
        "static 25 28 defer 'd'\ndynamic 37 42 a + b\nmeta 45 56 import.meta\n",
        "",
    ),
    (
        "imports --commonjs",
        "const r = require('r')",
        false,
        "require 18 21 'r'\n",
        "",
    ),
    (
        "imports",
        "a = \"\n1__0",
        true,
        "",
        "a.js:1:5: Unterminated string constant\na.js:2:1: A numeric separator is only allowed between two digits\n",
    ),
    (
        "imports --slash 1",
        "a /b/ c /d/",
        true,
        "",
        "a.js: no slash is read at the place 1\n",
    ),
];

/// Rows of what is exported.
const EXPORTS: &[Told] = &[
    (
        "exports --lines",
        "export { a as b, c };\nexport default 1",
        false,
        "export 1:15 14 15 a b\nexport 1:18 17 18 c c\nexport 2:8 29 36 - default\n",
        "",
    ),
    (
        "exports --ts",
        "export type T = 1; export const { x, y: [z] } = w, v = 1",
        false,
        "type 12 13 T T\nexport 34 35 x x\nexport 41 42 z z\nexport 51 52 v v\n",
        "",
    ),
    (
        "exports --json",
        "export { a as \"b\" }",
        false,
        "{\"column\":15,\"file\":\"a.js\",\"hi\":17,\"kind\":\"export\",\"line\":1,\"lo\":14,\"local\":\"a\",\"text\":\"\\\"b\\\"\",\"type\":false}\n",
        "",
    ),
];

/// Texts as a whole: the canonical text, the pieces, and HTML.
const WHOLE: &[Told] = &[
    (
        "canonical",
        "let a = /b/g; // c\n",
        false,
        "let a = /b/g ;",
        "",
    ),
    (
        "canonical --json",
        "\"\\\t\" é\r\n𝒳",
        false,
        "{\"file\":\"a.js\",\"text\":\"\\\"\\\\\\t\\\" é\\n𝒳\"}\n",
        "",
    ),
    (
        "canonical",
        "a = \"\n1__0",
        true,
        "",
        "a.js:1:5: Unterminated string constant\na.js:2:1: A numeric separator is only allowed between two digits\n",
    ),
    (
        "canonical --slash 2",
        "a /b/ c /d/",
        false,
        "a /b/ c / d /",
        "",
    ),
    (
        "canonical --slash 3",
        "a /b/ c /d/",
        true,
        "a / b / c / d /",
        "a.js: no slash is read at the place 3\n",
    ),
    (
        "canonical --json",
        "",
        false,
        "{\"file\":\"a.js\",\"text\":\"\"}\n",
        "",
    ),
    (
        "classes",
        "/*a*/ b // c\n/*d\n*/ e",
        false,
        "comment 0 5 /*a*/\ntrivia 5 6  \ntoken 6 7 b\ntrivia 7 8  \ncomment 8 12 // c\ntrivia 12 13 \\n\ncomment 13 19 /*d\\n*/\ntrivia 19 20  \ntoken 20 21 e\n",
        "",
    ),
    (
        "classes --json",
        "let a = /b/g; // c\n",
        false,
        "{\"column\":1,\"file\":\"a.js\",\"hi\":3,\"kind\":\"token\",\"line\":1,\"lo\":0,\"text\":\"let\"}\n{\"column\":4,\"file\":\"a.js\",\"hi\":4,\"kind\":\"trivia\",\"line\":1,\"lo\":3,\"text\":\" \"}\n{\"column\":5,\"file\":\"a.js\",\"hi\":5,\"kind\":\"token\",\"line\":1,\"lo\":4,\"text\":\"a\"}\n{\"column\":6,\"file\":\"a.js\",\"hi\":6,\"kind\":\"trivia\",\"line\":1,\"lo\":5,\"text\":\" \"}\n{\"column\":7,\"file\":\"a.js\",\"hi\":7,\"kind\":\"token\",\"line\":1,\"lo\":6,\"text\":\"=\"}\n{\"column\":8,\"file\":\"a.js\",\"hi\":8,\"kind\":\"trivia\",\"line\":1,\"lo\":7,\"text\":\" \"}\n{\"column\":9,\"file\":\"a.js\",\"hi\":12,\"kind\":\"token\",\"line\":1,\"lo\":8,\"text\":\"/b/g\"}\n{\"column\":13,\"file\":\"a.js\",\"hi\":13,\"kind\":\"token\",\"line\":1,\"lo\":12,\"text\":\";\"}\n{\"column\":14,\"file\":\"a.js\",\"hi\":14,\"kind\":\"trivia\",\"line\":1,\"lo\":13,\"text\":\" \"}\n{\"column\":15,\"file\":\"a.js\",\"hi\":18,\"kind\":\"comment\",\"line\":1,\"lo\":14,\"text\":\"// c\"}\n{\"column\":19,\"file\":\"a.js\",\"hi\":19,\"kind\":\"trivia\",\"line\":1,\"lo\":18,\"text\":\"\\n\"}\n",
        "",
    ),
    (
        "classes",
        "#!x\n@ \\",
        true,
        "token 0 3 #!x\ntrivia 3 4 \\n\ntoken 4 5 @\ntrivia 5 6  \ntoken 6 7 \\\\\n",
        "a.js:2:3: Expected unicode escape\n",
    ),
    (
        "classes --slash 5",
        "a /b/ c /d/",
        true,
        "token 0 1 a\ntrivia 1 2  \ntoken 2 3 /\ntoken 3 4 b\ntoken 4 5 /\ntrivia 5 6  \ntoken 6 7 c\ntrivia 7 8  \ntoken 8 9 /\ntoken 9 10 d\ntoken 10 11 /\n",
        "a.js: no slash is read at the place 5\n",
    ),
    (
        "html",
        "if (a < b) c = '&' // <\r",
        false,
        "<pre class=\"ecma\">\n<span class=\"keyword\">if</span> (<span class=\"name\">a</span> &lt; <span class=\"name\">b</span>) <span class=\"name\">c</span> = <span class=\"string\">'&amp;'</span> <span class=\"comment\">// &lt;</span>&#13;</pre>\n",
        "",
    ),
    (
        "html --json",
        "if (a < b) c = '&' // <\r",
        false,
        "{\"file\":\"a.js\",\"text\":\"<pre class=\\\"ecma\\\">\\n<span class=\\\"keyword\\\">if</span> (<span class=\\\"name\\\">a</span> &lt; <span class=\\\"name\\\">b</span>) <span class=\\\"name\\\">c</span> = <span class=\\\"string\\\">'&amp;'</span> <span class=\\\"comment\\\">// &lt;</span>&#13;</pre>\\n\"}\n",
        "",
    ),
    (
        "html",
        "a = \"\n1__0",
        true,
        "<pre class=\"ecma\">\n<span class=\"name\">a</span> = <span class=\"error\">\"</span>\n<span class=\"error\">1__0</span></pre>\n",
        "a.js:1:5: Unterminated string constant\na.js:2:1: A numeric separator is only allowed between two digits\n",
    ),
    (
        "html --module",
        "<!-- a",
        true,
        "<pre class=\"ecma\">\n<span class=\"error\">&lt;</span><span class=\"comment\">!-- a</span></pre>\n",
        "a.js:1:1: Legacy comments cannot be used in module code\n",
    ),
    // An error that counts in a module alone is not marked.
    (
        "html",
        "<!-- a",
        false,
        "<pre class=\"ecma\">\n&lt;<span class=\"comment\">!-- a</span></pre>\n",
        "",
    ),
    ("html", "", false, "<pre class=\"ecma\">\n</pre>\n", ""),
];

/// The words of a line, behind the name of the command.
fn words_of(alloc: Global, line: &str) -> Result<Vec<String>, AllocError> {
    let mut words = Vec::new(alloc);
    words.push(String::from_str(alloc, "ecma")?)?;
    for word in line.split(' ') {
        words.push(String::from_str(alloc, word)?)?;
    }
    Ok(words)
}

/// Whether these rows and faults are told of a text.
fn is_written<'t>(
    alloc: Global,
    asked: Asked,
    among: Among,
    named: Named<'t>,
    text: &'t str,
    wanted: (bool, &str, &str),
) -> Result<bool, AllocError> {
    if !StringInput::fits(text, BytePos(0)) {
        return Ok(false);
    }
    let (is_faulty, rows, faults) = wanted;
    let mut report = Report::new(alloc, asked, "a.js", text);
    report.among = among;
    let mut out = Vec::new(alloc);
    if tell(&mut report, named, &mut out).is_err() {
        return Ok(false);
    }
    Ok(
        out.as_slice() == rows.as_bytes()
            && report.faults.as_slice() == faults.as_bytes()
            && report.is_faulty == is_faulty,
    )
}

/// Whether this is told of a text, as the words behind a subcommand ask.
fn is_told_by(
    alloc: Global,
    name: &str,
    behind: &ArgMatches,
    told: &Told,
) -> Result<bool, AllocError> {
    let Some(asked) = Asked::of(name, behind, false) else {
        return Ok(false);
    };
    let places = slash_places(alloc, behind)?;
    let named = Named {
        places: &places,
        by_flag: is_by_flag(behind),
    };
    let (_, text, is_faulty, rows, faults) = *told;
    let wanted = (is_faulty, rows, faults);
    is_written(alloc, asked, Among::of(behind, false), named, text, wanted)
}

/// Whether this is told of a text.
fn is_told(alloc: Global, told: &Told) -> Result<bool, AllocError> {
    let command = command(alloc)?;
    let words = words_of(alloc, told.0)?;
    let Ok(matches) = command.try_get_matches_from(&words) else {
        return Ok(false);
    };
    match matches.subcommand() {
        Some((name, behind)) => is_told_by(alloc, name, behind, told),
        None => Ok(false),
    }
}

/// Asserts that all of this is told.
fn assert_told(rt: &impl Abort, alloc: Global, all: &[Told]) -> Result<(), Fail> {
    for told in all {
        assert!(rt; is_told(alloc, told)?, "{} of {}", told.0, told.1);
    }
    Ok(())
}

#[test]
fn tokens_are_told(rt: HostRuntime) -> Result<(), Fail> {
    assert_told(&rt, rt.alloc(), TOKENS)
}

#[test]
fn values_are_told(rt: HostRuntime) -> Result<(), Fail> {
    assert_told(&rt, rt.alloc(), VALUES)
}

#[test]
fn errors_are_told(rt: HostRuntime) -> Result<(), Fail> {
    assert_told(&rt, rt.alloc(), ERRORS)
}

#[test]
fn comments_are_told(rt: HostRuntime) -> Result<(), Fail> {
    assert_told(&rt, rt.alloc(), COMMENTS)
}

#[test]
fn imports_are_told(rt: HostRuntime) -> Result<(), Fail> {
    assert_told(&rt, rt.alloc(), IMPORTS)
}

#[test]
fn exports_are_told(rt: HostRuntime) -> Result<(), Fail> {
    assert_told(&rt, rt.alloc(), EXPORTS)
}

#[test]
fn texts_are_told_as_a_whole(rt: HostRuntime) -> Result<(), Fail> {
    assert_told(&rt, rt.alloc(), WHOLE)
}

/// A writer that takes so many bytes in all, and tells how often it was written to.
#[derive(Drop)]
struct Pipe {
    room: usize,
    writes: usize,
}

impl Write for Pipe {
    fn write(&mut self, buf: &[u8]) -> io::Result<usize> {
        self.writes = self.writes.saturating_add(1);
        if self.room == 0 {
            return Err(io::Error::from(io::ErrorKind::BrokenPipe));
        }
        let count = buf.len().min(self.room);
        self.room -= count;
        Ok(count)
    }

    fn flush(&mut self) -> io::Result<()> {
        Ok(())
    }
}

fn asked(face: Face) -> Asked {
    Asked {
        face,
        options: Options::default(),
        json: false,
        lines: false,
        columns: Columns::Bytes,
        colours: false,
        commonjs: false,
        values: false,
        page: false,
    }
}

/// So many lines with three tokens each, and before and behind them a token that is an error.
fn long_text(alloc: Global, lines: usize) -> Result<String, AllocError> {
    let mut text = String::from_str(alloc, "\\\n")?;
    for _ in 0..lines {
        text.push_str("a = 1\n")?;
    }
    text.push_str("\\\n")?;
    Ok(text)
}

/// What is told to a writer of a long text that has this room: why it stopped, how often it was written to, and how many bytes the
/// faults have.
fn told_to(
    alloc: Global,
    face: Face,
    room: usize,
) -> Result<(Result<(), Stop>, usize, usize), AllocError> {
    let text = long_text(alloc, 20_000)?;
    let mut pipe = Pipe { room, writes: 0 };
    if !StringInput::fits(text.as_str(), BytePos(0)) {
        return Ok((Err(Stop::OutOfMemory), 0, 0));
    }
    let mut report = Report::new(alloc, asked(face), "a.js", text.as_str());
    let named = Named {
        places: &[],
        by_flag: false,
    };
    let told = tell(&mut report, named, &mut pipe);
    Ok((told, pipe.writes, report.faults.len()))
}

/// How many bytes tell of the first error of `long_text`. Of the last one four more do, whose line has five digits.
const FAULT: usize = "a.js:1:1: Expected unicode escape\n".len();

#[test]
fn rows_leave_in_blocks(rt: HostRuntime) -> Result<(), Fail> {
    // 60,000 rows of 15 to 25 bytes.
    let (told, writes, faults) = told_to(rt.alloc(), Face::Tokens, usize::MAX)?;
    assert!(rt; told.is_ok());
    assert!(rt; 10 <= writes && writes <= 30, "{writes}");
    assert!(rt; faults == 2 * FAULT + 4);
    Ok(())
}

#[test]
fn a_closed_pipe_ends_the_reading(rt: HostRuntime) -> Result<(), Fail> {
    // Errors are told at the end.
    for room in [0, 1, 65_535] {
        let (told, writes, faults) = told_to(rt.alloc(), Face::Tokens, room)?;
        assert!(rt; matches!(told, Err(Stop::Closed)));
        assert!(rt; writes <= 2, "{writes}");
        assert!(rt; faults == 0);
    }
    Ok(())
}

#[test]
fn canonical_texts_of_several_files_end_with_a_line_feed(rt: HostRuntime) -> Result<(), Fail> {
    let several = Among {
        several: true,
        names: true,
    };
    let named = Named {
        places: &[],
        by_flag: false,
    };
    for (face, wanted) in [
        (Face::Canonical, "a + b\n"),
        (
            Face::Tokens,
            "a.js:name 0 1 lf a\na.js:punctuator 1 2 - +\na.js:name 2 3 - b\n",
        ),
    ] {
        assert!(rt;
            is_written(
                rt.alloc(),
                asked(face),
                several,
                named,
                "a+b",
                (false, wanted, "")
            )?,
            "{wanted}"
        );
    }
    Ok(())
}
