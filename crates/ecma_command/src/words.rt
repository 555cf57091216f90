//! The words of the command line.
ghost use Rattle.std.specs.Prelude.{◌≡◌};
ghost use Rattle.ecma_command.specs.FileNames.{for_file};
ghost use Rattle.ecma_command.specs.Options.{has_rows, takes};

use crate::file_names::{is_module, is_typescript};
use clap::{Arg, ArgAction, ArgMatches, Command, value_parser};
use ecma_options::Options;
use ecma_positions::Columns;
use ecma_span::BytePos;
use std::alloc::{AllocError, Global};

/// What is reported of each text.
#[derive(Clone, Copy, Debug, PartialEq, Eq)]
pub enum Face {
    Tokens,
    Comments,
    Errors,
    Canonical,
    Classes,
    Html,
    Show,
    Imports,
    Exports,
}

impl Face {
    /// Each, in the order in which help names them.
    const ALL: [Face; 9] = [
        Face::Tokens,
        Face::Comments,
        Face::Errors,
        Face::Canonical,
        Face::Classes,
        Face::Html,
        Face::Show,
        Face::Imports,
        Face::Exports,
    ];

    /// The subcommand that asks for it.
    fn name<'a>(self) -> &'a str {
        match self {
            Face::Tokens => "tokens",
            Face::Comments => "comments",
            Face::Errors => "errors",
            Face::Canonical => "canonical",
            Face::Classes => "classes",
            Face::Html => "html",
            Face::Show => "show",
            Face::Imports => "imports",
            Face::Exports => "exports",
        }
    }

    /// What help says of it.
    fn help<'a>(self) -> &'a str {
        match self {
            Face::Tokens =>
                "A line for each token: what it is, where it is, lf behind a line break, its bytes",
            Face::Comments => "A line for each comment, with its side and the place of its token",
            Face::Errors => "A line for each error, also of those that count in a module alone",
            Face::Canonical => "The one text of all texts with these tokens",
            Face::Classes => "A line for each piece of the text: token, comment or trivia",
            Face::Html => "The text as HTML, with a span for each class",
            Face::Show => "The text with line numbers and colours, and errors below their lines",
            Face::Imports => "A line for each import: how the module is named, where, and its name",
            Face::Exports =>
                "A line for each name that a module exports, with its name in the module",
        }
    }

    /// Whether it writes rows, which may have lines and columns.
    fn has_rows(self) -> bool
        ensures { result ≡ has_rows self }
    {
        match self {
            Face::Tokens
            | Face::Comments
            | Face::Errors
            | Face::Classes
            | Face::Imports
            | Face::Exports => true,
            Face::Canonical | Face::Html | Face::Show => false,
        }
    }

    /// Whether this option has a meaning for it.
    fn takes(self, option: &str) -> bool
        ensures { result ≡ takes self option.now }
    {
        match option {
            "values" => self == Face::Tokens,
            "commonjs" => self == Face::Imports,
            "page" => self == Face::Html,
            "color" => self == Face::Show,
            "columns" => self != Face::Show,
            "lines" => self.has_rows(),
            "with-filename" | "no-filename" => self.has_rows() || self == Face::Show,
            _ => true,
        }
    }

    /// What a subcommand asks for.
    fn named(word: &str) -> Option<Face> {
        for face in Face::ALL {
            if face.name() == word {
                return Some(face);
            }
        }
        None
    }
}

/// What columns may count, as words name it.
const COLUMNS: &[&str] = &["bytes", "utf16"];

/// What columns count, as the words say.
fn columns_of(matches: &ArgMatches) -> Columns {
    if matches.get_str("columns") == Some("utf16") {
        Columns::Utf16
    } else {
        Columns::Bytes
    }
}

/// What the words ask for of every file.
#[derive(Clone, Copy, Debug)]
pub struct Asked {
    pub face: Face,
    pub options: Options,
    pub json: bool,
    pub lines: bool,
    /// What columns count, in lines, objects and faults.
    pub columns: Columns,
    /// Whether a text is shown in colours.
    pub colours: bool,
    /// Whether imports have a row for each `require("x")` of CommonJS.
    pub commonjs: bool,
    /// Whether rows of tokens tell their values.
    pub values: bool,
    /// Whether HTML is a whole page.
    pub page: bool,
}

impl Asked {
    /// What a subcommand asks for, with the words behind it; nothing where there is no such subcommand. `colours` says whether
    /// standard output takes colours, where no word says so.
    pub fn of(subcommand: &str, matches: &ArgMatches, colours: bool) -> Option<Asked> {
        let face = Face::named(subcommand)?;
        Some(Asked {
            face,
            options: Options {
                typescript: matches.get_flag("ts"),
                module: matches.get_flag("module"),
                strict: matches.get_flag("strict"),
                standard: matches.get_flag("standard"),
            },
            json: matches.get_flag("json"),
            lines: matches.get_flag("lines"),
            columns: columns_of(matches),
            colours: match matches.get_str("color") {
                Some("always") => true,
                Some("never") => false,
                _ => colours,
            },
            commonjs: matches.get_flag("commonjs"),
            values: matches.get_flag("values"),
            page: matches.get_flag("page"),
        })
    }

    /// The same for a file: its ending may say that it is TypeScript, or a module.
    pub fn for_file(self, name: &str) -> Asked
        ensures { result ≡ for_file self name.now }
    {
        Asked {
            options: Options {
                typescript: self.options.typescript || is_typescript(name),
                module: self.options.module || is_module(name),
                ..self.options
            },
            ..self
        }
    }
}

/// How the files of a run stand in what is written.
#[derive(Clone, Copy, Debug, PartialEq, Eq)]
pub struct Among {
    /// Whether several files may be read: each whole text then ends with a line feed.
    pub several: bool,
    /// Whether each line names its file.
    pub names: bool,
}

impl Among {
    /// What the words ask for where several files may be read, or one: each line of several names its file, where no word says
    /// otherwise.
    pub fn of(matches: &ArgMatches, several: bool) -> Among {
        let names = several || matches.get_flag("with-filename");
        Among {
            several,
            names: names && !matches.get_flag("no-filename"),
        }
    }
}

/// Which slashes begin regular expressions, as the words say.
#[derive(Clone, Copy, Debug)]
pub struct Named<'a> {
    /// Those at these places, where there are any and they ascend, as those of [`slash_places`] do.
    pub places: &'a [BytePos],
    /// Else those that the lexer's own flag says, and not those where the tokens before expect an operand.
    pub by_flag: bool,
}

/// The rules by which a slash may be told.
const RULES: &[&str] = &["role", "flag"];

/// The words that are there or not, with their help.
const FLAGS: &[(&str, &str)] = &[
    (
        "ts",
        "Read as TypeScript, as files ending in .ts, .mts and .cts are",
    ),
    (
        "module",
        "Read as a module, as files ending in .mjs and .mts are",
    ),
    ("strict", "Read as strict code"),
    (
        "standard",
        "Refuse numbers that ECMA-262 refuses, where the lexer of swc takes them",
    ),
    (
        "as-is",
        "Read files ending in .jsx and .tsx too, as JavaScript and TypeScript: JSX is misread",
    ),
    (
        "commonjs",
        "With imports, write a line for each string that require of CommonJS is called with too",
    ),
    (
        "values",
        "With tokens, write what each means too: what strings stand for, names without escapes, numbers",
    ),
    (
        "page",
        "With html, write a whole page: with a stylesheet, light and dark, and line numbers",
    ),
    ("json", "Write one JSON object a line"),
    ("lines", "Write line:column beside byte places"),
    (
        "with-filename",
        "Name the file in each line, as where several files may be read",
    ),
    ("no-filename", "Name the file in no line"),
    (
        "hidden",
        "With -r, look into hidden files and directories and into node_modules too",
    ),
];

/// The words that files are named by.
fn file_words<'a>(alloc: Global, command: Command<'a>) -> Result<Command<'a>, AllocError> {
    let files = Arg::new(alloc, "files")
        .value_name("FILE")
        .num_args(0..)
        .help("The files; standard input where there is none, and for -");
    let list = Arg::new(alloc, "files-from")
        .long("files-from")
        .value_name("LIST")
        .help("Read the files too that this file names, one a line; - is standard input");
    let recursive = Arg::new(alloc, "recursive")
        .long("recursive")
        .short('r')
        .action(ArgAction::SetTrue)
        .help("Read the files in directories, by their endings, in order of their paths");
    let null = Arg::new(alloc, "null")
        .long("null")
        .short('0')
        .action(ArgAction::SetTrue)
        .requires_arg("files-from")?
        .help("With --files-from, each name ends with a NUL, and not with its line");
    command.arg(files)?.arg(list)?.arg(null)?.arg(recursive)
}

/// The words that name slashes.
fn slash_words<'a>(alloc: Global, command: Command<'a>) -> Result<Command<'a>, AllocError> {
    let slash = Arg::new(alloc, "slash")
        .long("slash")
        .value_name("N")
        .value_parser(value_parser!(u32))
        .action(ArgAction::Append)
        .help(
            "Read the slash at the byte place N as a regular expression, and no other; once for each",
        );
    let slashes = Arg::new(alloc, "slashes")
        .long("slashes")
        .value_name("RULE")
        .value_parser(RULES)
        .help(
            "Tell regular expressions by the tokens before them (role, if left out), or by the lexer's own flag (flag)",
        );
    command.arg(slash)?.arg(slashes)
}

/// When colours are written, as words name it.
const COLORS: &[&str] = &["auto", "always", "never"];

/// Adds an option, where it has a meaning for what is asked for.
fn with_option<'a>(
    command: Command<'a>,
    face: Face,
    option: &str,
    arg: Arg<'a>,
) -> Result<Command<'a>, AllocError> {
    if face.takes(option) {
        command.arg(arg)
    } else {
        Ok(command)
    }
}

/// The words that say what columns count, and when colours are written.
fn look_words<'a>(
    alloc: Global,
    command: Command<'a>,
    face: Face,
) -> Result<Command<'a>, AllocError> {
    let columns = Arg::new(alloc, "columns")
        .long("columns")
        .value_name("UNIT")
        .value_parser(COLUMNS)
        .help("Count columns in bytes (bytes, if left out), or in units of UTF-16 (utf16)");
    let color = Arg::new(alloc, "color")
        .long("color")
        .value_name("WHEN")
        .value_parser(COLORS)
        .help(
            "With show, write colours always, never, or into a terminal (auto, if left out) where NO_COLOR is not set",
        );
    let command = with_option(command, face, "columns", columns)?;
    with_option(command, face, "color", color)
}

/// The subcommand that asks for this, with its help.
fn subcommand<'a>(alloc: Global, face: Face) -> Result<Command<'a>, AllocError> {
    let command = Command::new(alloc, face.name()).about(face.help());
    let command = slash_words(alloc, file_words(alloc, command)?)?;
    let mut command = look_words(alloc, command, face)?;
    for (name, help) in FLAGS {
        let flag = Arg::new(alloc, name)
            .long(name)
            .action(ArgAction::SetTrue)
            .help(help);
        command = with_option(command, face, name, flag)?;
    }
    Ok(command)
}

/// The command line as it is parsed, with its help.
pub fn command<'a>(alloc: Global) -> Result<Command<'a>, AllocError> {
    let mut command = Command::new(alloc, "ecma")
        .bin_name("ecma")?
        .version("0.1.0")
        .about("Tells what the lexer finds in ECMAScript and TypeScript")
        .subcommand_required(true);
    for face in Face::ALL {
        command = command.subcommand(subcommand(alloc, face)?)?;
    }
    Ok(command)
}

/// Whether the words say that slashes are told by the lexer's own flag.
pub fn is_by_flag(matches: &ArgMatches) -> bool {
    matches.get_str("slashes") == Some("flag")
}

/// The places of the slashes that the words name, in order and each once.
///
/// # Errors
///
/// `AllocError` where there is no memory.
pub fn slash_places(alloc: Global, matches: &ArgMatches) -> Result<Vec<BytePos>, AllocError> {
    let mut places = Vec::new(alloc);
    if let Some(named) = matches.get_many::<u32>("slash") {
        for place in named {
            // A word that is no number was refused when the words were parsed.
            if let Ok(place) = place {
                places.push(BytePos(place))?;
            }
        }
    }
    places.sort_unstable();
    places.dedup();
    Ok(places)
}
