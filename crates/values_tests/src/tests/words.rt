//! The table of words both ways, conversions and printed texts.
use ecma_span::Atom;
use ecma_syntax::{IdentKind, IdentLike, Keyword, KnownIdent, Word, WordKind, laws};
use std::alloc::{AllocError, Global};
use std::convert::AsStr;
use std::hash::{DefaultHasher, Hash, Hasher};
use std::test::Fail;

const KEYWORDS: &[(&str, Keyword)] = &[
    ("await", Keyword::Await),
    ("break", Keyword::Break),
    ("case", Keyword::Case),
    ("catch", Keyword::Catch),
    ("continue", Keyword::Continue),
    ("debugger", Keyword::Debugger),
    ("default", Keyword::Default_),
    ("do", Keyword::Do),
    ("else", Keyword::Else),
    ("finally", Keyword::Finally),
    ("for", Keyword::For),
    ("function", Keyword::Function),
    ("if", Keyword::If),
    ("return", Keyword::Return),
    ("switch", Keyword::Switch),
    ("throw", Keyword::Throw),
    ("try", Keyword::Try),
    ("var", Keyword::Var),
    ("let", Keyword::Let),
    ("const", Keyword::Const),
    ("while", Keyword::While),
    ("with", Keyword::With),
    ("new", Keyword::New),
    ("this", Keyword::This),
    ("super", Keyword::Super),
    ("class", Keyword::Class),
    ("extends", Keyword::Extends),
    ("export", Keyword::Export),
    ("import", Keyword::Import),
    ("yield", Keyword::Yield),
    ("in", Keyword::In),
    ("instanceof", Keyword::InstanceOf),
    ("typeof", Keyword::TypeOf),
    ("void", Keyword::Void),
    ("delete", Keyword::Delete),
];

const NAMES: &[(&str, KnownIdent)] = &[
    ("abstract", KnownIdent::Abstract),
    ("as", KnownIdent::As),
    ("async", KnownIdent::Async),
    ("from", KnownIdent::From),
    ("of", KnownIdent::Of),
    ("type", KnownIdent::Type_),
    ("global", KnownIdent::Global),
    ("static", KnownIdent::Static),
    ("using", KnownIdent::Using),
    ("readonly", KnownIdent::Readonly),
    ("unique", KnownIdent::Unique),
    ("keyof", KnownIdent::Keyof),
    ("declare", KnownIdent::Declare),
    ("enum", KnownIdent::Enum),
    ("is", KnownIdent::Is),
    ("infer", KnownIdent::Infer),
    ("symbol", KnownIdent::Symbol),
    ("undefined", KnownIdent::Undefined),
    ("interface", KnownIdent::Interface),
    ("implements", KnownIdent::Implements),
    ("asserts", KnownIdent::Asserts),
    ("require", KnownIdent::Require),
    ("get", KnownIdent::Get),
    ("set", KnownIdent::Set),
    ("any", KnownIdent::Any),
    ("intrinsic", KnownIdent::Intrinsic),
    ("unknown", KnownIdent::Unknown),
    ("string", KnownIdent::String),
    ("object", KnownIdent::Object),
    ("number", KnownIdent::Number),
    ("bigint", KnownIdent::Bigint),
    ("boolean", KnownIdent::Boolean),
    ("never", KnownIdent::Never),
    ("assert", KnownIdent::Assert),
    ("namespace", KnownIdent::Namespace),
    ("accessor", KnownIdent::Accessor),
    ("meta", KnownIdent::Meta),
    ("target", KnownIdent::Target),
    ("satisfies", KnownIdent::Satisfies),
    ("package", KnownIdent::Package),
    ("protected", KnownIdent::Protected),
    ("private", KnownIdent::Private),
    ("public", KnownIdent::Public),
];

/// Whether the word of a text is of this kind, and has the text by itself, as an atom and printed.
fn has_text(alloc: Global, text: &str, kind: WordKind) -> Result<bool, AllocError> {
    let word = Word::from_str(text);
    let shown = format!(in alloc; "{:?}", word)?;
    let is_shown = word.kind() == kind && word.as_str() == text && shown.as_str() == text;
    let atom = Atom::from(word);
    Ok(is_shown && atom.as_str() == text)
}

/// Whether the keyword has this text, is printed with it in quotes, and the text is that of no known name.
fn is_keyword(alloc: Global, text: &str, keyword: Keyword) -> Result<bool, AllocError> {
    let shown = format!(in alloc; "{:?}", keyword)?;
    let want = format!(in alloc; "keyword '{}'", text)?;
    Ok(
        shown.as_str() == want.as_str()
            && keyword.as_str() == text
            && text.parse::<KnownIdent>() == Err(()),
    )
}

#[test]
fn keywords_both_ways(rt: HostRuntime) -> Result<(), Fail> {
    for (text, keyword) in KEYWORDS {
        assert!(rt;
            Word::from_str(*text) == Word::from(*keyword)
                && has_text(rt.alloc(), *text, WordKind::from(*keyword))?
                && is_keyword(rt.alloc(), *text, *keyword)?,
            "{text}"
        );
    }
    Ok(())
}

/// Whether the known name has this text by itself, as an atom and printed, and is read from it.
fn is_known(alloc: Global, text: &str, known: KnownIdent) -> Result<bool, AllocError> {
    let shown = format!(in alloc; "{}", known)?;
    let atom = Atom::from(known);
    Ok(
        shown.as_str() == text
            && atom.as_str() == text
            && known.as_str() == text
            && <&'static str>::from(known) == text
            && text.parse::<KnownIdent>() == Ok(known),
    )
}

#[test]
fn names_both_ways(rt: HostRuntime) -> Result<(), Fail> {
    for (text, known) in NAMES {
        let kind = WordKind::Ident(IdentKind::Known(*known));
        assert!(rt;
            Word::from_str(*text) == Word::Ident(IdentLike::Known(*known))
                && has_text(rt.alloc(), *text, kind)?
                && is_known(rt.alloc(), *text, *known)?,
            "{text}"
        );
    }
    Ok(())
}

#[test]
fn names_are_in_order(rt: HostRuntime) {
    let mut last = KnownIdent::Abstract;
    for (text, known) in NAMES.iter().skip(1) {
        assert!(rt; last < *known, "at {text}");
        last = *known;
    }
}

#[test]
fn literal_words_both_ways(rt: HostRuntime) -> Result<(), Fail> {
    let rows = [
        ("null", WordKind::Null),
        ("true", WordKind::True),
        ("false", WordKind::False),
    ];
    for (text, kind) in rows {
        assert!(rt; has_text(rt.alloc(), text, kind)?, "{text}");
    }
    Ok(())
}

/// Whether a copy of the text's word borrows the text.
fn is_copied_borrowed(alloc: Global, text: &str) -> Result<bool, AllocError> {
    let word = Word::from_str(text);
    let atom = Atom::from(word.copy(alloc)?);
    Ok(atom.is_borrowed() && atom.as_str() == text)
}

/// Near misses of the table, lengths beside it, other scripts.
const OTHER_NAMES: &[&str] = &[
    "",
    "a",
    "Await",
    "awaits",
    "awaiT",
    "zz",
    "{o",
    "d o",
    "types",
    "implement",
    "implementss",
    "instanceoff",
    "default_",
    "é",
    "日本",
];

/// Each is an other name that borrows its text.
#[test]
fn other_names(rt: HostRuntime) -> Result<(), Fail> {
    let kind = WordKind::Ident(IdentKind::Other);
    for text in OTHER_NAMES {
        assert!(rt; has_text(rt.alloc(), *text, kind)? && is_copied_borrowed(rt.alloc(), *text)?);
    }
    Ok(())
}

/// None is a known name.
#[test]
fn other_names_are_not_known(rt: HostRuntime) {
    for text in OTHER_NAMES {
        assert!(rt; text.parse::<KnownIdent>() == Err(()));
    }
}

fn hash_of(word: &Word) -> u64 {
    let mut hasher = DefaultHasher::new();
    word.hash(&mut hasher);
    hasher.finish()
}

fn text_of<T: AsStr>(text: &T) -> &str {
    text.as_str()
}

fn owned_name(alloc: Global, text: &str) -> Result<IdentLike<'static>, AllocError> {
    Ok(IdentLike::Other(Atom::from(String::from_str(alloc, text)?)))
}

/// A word that owns its text equals the one that borrows it, hashes as it, and is copied with its text.
#[test]
fn owned_words(rt: HostRuntime) -> Result<(), Fail> {
    let owned = Word::Ident(owned_name(rt.alloc(), "value")?);
    let copy = owned.copy(rt.alloc())?;
    let borrowed = Word::from_str("value");
    let is_same = copy == borrowed && hash_of(&copy) == hash_of(&borrowed);
    let is_other = copy != Word::from_str("values");
    let atom = Atom::from(copy);
    assert!(rt; is_same && is_other && !atom.is_borrowed());
    Ok(())
}

/// Whether the name is of this kind, and has this text by itself, as an atom and printed.
fn is_named(
    alloc: Global,
    name: IdentLike,
    kind: IdentKind,
    text: &str,
) -> Result<bool, AllocError> {
    let shown = format!(in alloc; "{}", name)?;
    let is_shown = name.kind() == kind && text_of(&name) == text && shown.as_str() == text;
    let atom = Atom::from(name);
    Ok(is_shown && atom.as_str() == text)
}

#[test]
fn names_by_themselves(rt: HostRuntime) -> Result<(), Fail> {
    let known = KnownIdent::Type_;
    assert!(rt;
        IdentLike::from("type") == IdentLike::Known(known)
            && is_named(
                rt.alloc(),
                IdentLike::from("type"),
                IdentKind::Known(known),
                "type"
            )?
            && is_named(rt.alloc(), IdentLike::from("let"), IdentKind::Other, "let")?
    );
    Ok(())
}

/// A copy of a name that owns its text equals one that borrows it, is printed so, and owns its own.
#[test]
fn owned_names(rt: HostRuntime) -> Result<(), Fail> {
    let owned = owned_name(rt.alloc(), "let")?;
    let copy = owned.copy(rt.alloc())?;
    let is_same = copy == IdentLike::from("let");
    let is_read = is_named(rt.alloc(), owned, IdentKind::Other, "let")?;
    let atom = Atom::from(copy);
    assert!(rt; is_same && is_read && atom.as_str() == "let" && !atom.is_borrowed());
    Ok(())
}

#[test]
fn laws_do_nothing() {
    laws::words_read_back();
    laws::words_keep_their_text();
    laws::words_are_looked_up();
    laws::operators_keep_their_text();
}
