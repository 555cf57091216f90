//! Which words are no names, by context.
use ecma_syntax::{Context, Word};

fn strict() -> Context {
    Context {
        strict: true,
        ..Context::default()
    }
}

/// Whether the word of a text is reserved in the context.
fn reserves(context: Context, text: &str) -> bool {
    context.is_reserved(&Word::from_str(text))
}

/// Each word with whether it is reserved by default and under strict mode.
const WORDS: &[(&str, bool, bool)] = &[
    ("null", true, true),
    ("true", true, true),
    ("false", true, true),
    ("enum", true, true),
    ("break", true, true),
    ("instanceof", true, true),
    ("let", false, true),
    ("yield", false, true),
    ("await", false, false),
    ("static", false, true),
    ("implements", false, true),
    ("interface", false, true),
    ("package", false, true),
    ("private", false, true),
    ("protected", false, true),
    ("public", false, true),
    ("async", false, false),
    ("of", false, false),
    ("type", false, false),
    ("value", false, false),
];

#[test]
fn by_default_and_strict(rt: HostRuntime) {
    for (text, plain, under_strict) in WORDS {
        assert!(rt;
            reserves(Context::default(), *text) == *plain
                && reserves(strict(), *text) == *under_strict,
            "{text}"
        );
    }
}

#[test]
fn await_and_yield(rt: HostRuntime) {
    let plain = Context::default();
    let rows = [
        (
            Context {
                in_async: true,
                ..plain
            },
            true,
            false,
        ),
        (
            Context {
                in_static_block: true,
                ..plain
            },
            true,
            false,
        ),
        (
            Context {
                module: true,
                ..plain
            },
            true,
            false,
        ),
        (
            Context {
                in_generator: true,
                ..plain
            },
            false,
            true,
        ),
        (
            Context {
                can_be_module: true,
                in_function: true,
                in_class: true,
                ..plain
            },
            false,
            false,
        ),
    ];
    for (context, await_is, yield_is) in rows {
        assert!(rt;
            reserves(context, "await") == await_is
                && reserves(context, "yield") == yield_is
                && !reserves(context, "let")
                && reserves(context, "enum")
        );
    }
}
