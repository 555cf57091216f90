//! The settings as data, key by key, their defaults and their questions.
use ecma_syntax::{
    EsConfig, EsSyntax, EsVersion, JscTarget, NumberRule, Syntax, TsConfig, TsSyntax,
};
use std::alloc::{AllocError, Global};
use std::test::Fail;

const OFF: EsSyntax = EsSyntax {
    jsx: false,
    fn_bind: false,
    decorators: false,
    decorators_before_export: false,
    export_default_from: false,
    import_attributes: false,
    allow_super_outside_method: false,
    allow_return_outside_function: false,
    auto_accessors: false,
    explicit_resource_management: false,
};

/// Each option of ECMAScript alone, under its key, in the order in which they are written.
const ES_OPTIONS: &[(&str, EsSyntax)] = &[
    ("jsx", EsSyntax { jsx: true, ..OFF }),
    (
        "functionBind",
        EsSyntax {
            fn_bind: true,
            ..OFF
        },
    ),
    (
        "decorators",
        EsSyntax {
            decorators: true,
            ..OFF
        },
    ),
    (
        "decoratorsBeforeExport",
        EsSyntax {
            decorators_before_export: true,
            ..OFF
        },
    ),
    (
        "exportDefaultFrom",
        EsSyntax {
            export_default_from: true,
            ..OFF
        },
    ),
    (
        "importAttributes",
        EsSyntax {
            import_attributes: true,
            ..OFF
        },
    ),
    (
        "allowSuperOutsideMethod",
        EsSyntax {
            allow_super_outside_method: true,
            ..OFF
        },
    ),
    (
        "allowReturnOutsideFunction",
        EsSyntax {
            allow_return_outside_function: true,
            ..OFF
        },
    ),
    (
        "autoAccessors",
        EsSyntax {
            auto_accessors: true,
            ..OFF
        },
    ),
    (
        "explicitResourceManagement",
        EsSyntax {
            explicit_resource_management: true,
            ..OFF
        },
    ),
];

/// The text of the options of a table, with the one of this key on.
fn written<T>(
    alloc: Global,
    tag: &str,
    options: &[(&str, T)],
    on: &str,
) -> Result<String, AllocError> {
    let mut text = format!(in alloc; "{{\"syntax\":\"{}\"", tag)?;
    for (key, _) in options {
        let value = if *key == on { "true" } else { "false" };
        text.push_str(",\"")?;
        text.push_str(*key)?;
        text.push_str("\":")?;
        text.push_str(value)?;
    }
    text.push_str("}")?;
    Ok(text)
}

/// Whether these are the options that a text says.
fn reads_as(alloc: Global, text: &str, options: Syntax) -> Result<bool, Fail> {
    let read: Syntax = serde_json::from_str(alloc, text)?;
    Ok(read == options)
}

/// Whether this is the text that options are written as.
fn writes_as(alloc: Global, options: Syntax, text: &str) -> Result<bool, Fail> {
    let written = serde_json::to_string(alloc, &options)?;
    Ok(written.as_str() == text)
}

#[test]
fn es_options_read(rt: HostRuntime) -> Result<(), Fail> {
    for (key, options) in ES_OPTIONS {
        let on = format!(in rt.alloc(); "{{\"syntax\":\"ecmascript\",\"{}\":true}}", key)?;
        assert!(rt;
            reads_as(rt.alloc(), on.as_str(), Syntax::Es(*options))?,
            "{key}"
        );
        let off = format!(in rt.alloc(); "{{\"{}\":false,\"syntax\":\"ecmascript\"}}", key)?;
        assert!(rt;
            reads_as(rt.alloc(), off.as_str(), Syntax::default())?,
            "{key}"
        );
    }
    Ok(())
}

#[test]
fn es_options_written(rt: HostRuntime) -> Result<(), Fail> {
    for (key, options) in ES_OPTIONS {
        let want = written(rt.alloc(), "ecmascript", ES_OPTIONS, *key)?;
        let syntax = Syntax::Es(*options);
        assert!(rt; writes_as(rt.alloc(), syntax, want.as_str())?, "{key}");
        assert!(rt; reads_as(rt.alloc(), want.as_str(), syntax)?, "{key}");
    }
    Ok(())
}

#[test]
fn ts_options(rt: HostRuntime) -> Result<(), Fail> {
    let off = TsSyntax::default();
    let rows = [
        ("tsx", TsSyntax { tsx: true, ..off }),
        (
            "decorators",
            TsSyntax {
                decorators: true,
                ..off
            },
        ),
    ];
    for (key, options) in rows {
        let syntax = Syntax::Typescript(options);
        let text = format!(in rt.alloc(); "{{\"syntax\":\"typescript\",\"{}\":true}}", key)?;
        assert!(rt; reads_as(rt.alloc(), text.as_str(), syntax)?, "{key}");
        let want = written(rt.alloc(), "typescript", &rows, key)?;
        assert!(rt; writes_as(rt.alloc(), syntax, want.as_str())?, "{key}");
    }
    Ok(())
}

/// Three options of TypeScript have no key: they are not written.
#[test]
fn skipped_options(rt: HostRuntime) -> Result<(), Fail> {
    let off = TsSyntax::default();
    let rows = [
        TsSyntax { dts: true, ..off },
        TsSyntax {
            no_early_errors: true,
            ..off
        },
        TsSyntax {
            disallow_ambiguous_jsx_like: true,
            ..off
        },
    ];
    for options in rows {
        let text = serde_json::to_string(rt.alloc(), &Syntax::Typescript(options))?;
        let again: Syntax = serde_json::from_str(rt.alloc(), text.as_str())?;
        assert!(rt;
            text.as_str() == "{\"syntax\":\"typescript\",\"tsx\":false,\"decorators\":false}"
                && again == Syntax::Typescript(off)
        );
    }
    Ok(())
}

#[test]
fn options_alone(rt: HostRuntime) -> Result<(), Fail> {
    let es: EsConfig = serde_json::from_str(rt.alloc(), "{\"functionBind\":true}")?;
    let es_wanted = EsSyntax {
        fn_bind: true,
        ..EsSyntax::default()
    };
    let ts: TsConfig = serde_json::from_str(rt.alloc(), "{\"tsx\":true}")?;
    let ts_wanted = TsSyntax {
        tsx: true,
        ..TsSyntax::default()
    };
    let unknown: Result<Syntax, serde_json::Error> = serde_json::from_str(
        rt.alloc(),
        "{\"syntax\":\"flow\"}",
    );
    assert!(rt; es == es_wanted && ts == ts_wanted && unknown.is_err());
    Ok(())
}

/// The ten questions that have an option of ECMAScript, in the order of `ES_OPTIONS`.
fn answers(syntax: Syntax) -> [bool; 10] {
    [
        syntax.jsx(),
        syntax.fn_bind(),
        syntax.decorators(),
        syntax.decorators_before_export(),
        syntax.export_default_from(),
        syntax.import_attributes(),
        syntax.allow_super_outside_method(),
        syntax.allow_return_outside_function(),
        syntax.auto_accessors(),
        syntax.explicit_resource_management(),
    ]
}

#[test]
fn questions_of_ecmascript(rt: HostRuntime) {
    for (at, (key, options)) in ES_OPTIONS.iter().enumerate() {
        for (asked, answer) in answers(Syntax::Es(*options)).iter().enumerate() {
            assert!(rt; *answer == (asked == at), "question {asked} under {key}");
        }
    }
    let es = Syntax::default();
    assert!(rt;
        answers(es) == [false; 10]
            && !es.typescript()
            && !es.dts()
            && !es.disallow_ambiguous_jsx_like()
            && es.early_errors()
    );
}

#[test]
fn questions_of_typescript(rt: HostRuntime) {
    let off = TsSyntax::default();
    let ts = Syntax::Typescript(off);
    let want = [
        false, false, false, true, false, true, true, false, true, true,
    ];
    let early = TsSyntax {
        no_early_errors: true,
        ..off
    };
    let decorated = TsSyntax {
        decorators: true,
        ..off
    };
    let unambiguous = TsSyntax {
        disallow_ambiguous_jsx_like: true,
        ..off
    };
    assert!(rt;
        answers(ts) == want
            && ts.typescript()
            && !ts.dts()
            && !ts.disallow_ambiguous_jsx_like()
            && ts.early_errors()
            && Syntax::Typescript(TsSyntax { tsx: true, ..off }).jsx()
            && Syntax::Typescript(decorated).decorators()
            && Syntax::Typescript(TsSyntax { dts: true, ..off }).dts()
            && !Syntax::Typescript(early).early_errors()
            && Syntax::Typescript(unambiguous).disallow_ambiguous_jsx_like()
    );
}

#[test]
fn versions_are_in_order(rt: HostRuntime) {
    let rows = [
        EsVersion::Es3,
        EsVersion::Es5,
        EsVersion::Es2015,
        EsVersion::Es2016,
        EsVersion::Es2017,
        EsVersion::Es2018,
        EsVersion::Es2019,
        EsVersion::Es2020,
        EsVersion::Es2021,
        EsVersion::Es2022,
        EsVersion::EsNext,
    ];
    let mut last = EsVersion::Es3;
    for version in rows.iter().skip(1) {
        assert!(rt; last < *version);
        last = *version;
    }
    assert!(rt; JscTarget::default() == EsVersion::Es5);
}

#[test]
fn rules_of_numbers(rt: HostRuntime) -> Result<(), Fail> {
    let rows = [
        (NumberRule::default(), "\"crate\""),
        (NumberRule::Crate, "\"crate\""),
        (NumberRule::Standard, "\"standard\""),
    ];
    for (rule, text) in rows {
        let put = serde_json::to_string(rt.alloc(), &rule)?;
        let read: NumberRule = serde_json::from_str(rt.alloc(), text)?;
        assert!(rt; put.as_str() == text && read == rule, "{text}");
    }
    Ok(())
}
