//! Which files of a directory are read.
use ecma_command::file_names::{Chosen, is_chosen};
use std::test::Fail;

/// Names of what a directory holds, whether each is a directory, and whether it is read or looked into: as it is, with hidden ones,
/// and with those that have JSX.
const HELD: &[(&str, bool, bool, bool, bool)] = &[
    ("a.js", false, true, true, true),
    ("a.mjs", false, true, true, true),
    ("a.cjs", false, true, true, true),
    ("a.ts", false, true, true, true),
    ("a.d.ts", false, true, true, true),
    ("a.mts", false, true, true, true),
    ("a.cts", false, true, true, true),
    ("a.jsx", false, false, false, true),
    ("a.tsx", false, false, false, true),
    ("a.json", false, false, false, false),
    ("js", false, false, false, false),
    (".js", false, false, true, false),
    (".a.js", false, false, true, false),
    (".git", true, false, true, false),
    ("node_modules", true, false, true, false),
    ("node_modules.js", false, true, true, true),
    ("src", true, true, true, true),
    ("a.js", true, true, true, true),
];

#[test]
fn files_are_chosen(rt: HostRuntime) -> Result<(), Fail> {
    let plain = Chosen {
        hidden: false,
        as_is: false,
    };
    let hidden = Chosen {
        hidden: true,
        as_is: false,
    };
    let as_is = Chosen {
        hidden: false,
        as_is: true,
    };
    for (name, is_directory, in_plain, in_hidden, in_as_is) in HELD {
        let in_each = [plain, hidden, as_is].map(|chosen| is_chosen(chosen, name, *is_directory));
        assert!(rt; in_each == [*in_plain, *in_hidden, *in_as_is], "{name}");
    }
    Ok(())
}
