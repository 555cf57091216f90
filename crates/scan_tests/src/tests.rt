//! What each reader finds of texts, a module to a reader.
use ecma_scan::SkipWhitespace;

mod blanks;
mod expressions;
mod gaps;
mod numbers;
mod punctuators;
mod strings;
mod templates;
mod words;
mod written;

#[test]
fn skips_white_space(rt: HostRuntime) {
    let mut skip = SkipWhitespace {
        input: "a \u{a0}\nb",
        offset: 1,
        newline: false,
    };
    skip.scan();
    assert_eq!(rt; skip.offset, 5);
    assert!(rt; skip.newline);
}
