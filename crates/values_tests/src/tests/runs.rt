//! Runs of bytes of one class, around the length of a lane.
use ecma_place::{ByteClass, BytePos, Quote, StringInput};
use std::alloc::{AllocError, Global};
use std::test::Fail;

// Each class, some of its bytes, and characters that end its runs.
const CLASSES: &[(ByteClass, &str, &str)] = &[
    (
        ByteClass::Blank,
        "\t\u{b}\u{c} ",
        "\n\r\u{8}\0a\u{85}\u{feff}",
    ),
    (ByteClass::Part, "$_azAZ09m5", "@[`{/:-# \u{7f}é€😀"),
    (ByteClass::Plain(Quote::Single), "a\"*`\0\t ", "'\\\r\n"),
    (ByteClass::Plain(Quote::Double), "a'*`\0\t ", "\"\\\r\n"),
    (ByteClass::Line, "a*/'\"\\\t ", "\r\n\u{2028}\u{2029}€"),
    (ByteClass::Block, "a/'\"\\\t ", "*\r\n\u{2028}\u{2029}€"),
    (
        ByteClass::Template,
        "a{}'\"*/\0\t ",
        "`$\\\r\n\u{2028}\u{2029}€",
    ),
];

const LENGTHS: &[usize] = &[0, 1, 31, 32, 33, 63, 64, 65];

// `é`, and behind it a run of so many of the bytes.
fn text_of(alloc: Global, members: &str, count: usize) -> Result<String, AllocError> {
    let mut text = String::from_str(alloc, "é")?;
    for c in members.chars().cycle().take(count) {
        text.push(c)?;
    }
    Ok(text)
}

// The run behind the first character of the text.
fn run_behind_first(text: &str, class: ByteClass) -> Option<u32> {
    if !StringInput::fits(text, BytePos(7)) {
        return None;
    }
    let mut input = StringInput::new(text, BytePos(7));
    input.cur()?;
    input.bump();
    Some(input.run_bytes(class))
}

#[test]
fn ends_with_the_text(rt: HostRuntime) -> Result<(), Fail> {
    for (class, members, _) in CLASSES {
        for count in LENGTHS {
            let text = text_of(rt.alloc(), *members, *count)?;
            let run = run_behind_first(text.as_str(), *class);
            assert!(rt; run == Some(*count as u32), "{class:?}");
        }
    }
    Ok(())
}

/// So many members before a character, and members behind it.
fn text_before(
    alloc: Global,
    members: &str,
    count: usize,
    end: char,
) -> Result<String, AllocError> {
    let mut text = text_of(alloc, members, count)?;
    text.push(end)?;
    text.push_str(members)?;
    Ok(text)
}

#[test]
fn ends_before_a_byte_outside(rt: HostRuntime) -> Result<(), Fail> {
    for (class, members, ends) in CLASSES {
        for count in LENGTHS {
            for end in ends.chars() {
                let text = text_before(rt.alloc(), *members, *count, end)?;
                let run = run_behind_first(text.as_str(), *class);
                assert!(rt; run == Some(*count as u32), "{class:?} before {end}");
            }
        }
    }
    Ok(())
}

#[test]
fn steps_over_characters_past_ascii(rt: HostRuntime) {
    const ROWS: &[(ByteClass, &str, u32)] = &[
        (ByteClass::Plain(Quote::Single), "aé\u{2028}€😀'b", 13),
        (ByteClass::Plain(Quote::Double), "aé\u{2029}€😀\"b", 13),
        (ByteClass::Line, "aé日😀\u{2028}b", 10),
        (ByteClass::Block, "aé日😀*/", 10),
        (ByteClass::Template, "aéâ日😀`b", 12),
        (ByteClass::Template, "aéâ日😀${b", 12),
        (ByteClass::Template, "aéâ日😀€b", 12),
    ];
    for row in ROWS {
        let (class, text, length) = *row;
        let input = StringInput::new(text, BytePos::DUMMY);
        assert!(rt;
            input.run_bytes(class) == length
                && input.has_place(BytePos(length))
                && input.is_at_start(),
            "{text}"
        );
    }
}
