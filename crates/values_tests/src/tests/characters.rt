//! The sets of characters, at their edges and past ASCII.
use ecma_place::character::{CharExt, is_white_space};

#[test]
fn tells_characters_of_names(rt: HostRuntime) {
    const ROWS: &[(char, bool, bool)] = &[
        ('$', true, true),
        ('_', true, true),
        ('A', true, true),
        ('z', true, true),
        ('0', false, true),
        ('9', false, true),
        ('@', false, false),
        ('[', false, false),
        ('`', false, false),
        ('{', false, false),
        ('-', false, false),
        ('\0', false, false),
        ('\u{7f}', false, false),
        ('é', true, true),
        ('ß', true, true),
        ('·', false, true),
        ('\u{200b}', false, false),
        ('\u{200c}', false, true),
        ('\u{200d}', false, true),
        ('€', false, false),
        ('日', true, true),
        ('𝒳', true, true),
        ('😀', false, false),
    ];
    for row in ROWS {
        let (c, starts, goes_on) = *row;
        assert!(rt;
            c.is_ident_start() == starts && c.is_ident_part() == goes_on && c.to_char() == Some(c),
            "{c}"
        );
    }
}

#[test]
fn tells_white_space(rt: HostRuntime) {
    // The character, and whether it is a line break, a line terminator, and other white space.
    const ROWS: &[(char, bool, bool, bool)] = &[
        ('\n', true, true, false),
        ('\r', true, true, false),
        ('\u{2028}', false, true, false),
        ('\u{2029}', false, true, false),
        ('\t', false, false, true),
        ('\u{b}', false, false, true),
        ('\u{c}', false, false, true),
        (' ', false, false, true),
        ('\u{85}', false, false, true),
        ('\u{a0}', false, false, true),
        ('\u{1680}', false, false, true),
        ('\u{2000}', false, false, true),
        ('\u{3000}', false, false, true),
        ('\u{feff}', false, false, true),
        ('\u{8}', false, false, false),
        ('\u{180e}', false, false, false),
        ('\u{200b}', false, false, false),
        ('a', false, false, false),
        ('é', false, false, false),
        ('😀', false, false, false),
    ];
    for row in ROWS {
        let (c, line_break, terminator, other) = *row;
        let code = c as u32;
        assert!(rt;
            c.is_line_break() == line_break
                && c.is_line_terminator() == terminator
                && c.is_ws() == other
                && is_white_space(c) == (terminator || other),
            "{code}"
        );
    }
}
