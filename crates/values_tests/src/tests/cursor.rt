//! A cursor over characters of one to four bytes.
use ecma_place::{BytePos, StringInput};
use std::test::Fail;

// `a` stands at 7, `é` at 8, `€` at 10, `😀` at 13, `b` at 17; the end is at 18.
const TEXT: &str = "aé€😀b";

const START: BytePos = BytePos(7);

#[test]
fn fits_below_two_to_the_32(rt: HostRuntime) {
    const ROWS: &[(&str, u32, bool)] = &[
        ("", 4_294_967_295, true),
        ("a", 4_294_967_294, true),
        ("a", 4_294_967_295, false),
        ("é", 4_294_967_293, true),
        ("é", 4_294_967_294, false),
        ("a€😀", 4_294_967_287, true),
        ("a€😀", 4_294_967_288, false),
        ("a€😀", 0, true),
    ];
    for row in ROWS {
        let (text, start, fits) = *row;
        assert!(rt;
            StringInput::fits(text, BytePos(start)) == fits,
            "at {start}"
        );
    }
}

#[test]
fn steps_over_characters(rt: HostRuntime) {
    const ROWS: &[(u32, &str, Option<char>, Option<char>, Option<char>)] = &[
        (7, "aé€😀b", Some('a'), Some('é'), Some('€')),
        (8, "é€😀b", Some('é'), Some('€'), Some('😀')),
        (10, "€😀b", Some('€'), Some('😀'), Some('b')),
        (13, "😀b", Some('😀'), Some('b'), None),
        (17, "b", Some('b'), None, None),
        (18, "", None, None, None),
    ];
    let mut input = StringInput::new(TEXT, START);
    for row in ROWS {
        let (place, rest, cur, peek, ahead) = *row;
        assert!(rt;
            input.cur_pos() == BytePos(place)
                && input.last_pos() == BytePos(place)
                && input.is_at_start() == (place == 7)
                && input.as_str() == rest
                && input.cur() == cur
                && input.peek() == peek
                && input.peek_ahead() == ahead,
            "at {place}"
        );
        if input.cur().is_some() {
            input.bump();
        }
    }
}

#[test]
fn looks_at_bytes(rt: HostRuntime) {
    const ROWS: &[(u32, Option<u8>, Option<u8>)] = &[
        (7, Some(b'a'), Some(b'a')),
        (8, None, Some(0xc3)),
        (10, None, Some(0xe2)),
        (13, None, Some(0xf0)),
        (17, Some(b'b'), Some(b'b')),
        (18, None, None),
    ];
    let mut input = StringInput::new(TEXT, START);
    for row in ROWS {
        let (place, ascii, byte) = *row;
        if input.has_place(BytePos(place)) {
            input.reset_to(BytePos(place));
        }
        assert!(rt;
            input.cur_pos() == BytePos(place)
                && input.cur_as_ascii() == ascii
                && input.is_byte(b'a') == (byte == Some(b'a'))
                && input.is_byte(b'b') == (byte == Some(b'b'))
                && input.is_byte(0xc3) == (byte == Some(0xc3))
                && input.is_byte(0xe2) == (byte == Some(0xe2))
                && input.is_byte(0xf0) == (byte == Some(0xf0)),
            "at {place}"
        );
    }
}

#[test]
fn eats_ascii_bytes(rt: HostRuntime) {
    const ROWS: &[(u8, bool, u32)] = &[
        (b'/', false, 7),
        (b'a', true, 8),
        (b'a', false, 8),
        (b'/', true, 9),
        (0x43, false, 9),
    ];
    let mut input = StringInput::new("a/é", START);
    for row in ROWS {
        let (byte, eaten, place) = *row;
        assert!(rt; byte < 128);
        assert!(rt;
            input.eat_byte(byte) == eaten && input.cur_pos() == BytePos(place),
            "{byte}"
        );
    }
}

#[test]
fn tells_what_the_rest_begins_with(rt: HostRuntime) {
    const ROWS: &[(&str, bool)] = &[
        ("", true),
        ("é", true),
        ("é€😀b", true),
        ("é€😀bc", false),
        ("é€😁", false),
        ("e", false),
        ("aé", false),
    ];
    let mut input = StringInput::new(TEXT, START);
    assert!(rt; input.eat_byte(b'a'));
    for row in ROWS {
        let (text, begins) = *row;
        assert!(rt; input.is_str(text) == begins, "{text}");
    }
}

#[test]
fn tells_places_of_the_text(rt: HostRuntime) {
    let input = StringInput::new(TEXT, START);
    for place in 0..30 {
        let is_place = matches!(place, 7 | 8 | 10 | 13 | 17 | 18);
        assert!(rt; input.has_place(BytePos(place)) == is_place, "{place}");
    }
}

#[test]
fn slices_between_places(rt: HostRuntime) {
    const ROWS: &[(u32, u32, &str)] = &[
        (7, 7, ""),
        (7, 8, "a"),
        (7, 10, "aé"),
        (8, 13, "é€"),
        (10, 17, "€😀"),
        (7, 18, "aé€😀b"),
        (17, 18, "b"),
        (18, 18, ""),
    ];
    let mut input = StringInput::new(TEXT, START);
    assert!(rt; input.eat_byte(b'a'));
    for row in ROWS {
        let (from, to, text) = *row;
        let from = BytePos(from);
        let to = BytePos(to);
        assert!(rt; input.has_place(from) && input.has_place(to) && from <= to);
        assert!(rt;
            input.slice(from, to) == text && input.cur_pos() == BytePos(8),
            "{text}"
        );
    }
}

#[test]
fn moves_by_bytes(rt: HostRuntime) {
    const ROWS: &[(u32, &str)] = &[(7, "aé€😀b"), (10, "€😀b"), (17, "b"), (18, ""), (18, "")];
    let mut input = StringInput::new(TEXT, START);
    for row in ROWS {
        let (place, rest) = *row;
        let here = input.cur_pos().0;
        assert!(rt; here <= place && input.has_place(BytePos(place)));
        input.bump_bytes((place - here) as usize);
        assert!(rt;
            input.as_str() == rest && input.cur_pos() == BytePos(place),
            "{place}"
        );
    }
}

#[test]
fn takes_characters_that_pass(rt: HostRuntime) {
    const ROWS: &[(char, &str, u32)] = &[
        ('a', "", 7),
        ('😀', "aé€", 13),
        ('!', "😀b", 18),
        ('!', "", 18),
    ];
    let mut input = StringInput::new(TEXT, START);
    for row in ROWS {
        let (end, taken, place) = *row;
        assert!(rt;
            input.uncons_while(|c| c != end) == taken && input.cur_pos() == BytePos(place),
            "{taken}"
        );
    }
}

#[test]
fn a_clone_goes_its_own_way(rt: HostRuntime) -> Result<(), Fail> {
    let mut input = StringInput::new(TEXT, START);
    assert!(rt; input.eat_byte(b'a'));
    let saved = input.clone()?;
    assert!(rt;
        input.uncons_while(|_| true) == "é€😀b"
            && saved.cur_pos() == BytePos(8)
            && saved.as_str() == "é€😀b"
    );
    Ok(())
}
