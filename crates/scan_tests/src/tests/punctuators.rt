//! Punctuators and the shebang: which stands at the cursor, or that none does.
use super::written::{check, write_sought_token};
use ecma_place::{BytePos, StringInput};
use ecma_scan::{alone_kind, eat_punctuator, scan_punct, scan_shebang, stands_alone};
use std::alloc::{AllocError, Global};
use std::process::Abort;
use std::test::Fail;

/// Writes what is found of the punctuator at the cursor.
fn write_punct(
    alloc: Global,
    line: &mut String,
    input: &mut StringInput,
    type_mode: bool,
) -> Result<(), AllocError> {
    let found = scan_punct(alloc, input, type_mode)?;
    write_sought_token(line, found, input)
}

/// What is found of the punctuator at the cursor, written.
fn punct_at(alloc: Global, input: &mut StringInput, type_mode: bool) -> Result<String, AllocError> {
    let mut line = String::new(alloc);
    write_punct(alloc, &mut line, input, type_mode)?;
    Ok(line)
}

/// Asserts what is found of the punctuators of a text, in their order. A space may stand behind each.
fn check_puncts(
    rt: &impl Abort,
    alloc: Global,
    text: &str,
    type_mode: bool,
    rows: &[(&str, &str)],
) -> Result<(), Fail> {
    assert!(rt; StringInput::fits(text, BytePos(0)));
    let mut input = StringInput::new(text, BytePos(0));
    for (spelling, line) in rows {
        check(rt, *spelling, punct_at(alloc, &mut input, type_mode), *line)?;
        input.eat_byte(b' ');
    }
    assert_eq!(rt; input.cur(), None);
    Ok(())
}

const PUNCTUATORS: &[(&str, &str)] = &[
    ("{", "0..1 LBrace"),
    ("}", "2..3 RBrace"),
    ("(", "4..5 LParen"),
    (")", "6..7 RParen"),
    ("[", "8..9 LBracket"),
    ("]", "10..11 RBracket"),
    (";", "12..13 Semi"),
    (",", "14..15 Comma"),
    ("~", "16..17 Tilde"),
    ("@", "18..19 At"),
    ("#", "20..21 Hash"),
    (":", "22..23 Colon"),
    ("?", "24..25 QuestionMark"),
    (".", "26..27 Dot"),
    ("...", "28..31 DotDotDot"),
    ("!", "32..33 Bang"),
    ("=>", "34..36 Arrow"),
    ("++", "37..39 PlusPlus"),
    ("--", "40..42 MinusMinus"),
    ("`", "43..44 BackQuote"),
];

#[test]
fn reads_every_punctuator(rt: HostRuntime) -> Result<(), Fail> {
    let text = "{ } ( ) [ ] ; , ~ @ # : ? . ... ! => ++ -- `";
    check_puncts(&rt, rt.alloc(), text, false, PUNCTUATORS)
}

const OPERATORS: &[(&str, &str)] = &[
    ("==", "0..2 BinOp(EqEq)"),
    ("!=", "3..5 BinOp(NotEq)"),
    ("===", "6..9 BinOp(EqEqEq)"),
    ("!==", "10..13 BinOp(NotEqEq)"),
    ("<", "14..15 BinOp(Lt)"),
    ("<=", "16..18 BinOp(LtEq)"),
    (">", "19..20 BinOp(Gt)"),
    (">=", "21..23 BinOp(GtEq)"),
    ("<<", "24..26 BinOp(LShift)"),
    (">>", "27..29 BinOp(RShift)"),
    (">>>", "30..33 BinOp(ZeroFillRShift)"),
    ("+", "34..35 BinOp(Add)"),
    ("-", "36..37 BinOp(Sub)"),
    ("*", "38..39 BinOp(Mul)"),
    ("/", "40..41 BinOp(Div)"),
    ("%", "42..43 BinOp(Mod)"),
    ("|", "44..45 BinOp(BitOr)"),
    ("^", "46..47 BinOp(BitXor)"),
    ("&", "48..49 BinOp(BitAnd)"),
    ("**", "50..52 BinOp(Exp)"),
    ("||", "53..55 BinOp(LogicalOr)"),
    ("&&", "56..58 BinOp(LogicalAnd)"),
    ("??", "59..61 BinOp(NullishCoalescing)"),
];

#[test]
fn reads_every_operator(rt: HostRuntime) -> Result<(), Fail> {
    let text = "== != === !== < <= > >= << >> >>> + - * / % | ^ & ** || && ??";
    check_puncts(&rt, rt.alloc(), text, false, OPERATORS)
}

const ASSIGNMENTS: &[(&str, &str)] = &[
    ("=", "0..1 AssignOp(Assign)"),
    ("+=", "2..4 AssignOp(AddAssign)"),
    ("-=", "5..7 AssignOp(SubAssign)"),
    ("*=", "8..10 AssignOp(MulAssign)"),
    ("/=", "11..13 AssignOp(DivAssign)"),
    ("%=", "14..16 AssignOp(ModAssign)"),
    ("<<=", "17..20 AssignOp(LShiftAssign)"),
    (">>=", "21..24 AssignOp(RShiftAssign)"),
    (">>>=", "25..29 AssignOp(ZeroFillRShiftAssign)"),
    ("|=", "30..32 AssignOp(BitOrAssign)"),
    ("^=", "33..35 AssignOp(BitXorAssign)"),
    ("&=", "36..38 AssignOp(BitAndAssign)"),
    ("**=", "39..42 AssignOp(ExpAssign)"),
    ("&&=", "43..46 AssignOp(AndAssign)"),
    ("||=", "47..50 AssignOp(OrAssign)"),
    ("??=", "51..54 AssignOp(NullishAssign)"),
];

#[test]
fn reads_every_assignment(rt: HostRuntime) -> Result<(), Fail> {
    let text = "= += -= *= /= %= <<= >>= >>>= |= ^= &= **= &&= ||= ??=";
    check_puncts(&rt, rt.alloc(), text, false, ASSIGNMENTS)
}

const ANGLES: &[(&str, &str)] = &[
    ("<", "0..1 BinOp(Lt)"),
    ("<", "1..2 BinOp(Lt)"),
    (">", "2..3 BinOp(Gt)"),
    (">", "3..4 BinOp(Gt)"),
    (">", "4..5 BinOp(Gt)"),
    ("=", "5..6 AssignOp(Assign)"),
];

#[test]
fn reads_angles_alone_among_types(rt: HostRuntime) -> Result<(), Fail> {
    check_puncts(&rt, rt.alloc(), "<<>>>=", true, ANGLES)
}

#[test]
fn reads_no_punctuator(rt: HostRuntime) -> Result<(), Fail> {
    let mut input = StringInput::new(".5", BytePos(4));
    let written = punct_at(rt.alloc(), &mut input, false);
    check(&rt, ".5", written, "4..4 nothing")
}

/// The characters of two bytes that are ASCII.
fn pairs(alloc: Global) -> Result<Vec<String>, AllocError> {
    let mut pairs = Vec::new(alloc);
    for first in '\0'..='\u{7f}' {
        for second in '\0'..='\u{7f}' {
            let mut pair = String::new(alloc);
            pair.push(first)?;
            pair.push(second)?;
            pairs.push(pair).map_err(|_| AllocError)?;
        }
    }
    Ok(pairs)
}

/// Whether what is said to stand alone at the start of a text is what is read there, and is one character.
fn stands_as_read(text: &str) -> bool {
    if !StringInput::fits(text, BytePos(0)) {
        return false;
    }
    let mut input = StringInput::new(text, BytePos(0));
    let Some(first) = input.cur() else {
        return false;
    };
    if !first.is_ascii() {
        return false;
    }
    match alone_kind(first as u8) {
        Some(kind) if stands_alone(&input, first as u8) => {
            eat_punctuator(&mut input, false) == Some(kind) && input.cur_pos() == BytePos(1)
        }
        _ => true,
    }
}

#[test]
fn what_stands_alone_is_read_alone(rt: HostRuntime) -> Result<(), Fail> {
    let pairs = pairs(rt.alloc())?;
    for pair in &pairs {
        assert!(rt; stands_as_read(pair.as_str()), "{pair:?}");
    }
    drop(pairs);
    Ok(())
}

/// Writes what is found of the shebang at the cursor.
fn write_shebang(
    alloc: Global,
    line: &mut String,
    input: &mut StringInput,
) -> Result<(), AllocError> {
    let found = scan_shebang(alloc, input)?;
    write_sought_token(line, found, input)
}

/// What is found of the shebang at the cursor, written.
fn shebang_at(alloc: Global, input: &mut StringInput) -> Result<String, AllocError> {
    let mut line = String::new(alloc);
    write_shebang(alloc, &mut line, input)?;
    Ok(line)
}

#[test]
fn reads_shebangs(rt: HostRuntime) -> Result<(), Fail> {
    let text = "#!x\u{2028}a";
    let mut input = StringInput::new(text, BytePos(2));
    let written = shebang_at(rt.alloc(), &mut input);
    check(&rt, text, written, "2..5 Shebang borrowed \"x\"")?;
    let written = shebang_at(rt.alloc(), &mut input);
    check(&rt, text, written, "5..5 nothing")
}
