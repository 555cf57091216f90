//! The operators as they are written.
use ecma_syntax::{AssignOp, BinOpToken, BinaryOp};

const BETWEEN: &[(&str, BinOpToken, BinaryOp)] = &[
    ("==", BinOpToken::EqEq, BinaryOp::EqEq),
    ("!=", BinOpToken::NotEq, BinaryOp::NotEq),
    ("===", BinOpToken::EqEqEq, BinaryOp::EqEqEq),
    ("!==", BinOpToken::NotEqEq, BinaryOp::NotEqEq),
    ("<", BinOpToken::Lt, BinaryOp::Lt),
    ("<=", BinOpToken::LtEq, BinaryOp::LtEq),
    (">", BinOpToken::Gt, BinaryOp::Gt),
    (">=", BinOpToken::GtEq, BinaryOp::GtEq),
    ("<<", BinOpToken::LShift, BinaryOp::LShift),
    (">>", BinOpToken::RShift, BinaryOp::RShift),
    (">>>", BinOpToken::ZeroFillRShift, BinaryOp::ZeroFillRShift),
    ("+", BinOpToken::Add, BinaryOp::Add),
    ("-", BinOpToken::Sub, BinaryOp::Sub),
    ("*", BinOpToken::Mul, BinaryOp::Mul),
    ("/", BinOpToken::Div, BinaryOp::Div),
    ("%", BinOpToken::Mod, BinaryOp::Mod),
    ("|", BinOpToken::BitOr, BinaryOp::BitOr),
    ("^", BinOpToken::BitXor, BinaryOp::BitXor),
    ("&", BinOpToken::BitAnd, BinaryOp::BitAnd),
    ("**", BinOpToken::Exp, BinaryOp::Exp),
    ("||", BinOpToken::LogicalOr, BinaryOp::LogicalOr),
    ("&&", BinOpToken::LogicalAnd, BinaryOp::LogicalAnd),
    (
        "??",
        BinOpToken::NullishCoalescing,
        BinaryOp::NullishCoalescing,
    ),
];

const ASSIGNING: &[(&str, AssignOp)] = &[
    ("=", AssignOp::Assign),
    ("+=", AssignOp::AddAssign),
    ("-=", AssignOp::SubAssign),
    ("*=", AssignOp::MulAssign),
    ("/=", AssignOp::DivAssign),
    ("%=", AssignOp::ModAssign),
    ("<<=", AssignOp::LShiftAssign),
    (">>=", AssignOp::RShiftAssign),
    (">>>=", AssignOp::ZeroFillRShiftAssign),
    ("|=", AssignOp::BitOrAssign),
    ("^=", AssignOp::BitXorAssign),
    ("&=", AssignOp::BitAndAssign),
    ("**=", AssignOp::ExpAssign),
    ("&&=", AssignOp::AndAssign),
    ("||=", AssignOp::OrAssign),
    ("??=", AssignOp::NullishAssign),
];

#[test]
fn between_operands(rt: HostRuntime) {
    for (text, token, operator) in BETWEEN {
        assert!(rt;
            token.as_str() == *text
                && operator.as_str() == *text
                && BinaryOp::from(*token) == *operator,
            "{text}"
        );
    }
    assert!(rt; BinaryOp::In.as_str() == "in" && BinaryOp::InstanceOf.as_str() == "instanceof");
}

#[test]
fn assigning(rt: HostRuntime) {
    for (text, operator) in ASSIGNING {
        assert!(rt; operator.as_str() == *text, "{text}");
    }
}
