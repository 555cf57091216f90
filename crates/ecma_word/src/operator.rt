//! Operators.
ghost use Rattle.std.specs.Prelude.{◌≡◌};
ghost use Rattle.ecma_word.specs.Operators.{bin_op_text, binary_op_of, binary_op_text, assign_op_text};

/// An operator between two operands, as a token: the punctuators among them (ECMA-262, 12.8).
#[derive(Debug, Clone, Copy, PartialEq, Eq, Hash)]
pub enum BinOpToken {
    /// `==`: equal, loosely (ECMA-262, 13.11).
    EqEq,
    /// `!=`: not equal, loosely (ECMA-262, 13.11).
    NotEq,
    /// `===`: equal, strictly (ECMA-262, 13.11).
    EqEqEq,
    /// `!==`: not equal, strictly (ECMA-262, 13.11).
    NotEqEq,
    /// `<`: less (ECMA-262, 13.10).
    Lt,
    /// `<=`: less or equal (ECMA-262, 13.10).
    LtEq,
    /// `>`: greater (ECMA-262, 13.10).
    Gt,
    /// `>=`: greater or equal (ECMA-262, 13.10).
    GtEq,
    /// `<<`: shift to the left (ECMA-262, 13.9).
    LShift,
    /// `>>`: shift to the right that keeps the sign (ECMA-262, 13.9).
    RShift,
    /// `>>>`: shift to the right that fills with zeros (ECMA-262, 13.9).
    ZeroFillRShift,
    /// `+`: sum, or texts joined (ECMA-262, 13.8).
    Add,
    /// `-`: difference (ECMA-262, 13.8).
    Sub,
    /// `*`: product (ECMA-262, 13.7).
    Mul,
    /// `/`: quotient (ECMA-262, 13.7).
    Div,
    /// `%`: remainder (ECMA-262, 13.7).
    Mod,
    /// `|`: or, bit by bit (ECMA-262, 13.12).
    BitOr,
    /// `^`: exclusive or, bit by bit (ECMA-262, 13.12).
    BitXor,
    /// `&`: and, bit by bit (ECMA-262, 13.12).
    BitAnd,
    /// `**`: power (ECMA-262, 13.6).
    Exp,
    /// `||`: or, of conditions (ECMA-262, 13.13).
    LogicalOr,
    /// `&&`: and, of conditions (ECMA-262, 13.13).
    LogicalAnd,
    /// `??`: the second in place of null or undefined (ECMA-262, 13.13).
    NullishCoalescing,
}

impl BinOpToken {
    /// The operator as it is written.
    pub fn as_str(&self) -> &'static str
        ensures { result.now ≡ bin_op_text self.now }
    {
        match self {
            BinOpToken::EqEq => "==",
            BinOpToken::NotEq => "!=",
            BinOpToken::EqEqEq => "===",
            BinOpToken::NotEqEq => "!==",
            BinOpToken::Lt => "<",
            BinOpToken::LtEq => "<=",
            BinOpToken::Gt => ">",
            BinOpToken::GtEq => ">=",
            BinOpToken::LShift => "<<",
            BinOpToken::RShift => ">>",
            BinOpToken::ZeroFillRShift => ">>>",
            BinOpToken::Add => "+",
            BinOpToken::Sub => "-",
            BinOpToken::Mul => "*",
            BinOpToken::Div => "/",
            BinOpToken::Mod => "%",
            BinOpToken::BitOr => "|",
            BinOpToken::BitXor => "^",
            BinOpToken::BitAnd => "&",
            BinOpToken::Exp => "**",
            BinOpToken::LogicalOr => "||",
            BinOpToken::LogicalAnd => "&&",
            BinOpToken::NullishCoalescing => "??",
        }
    }
}

/// An operator between two operands, in a syntax tree: a [`BinOpToken`], `in` or `instanceof`.
#[derive(Debug, Clone, Copy, PartialEq, Eq, Hash)]
pub enum BinaryOp {
    EqEq,
    NotEq,
    EqEqEq,
    NotEqEq,
    Lt,
    LtEq,
    Gt,
    GtEq,
    LShift,
    RShift,
    ZeroFillRShift,
    Add,
    Sub,
    Mul,
    Div,
    Mod,
    BitOr,
    BitXor,
    BitAnd,
    Exp,
    LogicalOr,
    LogicalAnd,
    NullishCoalescing,
    In,
    InstanceOf,
}

impl BinaryOp {
    /// The operator as it is written.
    pub fn as_str(&self) -> &'static str
        ensures { result.now ≡ binary_op_text self.now }
    {
        match self {
            BinaryOp::EqEq => "==",
            BinaryOp::NotEq => "!=",
            BinaryOp::EqEqEq => "===",
            BinaryOp::NotEqEq => "!==",
            BinaryOp::Lt => "<",
            BinaryOp::LtEq => "<=",
            BinaryOp::Gt => ">",
            BinaryOp::GtEq => ">=",
            BinaryOp::LShift => "<<",
            BinaryOp::RShift => ">>",
            BinaryOp::ZeroFillRShift => ">>>",
            BinaryOp::Add => "+",
            BinaryOp::Sub => "-",
            BinaryOp::Mul => "*",
            BinaryOp::Div => "/",
            BinaryOp::Mod => "%",
            BinaryOp::BitOr => "|",
            BinaryOp::BitXor => "^",
            BinaryOp::BitAnd => "&",
            BinaryOp::Exp => "**",
            BinaryOp::LogicalOr => "||",
            BinaryOp::LogicalAnd => "&&",
            BinaryOp::NullishCoalescing => "??",
            BinaryOp::In => "in",
            BinaryOp::InstanceOf => "instanceof",
        }
    }
}

/// The operator of the same spelling.
impl From<BinOpToken> for BinaryOp {
    ghost from_gives = { λ token operator. operator ≡ binary_op_of token };

    fn from(token: BinOpToken) -> BinaryOp {
        match token {
            BinOpToken::EqEq => BinaryOp::EqEq,
            BinOpToken::NotEq => BinaryOp::NotEq,
            BinOpToken::EqEqEq => BinaryOp::EqEqEq,
            BinOpToken::NotEqEq => BinaryOp::NotEqEq,
            BinOpToken::Lt => BinaryOp::Lt,
            BinOpToken::LtEq => BinaryOp::LtEq,
            BinOpToken::Gt => BinaryOp::Gt,
            BinOpToken::GtEq => BinaryOp::GtEq,
            BinOpToken::LShift => BinaryOp::LShift,
            BinOpToken::RShift => BinaryOp::RShift,
            BinOpToken::ZeroFillRShift => BinaryOp::ZeroFillRShift,
            BinOpToken::Add => BinaryOp::Add,
            BinOpToken::Sub => BinaryOp::Sub,
            BinOpToken::Mul => BinaryOp::Mul,
            BinOpToken::Div => BinaryOp::Div,
            BinOpToken::Mod => BinaryOp::Mod,
            BinOpToken::BitOr => BinaryOp::BitOr,
            BinOpToken::BitXor => BinaryOp::BitXor,
            BinOpToken::BitAnd => BinaryOp::BitAnd,
            BinOpToken::Exp => BinaryOp::Exp,
            BinOpToken::LogicalOr => BinaryOp::LogicalOr,
            BinOpToken::LogicalAnd => BinaryOp::LogicalAnd,
            BinOpToken::NullishCoalescing => BinaryOp::NullishCoalescing,
        }
    }
}

/// An operator that assigns.
#[derive(Debug, Clone, Copy, PartialEq, Eq, Hash)]
pub enum AssignOp {
    Assign,
    AddAssign,
    SubAssign,
    MulAssign,
    DivAssign,
    ModAssign,
    LShiftAssign,
    RShiftAssign,
    ZeroFillRShiftAssign,
    BitOrAssign,
    BitXorAssign,
    BitAndAssign,
    ExpAssign,
    AndAssign,
    OrAssign,
    NullishAssign,
}

impl AssignOp {
    /// The operator as it is written.
    pub fn as_str(&self) -> &'static str
        ensures { result.now ≡ assign_op_text self.now }
    {
        match self {
            AssignOp::Assign => "=",
            AssignOp::AddAssign => "+=",
            AssignOp::SubAssign => "-=",
            AssignOp::MulAssign => "*=",
            AssignOp::DivAssign => "/=",
            AssignOp::ModAssign => "%=",
            AssignOp::LShiftAssign => "<<=",
            AssignOp::RShiftAssign => ">>=",
            AssignOp::ZeroFillRShiftAssign => ">>>=",
            AssignOp::BitOrAssign => "|=",
            AssignOp::BitXorAssign => "^=",
            AssignOp::BitAndAssign => "&=",
            AssignOp::ExpAssign => "**=",
            AssignOp::AndAssign => "&&=",
            AssignOp::OrAssign => "||=",
            AssignOp::NullishAssign => "??=",
        }
    }
}
