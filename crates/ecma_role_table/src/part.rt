//! What is seen of a token.
ghost use Rattle.std.specs.Prelude.{◌≡◌};
ghost use Rattle.ecma_role_table.specs.Parts as parts;

use ecma_token_kind::TokenKind;
use ecma_word::{AssignOp, BinOpToken, IdentKind, Keyword, KnownIdent, WordKind};

/// A word that is no reserved word (ECMA-262, 12.7.2): `let`, `await` and `yield` too, which are reserved in places.
#[derive(Debug, Clone, Copy, PartialEq, Eq)]
pub enum Name {
    Async,
    Let,
    Interface,
    /// `type`
    TypeWord,
    Await,
    Yield,
    As,
    Satisfies,
    Of,
    Implements,
    Asserts,
    Is,
    From,
    Assert,
    /// `get` or `set`
    Accessor,
    /// `keyof`, `readonly`, `unique` or `infer`.
    TypeOperator,
    /// The name of a type that TypeScript has by itself, as `string`.
    PredefinedType,
    /// Any other.
    Other,
}

/// A reserved word (ECMA-262, 12.7.2); words between which no row tells are one.
#[derive(Debug, Clone, Copy, PartialEq, Eq)]
pub enum Reserved {
    Function,
    Class,
    /// `const` or `var`.
    Declare,
    Enum,
    Import,
    Export,
    /// `if`, `while`, `switch` or `catch`.
    Control,
    With,
    For,
    /// `else`, `do`, `try`, `finally` or `debugger`: a statement or a block comes next.
    BeforeStatement,
    /// `return` or `throw`.
    Return,
    /// `break` or `continue`.
    Break,
    Case,
    Default,
    Typeof,
    Void,
    Delete,
    New,
    In,
    InstanceOf,
    Extends,
    This,
    /// `null`, `true` or `false`.
    Constant,
    Super,
}

/// A token that is no word; tokens between which no row tells are one.
#[derive(Debug, Clone, Copy, PartialEq, Eq)]
pub enum Sign {
    LParen,
    RParen,
    LBracket,
    RBracket,
    LBrace,
    RBrace,
    Semi,
    Comma,
    Colon,
    Dot,
    DotDotDot,
    Arrow,
    QuestionMark,
    Bang,
    /// `++` or `--`.
    Update,
    Tilde,
    At,
    Hash,
    /// A number, a string, or a text that is no token.
    Literal,
    Regex,
    BackQuote,
    /// The text of a template between two marks.
    Template,
    DollarLBrace,
    Shebang,
    /// `*`
    Star,
    Lt,
    LShift,
    Gt,
    RShift,
    ZeroFillRShift,
    GtEq,
    RShiftEq,
    ZeroFillRShiftEq,
    /// `=`
    Assign,
    BitOr,
    BitAnd,
    Minus,
    /// Any other operator between two operands; JSX's tokens too, which the lexer never gives.
    Operator,
}

/// The kind of a token, as far as a row asks.
#[derive(Debug, Clone, Copy, PartialEq, Eq)]
pub enum PartKind {
    Name(Name),
    Reserved(Reserved),
    Sign(Sign),
}

/// What is seen of a token: no text is read.
#[derive(Debug, Clone, Copy, PartialEq, Eq)]
pub struct Part {
    pub kind: PartKind,
    /// Whether the gap before the token holds a line terminator.
    pub had_line_break: bool,
}

fn part_of_keyword(keyword: Keyword) -> PartKind
    ensures { result ≡ parts.part_of_keyword keyword }
{
    match keyword {
        Keyword::Await => PartKind::Name(Name::Await),
        Keyword::Yield => PartKind::Name(Name::Yield),
        Keyword::Let => PartKind::Name(Name::Let),
        Keyword::Break | Keyword::Continue => PartKind::Reserved(Reserved::Break),
        Keyword::Case => PartKind::Reserved(Reserved::Case),
        Keyword::If | Keyword::While | Keyword::Switch | Keyword::Catch => {
            PartKind::Reserved(Reserved::Control)
        }
        Keyword::Debugger | Keyword::Do | Keyword::Else | Keyword::Finally | Keyword::Try => {
            PartKind::Reserved(Reserved::BeforeStatement)
        }
        Keyword::Default_ => PartKind::Reserved(Reserved::Default),
        Keyword::For => PartKind::Reserved(Reserved::For),
        Keyword::Function => PartKind::Reserved(Reserved::Function),
        Keyword::Return | Keyword::Throw => PartKind::Reserved(Reserved::Return),
        Keyword::Var | Keyword::Const => PartKind::Reserved(Reserved::Declare),
        Keyword::With => PartKind::Reserved(Reserved::With),
        Keyword::New => PartKind::Reserved(Reserved::New),
        Keyword::This => PartKind::Reserved(Reserved::This),
        Keyword::Super => PartKind::Reserved(Reserved::Super),
        Keyword::Class => PartKind::Reserved(Reserved::Class),
        Keyword::Extends => PartKind::Reserved(Reserved::Extends),
        Keyword::Export => PartKind::Reserved(Reserved::Export),
        Keyword::Import => PartKind::Reserved(Reserved::Import),
        Keyword::In => PartKind::Reserved(Reserved::In),
        Keyword::InstanceOf => PartKind::Reserved(Reserved::InstanceOf),
        Keyword::TypeOf => PartKind::Reserved(Reserved::Typeof),
        Keyword::Void => PartKind::Reserved(Reserved::Void),
        Keyword::Delete => PartKind::Reserved(Reserved::Delete),
    }
}

fn part_of_known(known: KnownIdent) -> PartKind
    ensures { result ≡ parts.part_of_known known }
{
    match known {
        KnownIdent::Enum => PartKind::Reserved(Reserved::Enum),
        KnownIdent::Async => PartKind::Name(Name::Async),
        KnownIdent::Interface => PartKind::Name(Name::Interface),
        KnownIdent::Type_ => PartKind::Name(Name::TypeWord),
        KnownIdent::As => PartKind::Name(Name::As),
        KnownIdent::Satisfies => PartKind::Name(Name::Satisfies),
        KnownIdent::Of => PartKind::Name(Name::Of),
        KnownIdent::Implements => PartKind::Name(Name::Implements),
        KnownIdent::Asserts => PartKind::Name(Name::Asserts),
        KnownIdent::Is => PartKind::Name(Name::Is),
        KnownIdent::From => PartKind::Name(Name::From),
        KnownIdent::Assert => PartKind::Name(Name::Assert),
        KnownIdent::Get | KnownIdent::Set => PartKind::Name(Name::Accessor),
        KnownIdent::Keyof | KnownIdent::Readonly | KnownIdent::Unique | KnownIdent::Infer => {
            PartKind::Name(Name::TypeOperator)
        }
        KnownIdent::Any
        | KnownIdent::Unknown
        | KnownIdent::String
        | KnownIdent::Number
        | KnownIdent::Bigint
        | KnownIdent::Symbol
        | KnownIdent::Boolean
        | KnownIdent::Undefined
        | KnownIdent::Never
        | KnownIdent::Object => PartKind::Name(Name::PredefinedType),
        _ => PartKind::Name(Name::Other),
    }
}

fn part_of_word(word: WordKind) -> PartKind
    ensures { result ≡ parts.part_of_word word }
{
    match word {
        WordKind::Keyword(keyword) => part_of_keyword(keyword),
        WordKind::Null | WordKind::True | WordKind::False => PartKind::Reserved(Reserved::Constant),
        WordKind::Ident(IdentKind::Known(known)) => part_of_known(known),
        WordKind::Ident(IdentKind::Other) => PartKind::Name(Name::Other),
    }
}

fn sign_of_operator(operator: BinOpToken) -> Sign
    ensures { result ≡ parts.sign_of_operator operator }
{
    match operator {
        BinOpToken::Mul => Sign::Star,
        BinOpToken::Lt => Sign::Lt,
        BinOpToken::LShift => Sign::LShift,
        BinOpToken::Gt => Sign::Gt,
        BinOpToken::RShift => Sign::RShift,
        BinOpToken::ZeroFillRShift => Sign::ZeroFillRShift,
        BinOpToken::GtEq => Sign::GtEq,
        BinOpToken::BitOr => Sign::BitOr,
        BinOpToken::BitAnd => Sign::BitAnd,
        BinOpToken::Sub => Sign::Minus,
        _ => Sign::Operator,
    }
}

fn sign_of_assign(operator: AssignOp) -> Sign
    ensures { result ≡ parts.sign_of_assign operator }
{
    match operator {
        AssignOp::Assign => Sign::Assign,
        AssignOp::RShiftAssign => Sign::RShiftEq,
        AssignOp::ZeroFillRShiftAssign => Sign::ZeroFillRShiftEq,
        _ => Sign::Operator,
    }
}

fn part_of_kind(kind: TokenKind) -> PartKind
    ensures { result ≡ parts.part_of_kind kind }
{
    let sign = match kind {
        TokenKind::Word(word) => return part_of_word(word),
        TokenKind::BinOp(operator) => sign_of_operator(operator),
        TokenKind::AssignOp(operator) => sign_of_assign(operator),
        TokenKind::Arrow => Sign::Arrow,
        TokenKind::Hash => Sign::Hash,
        TokenKind::At => Sign::At,
        TokenKind::Dot => Sign::Dot,
        TokenKind::DotDotDot => Sign::DotDotDot,
        TokenKind::Bang => Sign::Bang,
        TokenKind::LParen => Sign::LParen,
        TokenKind::RParen => Sign::RParen,
        TokenKind::LBracket => Sign::LBracket,
        TokenKind::RBracket => Sign::RBracket,
        TokenKind::LBrace => Sign::LBrace,
        TokenKind::RBrace => Sign::RBrace,
        TokenKind::Semi => Sign::Semi,
        TokenKind::Comma => Sign::Comma,
        TokenKind::BackQuote => Sign::BackQuote,
        TokenKind::Template => Sign::Template,
        TokenKind::Colon => Sign::Colon,
        TokenKind::DollarLBrace => Sign::DollarLBrace,
        TokenKind::QuestionMark => Sign::QuestionMark,
        TokenKind::PlusPlus | TokenKind::MinusMinus => Sign::Update,
        TokenKind::Tilde => Sign::Tilde,
        TokenKind::Regex => Sign::Regex,
        TokenKind::Str | TokenKind::Num | TokenKind::BigInt | TokenKind::Error => Sign::Literal,
        TokenKind::Shebang => Sign::Shebang,
        TokenKind::JSXName | TokenKind::JSXText | TokenKind::JSXTagStart | TokenKind::JSXTagEnd =>
            Sign::Operator,
    };
    PartKind::Sign(sign)
}

impl Part {
    /// What is seen of a token of this kind, with or without a line terminator before it.
    pub fn of_kind(kind: TokenKind, had_line_break: bool) -> Part
        ensures { result ≡ parts.part_of kind had_line_break }
    {
        Part {
            kind: part_of_kind(kind),
            had_line_break,
        }
    }
}
