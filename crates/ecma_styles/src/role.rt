//! The class of a token by what stands beside it.
ghost use Rattle.std.specs.Prelude.{◌≡◌};
ghost use Rattle.ecma_styles.specs.Roles as roles;

use crate::beside::{
    Beside, begins_async, begins_import, begins_key, begins_parameters, begins_type, is_as,
    is_class, is_colon, is_declare, is_declared, is_dot, is_from, is_ident, is_import, is_is,
    is_key, is_new, is_object, is_paren, is_question, is_star, is_text, is_type_brace,
    is_type_bracket, is_type_paren, is_typeof, is_word, names_class, names_property,
};
use crate::class::Class;
use ecma_role_table::state::State;
use ecma_token::TokenKind;
use ecma_word::{BinOpToken, IdentKind, Keyword, KnownIdent, WordKind};

/// A key of an object, or a member of a class or an enumeration.
fn of_key(beside: Beside) -> Class
    ensures { result ≡ roles.key_class beside }
{
    if begins_key(beside.next) {
        Class::Keyword
    } else if begins_parameters(beside.next) {
        Class::Function
    } else if is_object(beside.over) && !is_colon(beside.next) {
        Class::Name
    } else {
        Class::Property
    }
}

/// Whether `meta` stands behind `import.`, or `target` behind `new.`.
fn is_meta(word: WordKind, earlier: Option<TokenKind>) -> bool
    ensures { result ≡ roles.is_meta word earlier }
{
    match word {
        WordKind::Ident(IdentKind::Known(KnownIdent::Meta)) => is_import(earlier),
        WordKind::Ident(IdentKind::Known(KnownIdent::Target)) => is_new(earlier),
        _ => false,
    }
}

/// A word behind a dot or `#`.
fn of_property(word: WordKind, beside: Beside) -> Class
    ensures { result ≡ roles.property_class word beside }
{
    match beside.behind {
        State::ClassHead | State::InterfaceHead => Class::ClassName,
        State::TypeName | State::TypeEnd | State::TypeBrackets => Class::TypeName,
        _ => {
            if is_meta(word, beside.earlier) {
                Class::Meta
            } else if is_paren(beside.next) {
                Class::Function
            } else {
                Class::Property
            }
        }
    }
}

/// Whether a member of a type begins with the token.
fn begins_member(beside: Beside) -> bool
    ensures { result ≡ roles.begins_member beside }
{
    match beside.previous {
        Some(TokenKind::LBrace | TokenKind::Semi | TokenKind::Comma) => true,
        Some(
            TokenKind::Colon
            | TokenKind::QuestionMark
            | TokenKind::Arrow
            | TokenKind::BinOp(BinOpToken::BitOr | BinOpToken::BitAnd),
        ) => false,
        Some(TokenKind::Word(WordKind::Ident(IdentKind::Known(KnownIdent::Readonly)))) => {
            is_colon(beside.next) || is_question(beside.next)
        }
        Some(
            TokenKind::Word(WordKind::Ident(IdentKind::Known(KnownIdent::Get | KnownIdent::Set))),
        ) => is_paren(beside.next),
        _ => beside.flag,
    }
}

/// Whether a member of a type is named by a reserved word.
fn names_member(beside: Beside) -> bool
    ensures { result ≡ roles.names_member beside }
{
    is_type_brace(beside.over)
        && begins_member(beside)
        && (is_colon(beside.next) || is_question(beside.next))
}

/// A keyword.
fn of_keyword(keyword: Keyword, beside: Beside) -> Class
    ensures { result ≡ roles.keyword_class keyword beside }
{
    if names_member(beside) {
        return Class::Property;
    }
    match keyword {
        Keyword::This | Keyword::Super => Class::BuiltIn,
        Keyword::Import | Keyword::New if is_dot(beside.next) => Class::Meta,
        _ => Class::Keyword,
    }
}

/// A name where an import or export is read.
fn of_import(ident: IdentKind, beside: Beside) -> Class
    ensures { result ≡ roles.import_class ident beside }
{
    let is_keyword = match ident {
        IdentKind::Known(KnownIdent::From) => is_text(beside.next),
        IdentKind::Known(KnownIdent::As) => is_star(beside.previous),
        _ => is_import(beside.previous) && begins_import(beside.next),
    };
    if is_keyword {
        Class::Keyword
    } else {
        Class::Name
    }
}

/// Whether it is a name in the braces of an import or export.
fn is_name(kind: Option<TokenKind>) -> bool
    ensures { result ≡ roles.is_name kind }
{
    is_word(kind) || is_text(kind)
}

/// A name in the braces of an import, an export or its attributes.
fn of_clause(ident: IdentKind, beside: Beside) -> Class
    ensures { result ≡ roles.clause_class ident beside }
{
    if is_colon(beside.next) {
        return Class::Property;
    }
    let is_keyword = match ident {
        IdentKind::Known(KnownIdent::As) => is_name(beside.previous) && is_name(beside.next),
        IdentKind::Known(KnownIdent::Type_) => {
            !is_name(beside.previous) && is_name(beside.next) && !is_as(beside.next)
        }
        _ => false,
    };
    if is_keyword {
        Class::Keyword
    } else {
        Class::Name
    }
}

/// Whether it is a word of TypeScript that stands before another.
fn is_modifier(ident: IdentKind) -> bool
    ensures { result ≡ roles.is_modifier ident }
{
    matches!(
        ident,
        IdentKind::Known(
            KnownIdent::Abstract
                | KnownIdent::Declare
                | KnownIdent::Namespace
                | KnownIdent::Using
                | KnownIdent::Readonly
                | KnownIdent::Private
                | KnownIdent::Protected
                | KnownIdent::Public
                | KnownIdent::Keyof
                | KnownIdent::Unique
                | KnownIdent::Infer
        )
    )
}

fn is_undefined(ident: IdentKind) -> bool
    ensures { result ≡ roles.is_undefined ident }
{
    matches!(ident, IdentKind::Known(KnownIdent::Undefined))
}

/// A name where a statement or an operand begins.
fn of_operand(ident: IdentKind, beside: Beside) -> Class
    ensures { result ≡ roles.operand_class ident beside }
{
    if is_declare(beside.previous) && !beside.flag {
        Class::Keyword
    } else if is_modifier(ident) && is_declared(beside.next) {
        Class::Keyword
    } else if names_class(beside.previous) && !is_dot(beside.next) {
        Class::ClassName
    } else if is_paren(beside.next) {
        Class::Function
    } else if is_undefined(ident) {
        Class::Literal
    } else {
        Class::Name
    }
}

/// Whether the subject of an assertion is read behind `asserts`.
fn is_asserted(before: State) -> bool
    ensures { result ≡ roles.is_asserted before }
{
    matches!(before, State::Asserts)
}

/// A name that is a type: none behind `typeof`, and none that a predicate is of.
fn of_type(beside: Beside) -> Class
    ensures { result ≡ roles.type_class beside }
{
    if is_asserted(beside.before) || is_typeof(beside.previous) || is_is(beside.next) {
        Class::Name
    } else {
        Class::TypeName
    }
}

/// Whether a name in the brackets of a type is a word of TypeScript.
fn is_type_word(ident: IdentKind, beside: Beside) -> bool
    ensures { result ≡ roles.is_type_word ident beside }
{
    match ident {
        IdentKind::Known(
            KnownIdent::Keyof
            | KnownIdent::Readonly
            | KnownIdent::Unique
            | KnownIdent::Infer
            | KnownIdent::Asserts
            | KnownIdent::Abstract,
        ) => begins_type(beside.next),
        IdentKind::Known(KnownIdent::Is | KnownIdent::As) => is_word(beside.previous),
        _ => false,
    }
}

/// Whether a parameter's name stands in front of a question mark.
fn is_optional(beside: Beside) -> bool
    ensures { result ≡ roles.is_optional beside }
{
    is_type_paren(beside.over)
        && is_question(beside.next)
        && matches!(beside.previous, Some(TokenKind::LParen | TokenKind::Comma))
}

/// Whether a name in the brackets of a type is that of a parameter or of an element.
fn is_parameter(beside: Beside) -> bool
    ensures { result ≡ roles.is_parameter beside }
{
    if is_colon(beside.next) {
        (is_type_paren(beside.over) || is_type_bracket(beside.over))
            && !is_question(beside.previous)
    } else {
        is_optional(beside)
    }
}

/// A name with which a member of a type begins.
fn of_type_member(beside: Beside) -> Class
    ensures { result ≡ roles.type_member_class beside }
{
    if is_word(beside.next) || matches!(beside.next, Some(TokenKind::LBracket)) {
        Class::Keyword
    } else if begins_parameters(beside.next) {
        Class::Function
    } else {
        Class::Property
    }
}

/// A name in the brackets of a type.
fn of_bracketed(ident: IdentKind, beside: Beside) -> Class
    ensures { result ≡ roles.bracketed_class ident beside }
{
    if is_type_brace(beside.over) && begins_member(beside) {
        of_type_member(beside)
    } else if is_type_word(ident, beside) {
        Class::Keyword
    } else if is_parameter(beside) {
        Class::Name
    } else {
        of_type(beside)
    }
}

/// A keyword where this holds, else a name as any other.
fn of_word_if(is_keyword: bool, ident: IdentKind, beside: Beside) -> Class
    ensures { result ≡ roles.word_class_if is_keyword ident beside }
{
    if is_keyword {
        Class::Keyword
    } else {
        of_operand(ident, beside)
    }
}

fn is_implements(ident: IdentKind) -> bool
    ensures { result ≡ roles.is_implements ident }
{
    matches!(ident, IdentKind::Known(KnownIdent::Implements))
}

/// A name in the head of a class.
fn of_class_head(ident: IdentKind, beside: Beside) -> Class
    ensures { result ≡ roles.class_head_class ident beside }
{
    if is_implements(ident) && !is_class(beside.previous) {
        Class::Keyword
    } else {
        Class::ClassName
    }
}

/// The name of an enumeration, or `enum`.
fn of_enum_head(before: State) -> Class
    ensures { result ≡ roles.enum_head_class before }
{
    match before {
        State::EnumHead => Class::ClassName,
        _ => Class::Keyword,
    }
}

/// A name, behind which no type is read.
fn of_plain_name(ident: IdentKind, beside: Beside) -> Class
    ensures { result ≡ roles.plain_name_class ident beside }
{
    match beside.behind {
        State::Head => Class::Function,
        State::AliasHead => Class::TypeName,
        State::ClassHead => of_class_head(ident, beside),
        State::InterfaceHead => Class::ClassName,
        State::EnumHead => of_enum_head(beside.before),
        State::MaybeType | State::MaybeInterface => {
            of_word_if(is_ident(beside.next), ident, beside)
        }
        State::Async | State::AsyncStatement => {
            of_word_if(begins_async(beside.next), ident, beside)
        }
        State::ExportType | State::ImportWith | State::Operand => Class::Keyword,
        State::Import | State::ImportAs => of_import(ident, beside),
        State::Clause => of_clause(ident, beside),
        _ => of_operand(ident, beside),
    }
}

/// Whether a type is read behind the token.
fn is_typed(behind: State) -> bool
    ensures { result ≡ roles.is_typed behind }
{
    matches!(
        behind,
        State::TypeOperand
            | State::Asserts
            | State::TypeName
            | State::TypeEnd
            | State::TypeParenName
            | State::TypeBrackets
    )
}

/// A name where a type is read.
fn of_typed(ident: IdentKind, beside: Beside) -> Class
    ensures { result ≡ roles.typed_class ident beside }
{
    match beside.behind {
        State::TypeOperand => Class::Keyword,
        State::Asserts => {
            if is_word(beside.next) {
                Class::Keyword
            } else {
                Class::TypeName
            }
        }
        State::TypeName | State::TypeEnd => of_type(beside),
        _ => of_bracketed(ident, beside),
    }
}

/// A word that is neither a keyword nor a literal.
fn of_name(ident: IdentKind, beside: Beside) -> Class
    ensures { result ≡ roles.name_class ident beside }
{
    if is_typed(beside.behind) {
        of_typed(ident, beside)
    } else {
        of_plain_name(ident, beside)
    }
}

fn is_decorator(before: State) -> bool
    ensures { result ≡ roles.is_decorator before }
{
    matches!(before, State::Decorator)
}

/// A word.
fn of_word(word: WordKind, beside: Beside) -> Class
    ensures { result ≡ roles.word_class word beside }
{
    if is_key(beside.behind) {
        return of_key(beside);
    }
    if is_decorator(beside.before) {
        return Class::Decorator;
    }
    if names_property(beside.previous) {
        return of_property(word, beside);
    }
    match word {
        WordKind::Keyword(keyword) => of_keyword(keyword, beside),
        WordKind::Null | WordKind::True | WordKind::False => Class::Literal,
        WordKind::Ident(ident) => of_name(ident, beside),
    }
}

/// The class of a token of this kind, by what stands beside it. Punctuation has none.
pub fn class_at(kind: TokenKind, beside: Beside) -> Option<Class>
    ensures { result ≡ roles.class_at kind beside }
{
    match kind {
        TokenKind::Word(word) => Some(of_word(word, beside)),
        _ => Class::of(kind, beside.previous),
    }
}
