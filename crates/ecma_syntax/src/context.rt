//! What the layer above says of the code that is being read.
ghost use Rattle.std.specs.Prelude.{◌≡◌};
ghost use Rattle.ecma_syntax.specs.Reserved.{is_reserved, is_reserved_keyword, is_reserved_name};

use ecma_word::keyword::Keyword;
use ecma_word::known_ident::KnownIdent;
use ecma_word::word::{IdentLike, Word};

/// Where an expression is in the head of a `for`.
#[derive(Debug, Clone, Copy, Default)]
pub struct ExpressionContext {
    /// The first part of the head of a `for` (ECMA-262, 14.7.4).
    pub for_loop_init: bool,
    /// The same of a `for await` (ECMA-262, 14.7.5).
    pub for_await_loop_init: bool,
}

/// The flags of the code that is being read.
///
/// Reads ask for `in_type`, `should_not_lex_lt_or_gt_as_type`, `module`, `ignore_error` and `strict`, and for reserved words
/// also for `in_static_block`, `in_generator` and `in_async`. Only a parser has a use for the others.
#[derive(Debug, Clone, Copy, Default)]
pub struct Context {
    /// Errors to be recorded are dropped, but for those of module code: the reading may be taken back.
    pub ignore_error: bool,
    /// Module code (ECMA-262, 16.2): its errors are recorded, and `await` is reserved.
    pub module: bool,
    /// The code may turn out to be a module.
    pub can_be_module: bool,
    /// Strict mode code (ECMA-262, 11.2.2).
    pub strict: bool,
    /// Where in the head of a `for` an expression is.
    pub expr_ctx: ExpressionContext,
    /// `in` is an operator here: the parameter In of the grammar (ECMA-262, 13.10).
    pub include_in_expr: bool,
    /// `await` is reserved and an operator (ECMA-262, 15.8).
    pub in_async: bool,
    /// `yield` is reserved and an operator (ECMA-262, 15.5).
    pub in_generator: bool,
    /// In a static block of a class, where `await` is reserved (ECMA-262, 15.7).
    pub in_static_block: bool,
    /// `continue` is allowed here (ECMA-262, 14.8).
    pub is_continue_allowed: bool,
    /// `break` is allowed here (ECMA-262, 14.9).
    pub is_break_allowed: bool,
    /// In a type of TypeScript, where `<` and `>` are tokens by themselves.
    pub in_type: bool,
    /// `<` and `>` begin operators again, whatever `in_type` says.
    pub should_not_lex_lt_or_gt_as_type: bool,
    /// Behind `declare` of TypeScript.
    pub in_declare: bool,
    /// Between `?` and `:` (ECMA-262, 13.14), where `:` begins no type annotation.
    pub in_cond_expr: bool,
    /// The `:` of a conditional expression is still to come.
    pub will_expect_colon_for_cond: bool,
    /// In a class (ECMA-262, 15.7).
    pub in_class: bool,
    /// In the value of a class field (ECMA-262, 15.7).
    pub in_class_field: bool,
    /// In a function (ECMA-262, 15.2).
    pub in_function: bool,
    /// In a function that is no arrow function, or in arrow functions inside of one.
    pub inside_non_arrow_function_scope: bool,
    /// Among the parameters of a function (ECMA-262, 15.1).
    pub in_parameters: bool,
    /// The class has a heritage (ECMA-262, 15.7).
    pub has_super_class: bool,
    /// In the name of a property (ECMA-262, 13.2.5).
    pub in_property_name: bool,
    /// The parser reads JSX here.
    pub in_forced_jsx_context: bool,
    /// `super` with a property is allowed here (ECMA-262, 13.3.7).
    pub allow_direct_super: bool,
    /// An `if` leaves its `else` to the caller (ECMA-262, 14.6).
    pub ignore_else_clause: bool,
    /// No conditional type of TypeScript is allowed here.
    pub disallow_conditional_types: bool,
    /// `using` may begin a declaration here.
    pub allow_using_decl: bool,
}

impl Context {
    /// Whether the word is no name here. The table is our own choice, after ReservedWord of ECMA-262, 12.7.2.
    pub fn is_reserved(&self, word: &Word) -> bool
        ensures { result ≡ is_reserved self.now word.now }
    {
        match word {
            Word::Keyword(keyword) => self.is_reserved_keyword(*keyword),
            Word::Null | Word::True | Word::False => true,
            Word::Ident(IdentLike::Known(known)) => self.is_reserved_name(*known),
            Word::Ident(IdentLike::Other(_)) => false,
        }
    }

    fn is_reserved_keyword(&self, keyword: Keyword) -> bool
        ensures { result ≡ is_reserved_keyword self.now keyword }
    {
        match keyword {
            Keyword::Let => self.strict,
            Keyword::Yield => self.in_generator || self.strict,
            Keyword::Await => self.in_async || self.in_static_block || self.module,
            _ => true,
        }
    }

    fn is_reserved_name(&self, known: KnownIdent) -> bool
        ensures { result ≡ is_reserved_name self.now known }
    {
        match known {
            KnownIdent::Enum => true,
            KnownIdent::Static
            | KnownIdent::Implements
            | KnownIdent::Interface
            | KnownIdent::Package
            | KnownIdent::Private
            | KnownIdent::Protected
            | KnownIdent::Public => self.strict,
            _ => false,
        }
    }
}
