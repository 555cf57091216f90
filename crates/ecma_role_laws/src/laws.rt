//! Laws of tracks of tokens.
ghost use Rattle.ecma_role_laws.specs.Brackets.{BracketsEnd, BracketsGiveBack};

/// What stands within brackets ends with them: a balanced sequence of tokens leaves the bracket that is around it, and all
/// that is outside of that bracket, as they were, whatever is wrong in it; so behind the token that closes a bracket there
/// are the frames that are outside of it.
///
/// No brackets are looked for in the braces of an import or export, which stand at the top of a text; sequences with such
/// braces are left out.
pub fn brackets_end()
    ensures end { BracketsEnd }
    ensures give_back { BracketsGiveBack }
{}
