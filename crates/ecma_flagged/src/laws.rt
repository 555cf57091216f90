//! Laws of canonical texts where the lexer's own flag, what the tokens before expect, or the numbers of tokens say which
//! slashes begin regular expressions. None names a place.
ghost use Rattle.ecma_flagged.specs.ByFlag.{CanonicalByFlagIsRead, CanonicalByFlagIsShared, FlagReadsAlike};
ghost use Rattle.ecma_flagged.specs.ByNumber.{CanonicalByNumberIsRead, CanonicalByNumberIsShared, NumberReadsAlike};
ghost use Rattle.ecma_flagged.specs.ByRole.{CanonicalByRoleIsRead, CanonicalByRoleIsShared, RoleReadsAlike};

/// The canonical text of a text that is read cleanly by the flag is read by the flag by the same steps: the same slashes, by
/// their number among the tokens, begin regular expressions.
pub fn flag_reads_alike()
    ensures { FlagReadsAlike }
{}

/// So it is read cleanly by the flag, under the same settings, context and start place; its tokens agree in kind, characters
/// and flag; and it is its own canonical text.
pub fn canonical_by_flag_is_read()
    ensures { CanonicalByFlagIsRead }
{}

/// Two texts that are read cleanly by the flag have one canonical text exactly where their tokens agree.
pub fn canonical_by_flag_is_shared()
    ensures { CanonicalByFlagIsShared }
{}

/// The canonical text of a text that is read cleanly by roles is read by roles by the same steps: the same slashes, by their
/// number among the tokens, begin regular expressions.
pub fn role_reads_alike()
    ensures { RoleReadsAlike }
{}

/// So it is read cleanly by roles, under the same settings, context and start place; its tokens agree in kind, characters
/// and flag; and it is its own canonical text.
pub fn canonical_by_role_is_read()
    ensures { CanonicalByRoleIsRead }
{}

/// Two texts that are read cleanly by roles have one canonical text exactly where their tokens agree.
pub fn canonical_by_role_is_shared()
    ensures { CanonicalByRoleIsShared }
{}

/// The canonical text of a text that is read cleanly by numbers of tokens is read by these numbers by the same steps.
pub fn number_reads_alike()
    ensures { NumberReadsAlike }
{}

/// So it is read cleanly by these numbers, under the same settings, context and start place; its tokens agree in kind,
/// characters and flag; and it is its own canonical text.
pub fn canonical_by_number_is_read()
    ensures { CanonicalByNumberIsRead }
{}

/// Two texts that are read cleanly by the same numbers have one canonical text exactly where their tokens agree.
pub fn canonical_by_number_is_shared()
    ensures { CanonicalByNumberIsShared }
{}
