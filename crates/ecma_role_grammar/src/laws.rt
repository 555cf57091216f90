//! Laws of a track of tokens and the grammar.
ghost use Rattle.ecma_role_grammar.specs.Grammar.{Body, Derives, ModuleItemList, StatementList, module_code, script};
ghost use Rattle.ecma_role_grammar.specs.Samples as samples;
ghost use Rattle.ecma_role_grammar.specs.Laws.{ExpressionsEnd, ExpressionsHaveTheirRoles, ModulesHaveOneRole, ModulesHaveTheirRoles, SlashesHaveOneRole, StatementsEnd, StatementsHaveTheirRoles};

/// From where a statement begins, each slash of a list of statements that the grammar derives has the role that the track
/// gives it, also where the last semicolon is not written; where it is, the next statement begins behind them, with what
/// encloses the place as it was.
pub fn statements_have_their_roles()
    ensures roles { StatementsHaveTheirRoles }
    ensures end { StatementsEnd }
{}

/// From where an operand is expected, each slash of an expression that the grammar derives has the role that the track gives it;
/// behind it an operand is complete, or the braces of an arrow function are, or `yield` has nothing behind it, with what encloses
/// the place as it was.
pub fn expressions_have_their_roles()
    ensures roles { ExpressionsHaveTheirRoles }
    ensures end { ExpressionsEnd }
{}

/// No program of the grammar has two roles for a slash: where two begin with the same tokens and a slash is next in both, it
/// has the same role in both.
pub fn slashes_have_one_role()
    ensures { SlashesHaveOneRole }
{}

/// Each slash of a module that the grammar derives has the role that the track gives it, and no module has two roles for one.
pub fn modules_have_their_roles()
    ensures roles { ModulesHaveTheirRoles }
    ensures one { ModulesHaveOneRole }
{}

/// The grammar derives these programs, so that what is stated of its programs says something.
pub fn programs_are_derived()
    ensures quotient { Derives StatementList script samples.quotient }
    ensures match_divided { Derives StatementList script samples.match_divided }
    ensures postfix_divided { Derives StatementList script samples.postfix_divided }
    ensures regex_behind_head { Derives StatementList script samples.regex_behind_head }
    ensures call_divided { Derives StatementList script samples.call_divided }
    ensures regex_behind_block { Derives StatementList script samples.regex_behind_block }
    ensures object_divided { Derives StatementList script samples.object_divided }
    ensures function_divided { Derives StatementList script samples.function_divided }
    ensures async_generator { Derives StatementList script samples.async_generator }
    ensures arrow_in_conditional { Derives StatementList script samples.arrow_in_conditional }
    ensures loop_over_matches { Derives StatementList script samples.loop_over_matches }
    ensures class_and_regex { Derives StatementList script samples.class_and_regex }
    ensures labelled_switch { Derives StatementList script samples.labelled_switch }
    ensures template_divided { Derives StatementList script samples.template_divided }
    ensures regex_behind_loop { Derives StatementList script samples.regex_behind_loop }
    ensures arrow_without_semicolon { Derives StatementList script samples.arrow_without_semicolon }
    ensures lines_without_semicolons { Derives Body script samples.lines_without_semicolons }
    ensures import_and_export { Derives ModuleItemList module_code samples.import_and_export }
{}

/// And it derives none of these, in which a slash has another role.
pub fn programs_are_not_derived()
    ensures regex { Derives Body script samples.regex_for_division → ⊥ }
    ensures division { Derives Body script samples.division_for_regex → ⊥ }
{}
