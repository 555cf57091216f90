//! What holds of every word and operator: each call does nothing, and its contract is the law.
ghost use Rattle.ecma_word.specs.Laws.{WordsReadBack, WordsKeepTheirText, WordsAreLookedUp, OperatorsKeepTheirText};

/// Reading a word's text returns the word, unless it is an other name with a text of the table of words.
pub fn words_read_back()
    ensures { WordsReadBack }
{}

/// A word has the text that it was read from.
pub fn words_keep_their_text()
    ensures { WordsKeepTheirText }
{}

/// A word is the row of its text in the table of words, or an other name.
pub fn words_are_looked_up()
    ensures { WordsAreLookedUp }
{}

/// An operator of a syntax tree is written as its token.
pub fn operators_keep_their_text()
    ensures { OperatorsKeepTheirText }
{}
