//! Laws of the definitions, each carried by the contract of a function that does nothing.
ghost use Rattle.scad_grammar.specs.Promises.{OneProgram, ReadsWhatIsDerived, StandsWhereAProgramBegins, CountsWhatIsOpen, JudgesAsTheGrammar, AcceptsWhatIsDerived, DescentIsTheReader, EndsExcludeNothing, PrintedTokensDerive, PrintedTextDerives, PrintedSourceDerives};

/// No tokens derive two programs.
pub fn one_program()
    ensures { OneProgram }
{}

/// The reader accepts the tokens that derive a program, with that program, and no others.
pub fn reads_what_is_derived()
    ensures { ReadsWhatIsDerived }
{}

/// The reader stands behind the tokens with which some program begins, and behind no others.
pub fn stands_where_a_program_begins()
    ensures { StandsWhereAProgramBegins }
{}

/// What the reader counts behind tokens is the number of constructs that stand open there: the most that
/// a derivation of a program that begins with them has open.
pub fn counts_what_is_open()
    ensures { CountsWhatIsOpen }
{}

/// What tokens are is judged by the grammar: there is one answer, and the reader gives it.
pub fn judges_as_the_grammar()
    ensures { JudgesAsTheGrammar }
{}

/// Tokens are a program exactly where none of them has a fault and the grammar as it stands on paper
/// derives it from them.
pub fn accepts_what_is_derived()
    ensures { AcceptsWhatIsDerived }
{}

/// A descent that reads by the rules gives what the reader of tokens gives: the program, or the first fault.
pub fn descent_is_the_reader()
    ensures { DescentIsTheReader }
{}

/// That each part is as long as it can be excludes no program: the grammar as it stands on paper
/// derives the same ones.
pub fn ends_exclude_nothing()
    ensures { EndsExcludeNothing }
{}

/// The tokens of a program's printed text derive the program again, its places aside.
pub fn printed_tokens_derive()
    ensures { PrintedTokensDerive }
{}

/// The text of a printed program is cut into tokens that derive the program again, its places aside:
/// for all tokens that a text can have, and so for every text.
pub fn printed_text_derives()
    ensures tokens { PrintedTextDerives }
    ensures source { PrintedSourceDerives }
{}
