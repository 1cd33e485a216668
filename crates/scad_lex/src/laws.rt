//! Laws of the definitions, each carried by the contract of a function that does nothing.
ghost use Rattle.scad_lex.specs.Longest.{RunsAreLongest, NamesAreLongest, CommentsAreLongest, PiecesAreLongest, NoPieceIsMissed};
ghost use Rattle.scad_lex.specs.Spelling.{SpelledTokensAreRead, TokensHaveSpellings};

/// The text of tokens, each as it is spelled and a blank or a line feed behind it, has these tokens
/// at their places, and no others.
#[tactic(auto, using(crate::proofs::TokenText::spelled_tokens_are_read))]
pub fn spelled_tokens_are_read()
    ensures { SpelledTokensAreRead }
{}

/// The tokens of a text can be spelled.
#[tactic(auto, using(crate::proofs::HaveSpellings::tokens_have_spellings))]
pub fn tokens_have_spellings()
    ensures { TokensHaveSpellings }
{}

/// Blanks, and the bytes of a comment up to its line's end, are cut off as far as they go.
pub fn runs_are_longest()
    ensures { RunsAreLongest }
{}

/// And so are names.
pub fn names_are_longest()
    ensures { NamesAreLongest }
{}

/// A comment in `/*` and `*/` ends at the first `*/`, and no more bytes are one comment.
pub fn comments_are_longest()
    ensures { CommentsAreLongest }
{}

/// What is cut off in front of a text, blanks, a comment or a token, is the longest of all pieces that
/// the text begins with, and where nothing is cut off no piece begins, but for the `/` of a comment
/// that isn't closed.
pub fn pieces_are_longest()
    ensures longest { PiecesAreLongest }
    ensures none_missed { NoPieceIsMissed }
{}
