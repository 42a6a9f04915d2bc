//! The words that lines begin with.

ghost use Rattle.std.specs.Prelude.{◌≡◌};
ghost use Rattle.vc_model_lines.specs.Keywords as spelled;
ghost use Rattle.vc_value.specs.Words.{same_ignoring_case};

use crate::line::Keyword;
use crate::words::is_word;

/// All keywords.
pub const KEYWORDS: [Keyword; 19] = [
    Keyword::Model,
    Keyword::Char,
    Keyword::Num,
    Keyword::Value,
    Keyword::Uses,
    Keyword::Class,
    Keyword::Has,
    Keyword::Table,
    Keyword::Column,
    Keyword::Net,
    Keyword::Object,
    Keyword::Line,
    Keyword::Operation,
    Keyword::Precondition,
    Keyword::Selection,
    Keyword::Procedure,
    Keyword::Constraint,
    Keyword::Root,
    Keyword::Action,
];

/// How a keyword is spelled, in upper case.
pub fn keyword_spelling(keyword: Keyword) -> &'static str
    ensures { result.now ≡ spelled.keyword_spelling keyword }
{
    match keyword {
        Keyword::Model => "MODEL",
        Keyword::Char => "CHAR",
        Keyword::Num => "NUM",
        Keyword::Value => "VALUE",
        Keyword::Uses => "USES",
        Keyword::Class => "CLASS",
        Keyword::Has => "HAS",
        Keyword::Table => "TABLE",
        Keyword::Column => "COLUMN",
        Keyword::Net => "NET",
        Keyword::Object => "OBJECT",
        Keyword::Line => "LINE",
        Keyword::Operation => "OPERATION",
        Keyword::Precondition => "PRECONDITION",
        Keyword::Selection => "SELECTION",
        Keyword::Procedure => "PROCEDURE",
        Keyword::Constraint => "CONSTRAINT",
        Keyword::Root => "ROOT",
        Keyword::Action => "ACTION",
    }
}

fn is_keyword(keyword: Keyword, word: &[u8]) -> bool
    ensures { result ≡ same_ignoring_case (spelled.keyword_spelling keyword) word.now }
{
    is_word(keyword_spelling(keyword), word)
}

/// The keyword of this spelling in either case, if it is one.
pub fn keyword_of(word: &[u8]) -> Option<Keyword>
    ensures { result ≡ spelled.keyword_of word.now }
{
    KEYWORDS
        .iter()
        .copied()
        .find(|keyword| is_keyword(*keyword, word))
}
