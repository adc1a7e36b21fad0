//! Kinds of tokens: each reserved word, each mark, names, numbers.

use rsml_syntax::{Mark, Token, Word};

#[derive(Clone, Copy, PartialEq, Eq)]
pub enum TokenKind {
    Word(Word),
    Mark(Mark),
    Name,
    Number,
}

impl TokenKind {
    pub fn of(token: &Token) -> TokenKind {
        match token {
            Token::Word(word) => TokenKind::Word(*word),
            Token::Mark(mark) => TokenKind::Mark(*mark),
            Token::Name(_) => TokenKind::Name,
            Token::Number(_) => TokenKind::Number,
        }
    }

    /// How a token of the kind may be written.
    pub fn example(self) -> &'static [u8] {
        match self {
            TokenKind::Word(word) => word.spelling(),
            TokenKind::Mark(mark) => mark.spelling(),
            TokenKind::Name => b"a",
            TokenKind::Number => b"1",
        }
    }
}

/// Those with which a declaration begins.
pub const DECLARATIONS: &[TokenKind] = &[
    TokenKind::Word(Word::Enumeration),
    TokenKind::Word(Word::Range),
    TokenKind::Word(Word::Constant),
    TokenKind::Word(Word::Input),
    TokenKind::Word(Word::Event),
    TokenKind::Word(Word::Macro),
    TokenKind::Word(Word::Function),
    TokenKind::Word(Word::Receive),
    TokenKind::Word(Word::Send),
];

/// The relations between sums.
pub const RELATIONS: &[TokenKind] = &[
    TokenKind::Mark(Mark::Equal),
    TokenKind::Mark(Mark::NotEqual),
    TokenKind::Mark(Mark::Less),
    TokenKind::Mark(Mark::LessEqual),
    TokenKind::Mark(Mark::Greater),
    TokenKind::Mark(Mark::GreaterEqual),
];

/// Whether a kind is among these.
pub fn has_kind(kinds: &[TokenKind], kind: TokenKind) -> bool {
    for other in kinds {
        if *other == kind {
            return true;
        }
    }
    false
}
