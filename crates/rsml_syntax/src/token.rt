use rsml_base::Text;

/// A reserved word.
#[derive(Clone, Copy, Debug, PartialEq, Eq)]
pub enum Word {
    All,
    Always,
    Array,
    Bus,
    Constant,
    Default,
    Enumeration,
    Event,
    Every,
    Function,
    In,
    Input,
    Macro,
    Move,
    Of,
    On,
    One,
    Previous,
    Quiet,
    Raise,
    Range,
    Receive,
    Send,
    /// Written `some`.
    Any,
    Specification,
    State,
    Stay,
    This,
    When,
    T,
    F,
}

/// The reserved words, each once.
pub const WORDS: [Word; 31] = [
    Word::All,
    Word::Always,
    Word::Array,
    Word::Bus,
    Word::Constant,
    Word::Default,
    Word::Enumeration,
    Word::Event,
    Word::Every,
    Word::Function,
    Word::In,
    Word::Input,
    Word::Macro,
    Word::Move,
    Word::Of,
    Word::On,
    Word::One,
    Word::Previous,
    Word::Quiet,
    Word::Raise,
    Word::Range,
    Word::Receive,
    Word::Send,
    Word::Any,
    Word::Specification,
    Word::State,
    Word::Stay,
    Word::This,
    Word::When,
    Word::T,
    Word::F,
];

impl Word {
    ghost use Rattle.std.specs.Prelude.{◌≡◌};
    ghost use Rattle.rsml_syntax.specs.text.Words.{spelling, same_word};

    /// How the word is written.
    #[tactic(auto, unfolding(crate::specs::text::Words::spelling))]
    pub fn spelling(self) -> &'static [u8]
        ensures { result.now ≡ spelling self }
    {
        match self {
            Word::All => b"all",
            Word::Always => b"always",
            Word::Array => b"array",
            Word::Bus => b"bus",
            Word::Constant => b"constant",
            Word::Default => b"default",
            Word::Enumeration => b"enumeration",
            Word::Event => b"event",
            Word::Every => b"every",
            Word::Function => b"function",
            Word::In => b"in",
            Word::Input => b"input",
            Word::Macro => b"macro",
            Word::Move => b"move",
            Word::Of => b"of",
            Word::On => b"on",
            Word::One => b"one",
            Word::Previous => b"previous",
            Word::Quiet => b"quiet",
            Word::Raise => b"raise",
            Word::Range => b"range",
            Word::Receive => b"receive",
            Word::Send => b"send",
            Word::Any => b"some",
            Word::Specification => b"specification",
            Word::State => b"state",
            Word::Stay => b"stay",
            Word::This => b"this",
            Word::When => b"when",
            Word::T => b"T",
            Word::F => b"F",
        }
    }

    /// Whether two words are one. `==`, with the name that contracts use.
    pub fn is(self, other: Word) -> bool
        ensures { result ≡ same_word self other }
    {
        self == other
    }
}

/// A mark of punctuation.
#[derive(Clone, Copy, Debug, PartialEq, Eq)]
pub enum Mark {
    Semicolon,
    OpenBrace,
    CloseBrace,
    Comma,
    DotDot,
    Dot,
    Equal,
    NotEqual,
    Less,
    LessEqual,
    Greater,
    GreaterEqual,
    OpenBracket,
    CloseBracket,
    OpenParen,
    CloseParen,
    Colon,
    Arrow,
    Minus,
    Plus,
    Bar,
}

/// The marks, each before the shorter ones that it begins with.
pub const MARKS: [Mark; 21] = [
    Mark::DotDot,
    Mark::NotEqual,
    Mark::LessEqual,
    Mark::GreaterEqual,
    Mark::Arrow,
    Mark::Semicolon,
    Mark::OpenBrace,
    Mark::CloseBrace,
    Mark::Comma,
    Mark::Dot,
    Mark::Equal,
    Mark::Less,
    Mark::Greater,
    Mark::OpenBracket,
    Mark::CloseBracket,
    Mark::OpenParen,
    Mark::CloseParen,
    Mark::Colon,
    Mark::Minus,
    Mark::Plus,
    Mark::Bar,
];

impl Mark {
    ghost use Rattle.std.specs.Prelude.{◌≡◌};
    ghost use Rattle.rsml_syntax.specs.text.Marks.{spelling, same_mark};

    /// How the mark is written.
    #[tactic(auto, unfolding(crate::specs::text::Marks::spelling))]
    pub fn spelling(self) -> &'static [u8]
        ensures { result.now ≡ spelling self }
    {
        match self {
            Mark::Semicolon => b";",
            Mark::OpenBrace => b"{",
            Mark::CloseBrace => b"}",
            Mark::Comma => b",",
            Mark::DotDot => b"..",
            Mark::Dot => b".",
            Mark::Equal => b"=",
            Mark::NotEqual => b"!=",
            Mark::Less => b"<",
            Mark::LessEqual => b"<=",
            Mark::Greater => b">",
            Mark::GreaterEqual => b">=",
            Mark::OpenBracket => b"[",
            Mark::CloseBracket => b"]",
            Mark::OpenParen => b"(",
            Mark::CloseParen => b")",
            Mark::Colon => b":",
            Mark::Arrow => b"->",
            Mark::Minus => b"-",
            Mark::Plus => b"+",
            Mark::Bar => b"|",
        }
    }

    /// Whether two marks are one. `==`, with the name that contracts use.
    pub fn is(self, other: Mark) -> bool
        ensures { result ≡ same_mark self other }
    {
        self == other
    }
}

#[derive(Debug)]
pub enum Token {
    Word(Word),
    Name(Text),
    Number(u32),
    Mark(Mark),
}

impl Drop for Token {
    fn drop(self) {
        match self {
            Self::Word(_) => {}
            Self::Name(_) => {}
            Self::Number(_) => {}
            Self::Mark(_) => {}
        }
    }
}

/// A token, and the byte offset in the text at which it begins.
#[derive(Debug, Drop)]
pub struct Placed {
    pub token: Token,
    pub at: u32,
}
