ghost use Rattle.std.specs.Prelude.{◌≡◌, ◌<◌, length, OnOk};
ghost use Rattle.std.specs.Option.{option_copied};
ghost use Rattle.rsml_parser.specs.Parsers as spec;
ghost use Rattle.rsml_parser.specs.Parsers.{Gives};

use rsml_syntax::{Mark, NoMemory, Placed, Text, Token, Word};
use std::alloc::{AllocFailed, Global};
use std::marker::Model;

/// Why reading stops. A fault stands at the first token that is left.
#[derive(Clone, Copy, Debug, PartialEq, Eq)]
pub enum Fault {
    /// No specification goes on so.
    Syntax,
    /// The token opens a state too many.
    TooDeep,
    NoMemory,
}

impl From<NoMemory> for Fault {
    ghost use Rattle.rsml_parser.specs.declared.reader.Fault.TheVariants.{NoMemory};

    ghost from_gives = { λ _ fault. fault ≡ NoMemory };

    fn from(_error: NoMemory) -> Fault {
        Fault::NoMemory
    }
}

impl<T: Drop> From<AllocFailed<T>> for Fault {
    ghost use Rattle.rsml_parser.specs.declared.reader.Fault.TheVariants.{NoMemory};

    ghost from_gives = { λ _ fault. fault ≡ NoMemory };

    fn from(_error: AllocFailed<T>) -> Fault {
        Fault::NoMemory
    }
}

/// The tokens that are left to read.
#[derive(Drop)]
pub struct Reader<'a> {
    rest: &'a [Placed],
}

impl<'a> Model for Reader<'a> {
    ghost use Rattle.std.specs.Prelude.{List};
    ghost use Rattle.rsml_syntax.specs.declared.token.Token.{Token};
    ghost use Rattle.rsml_syntax.specs.text.Lexing.{bare};

    ghost Value = { List Token };

    ghost view = { λ reader. bare reader.rest.now };
}

impl<'a> Reader<'a> {
    ghost use Rattle.rsml_syntax.specs.text.Lexing.{bare};

    pub fn new(rest: &'a [Placed]) -> Reader<'a>
        ensures { result ≡ bare rest.now }
    {
        Reader { rest }
    }

    /// How many tokens are left.
    pub fn left(&self) -> usize
        ensures { result ≡ length self.now }
    {
        self.rest.len()
    }

    pub fn sees_word(&self, word: Word) -> bool
        ensures { result ≡ spec.sees_word word self.now }
    {
        match self.rest {
            [
                Placed {
                    token: Token::Word(found),
                    ..
                },
                ..
            ] => word.is(*found),
            _ => false,
        }
    }

    pub fn sees_mark(&self, mark: Mark) -> bool
        ensures { result ≡ spec.sees_mark mark self.now }
    {
        match self.rest {
            [
                Placed {
                    token: Token::Mark(found),
                    ..
                },
                ..
            ] => mark.is(*found),
            _ => false,
        }
    }

    /// Whether a token is left, and is not the mark.
    pub fn goes_on(&self, mark: Mark) -> bool
        ensures { result ≡ spec.first (spec.is_not mark) self.now }
    {
        match self.rest {
            [] => false,
            [
                Placed {
                    token: Token::Mark(found),
                    ..
                },
                ..
            ] => !mark.is(*found),
            _ => true,
        }
    }

    pub fn sees_name(&self) -> bool
        ensures { result ≡ spec.sees_name self.now }
    {
        match self.rest {
            [
                Placed {
                    token: Token::Name(_),
                    ..
                },
                ..
            ] => true,
            _ => false,
        }
    }

    pub fn sees_number(&self) -> bool
        ensures { result ≡ spec.sees_number self.now }
    {
        match self.rest {
            [
                Placed {
                    token: Token::Number(_),
                    ..
                },
                ..
            ] => true,
            _ => false,
        }
    }

    /// Goes past the next token, if there is one.
    pub fn skip(&mut self)
        ensures { self.new ≡ spec.skip self.old }
    {
        if let [_, rest @ ..] = self.rest {
            self.rest = rest;
        }
    }

    #[tactic(auto, unfolding(crate::specs::Parsers::word))]
    pub fn word(&mut self, word: Word) -> Result<(), Fault>
        ensures { Gives (spec.word word self.old) result self.new }
    {
        if self.sees_word(word) {
            self.skip();
            Ok(())
        } else {
            Err(Fault::Syntax)
        }
    }

    #[tactic(auto, unfolding(crate::specs::Parsers::mark))]
    pub fn mark(&mut self, mark: Mark) -> Result<(), Fault>
        ensures { Gives (spec.mark mark self.old) result self.new }
    {
        if self.sees_mark(mark) {
            self.skip();
            Ok(())
        } else {
            Err(Fault::Syntax)
        }
    }

    /// Ok where no token is left.
    #[tactic(auto, unfolding(crate::specs::Parsers::end))]
    pub fn end(&self) -> Result<(), Fault>
        ensures { Gives (spec.end self.now) result self.now }
    {
        if self.rest.is_empty() {
            Ok(())
        } else {
            Err(Fault::Syntax)
        }
    }

    fn next_name(&self) -> Option<&'a Text>
        ensures { option_copied result ≡ spec.of_first spec.seen_name self.now }
    {
        match self.rest {
            [
                Placed {
                    token: Token::Name(found),
                    ..
                },
                ..
            ] => Some(found),
            _ => None,
        }
    }

    #[tactic(auto, unfolding(crate::specs::Parsers::name))]
    pub fn name(&mut self, alloc: Global) -> Result<Text, Fault>
        ensures { Gives (spec.name self.old) result self.new }
    {
        match self.next_name() {
            Some(found) => {
                let name = found.copy(alloc)?;
                self.skip();
                Ok(name)
            }
            None => Err(Fault::Syntax),
        }
    }

    fn next_number(&self) -> Option<u32>
        ensures { result ≡ spec.of_first spec.seen_number self.now }
    {
        match self.rest {
            [
                Placed {
                    token: Token::Number(found),
                    ..
                },
                ..
            ] => Some(*found),
            _ => None,
        }
    }

    #[tactic(auto, unfolding(crate::specs::Parsers::number))]
    pub fn number(&mut self) -> Result<u32, Fault>
        ensures { Gives (spec.number self.old) result self.new }
    {
        match self.next_number() {
            Some(found) => {
                self.skip();
                Ok(found)
            }
            None => Err(Fault::Syntax),
        }
    }
}
