ghost use Rattle.std.specs.Prelude.{◌≡◌, [], ◌∷◌, IfOk, OnOk, IsTrue};
ghost use Rattle.source_notes.specs.Comments.{AreComments, is_one_line};

use rsml_base::{NoMemory, put};
use std::alloc::Global;
use std::marker::Model;

/// Bytes without line feed.
#[derive(Drop)]
pub struct Line {
    bytes: Vec<u8>,
}

impl Model for Line {
    ghost use Rattle.std.specs.Prelude.{List, ℕ, IsTrue};
    ghost use Rattle.source_notes.specs.Comments.{is_one_line};

    ghost Value = { List ℕ };

    ghost view = { λ line. line.bytes.items };

    ghost invariant = { λ line. IsTrue (is_one_line line.bytes.items) };
}

/// A byte, or a space in place of a line feed.
fn plain(byte: u8) -> u8
    ensures { IsTrue (is_one_line (result ∷ [])) }
{
    if byte == b'\n' { b' ' } else { byte }
}

impl Line {
    /// The bytes, with a space in place of each line feed.
    pub fn new(alloc: Global, bytes: &[u8]) -> Result<Line, NoMemory> {
        let mut line = Line {
            bytes: Vec::new(alloc),
        };
        for byte in bytes {
            line.push(plain(*byte))?;
        }
        Ok(line)
    }

    /// One more byte, which is no line feed.
    #[tactic(auto, using(crate::proofs::CommentLemmas::one_longer))]
    fn push(&mut self, byte: u8) -> Result<(), NoMemory>
        requires { IsTrue (is_one_line (byte ∷ [])) }
    {
        self.bytes.push(byte)?;
        Ok(())
    }

    pub fn bytes(&self) -> &[u8]
        ensures same { result.now ≡ self.now }
        ensures one { IsTrue (is_one_line self.now) }
    {
        self.bytes.as_slice()
    }
}

/// Puts a comment line at the end of others.
#[tactic(auto, using(crate::proofs::CommentLemmas::followed))]
fn put_comment(text: &mut Vec<u8>, line: &Line) -> Result<(), NoMemory>
    requires { AreComments text.old.items }
    ensures { OnOk result (AreComments text.new.items) }
{
    put(text, b"# ")?;
    put(text, line.bytes())?;
    put(text, b"\n")
}

/// Comment lines, one after another.
#[derive(Drop)]
pub struct Comments {
    lines: Vec<Line>,
}

impl Comments {
    /// None so far.
    pub fn new(alloc: Global) -> Comments {
        Comments {
            lines: Vec::new(alloc),
        }
    }

    /// How many there are.
    pub fn count(&self) -> usize {
        self.lines.len()
    }

    /// One more.
    pub fn add(&mut self, line: Line) -> Result<(), NoMemory> {
        self.lines.push(line)?;
        Ok(())
    }

    /// The bytes of all of them.
    #[tactic(auto, using(crate::proofs::CommentLemmas::none))]
    pub fn bytes(&self, alloc: Global) -> Result<Vec<u8>, NoMemory>
        ensures { IfOk result (λ v. AreComments v.items) }
    {
        let mut bytes = Vec::new(alloc);
        for line in self.lines.as_slice() {
            put_comment(&mut bytes, line)?;
        }
        Ok(bytes)
    }
}
