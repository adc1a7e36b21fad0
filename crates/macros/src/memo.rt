ghost use Rattle.std.specs.Prelude.{◌≡◌, ◌<◌, IfOk, Some, None, true, false, length, replicate, slice_get, slice_set};
ghost use Rattle.macros.specs.Known.{Agrees, IsKnown};

use and_or_tables::Truths;
use rsml_syntax::NoMemory;
use std::alloc::Global;
use std::marker::Model;

/// What is known of the truths of phrases in one world, by their numbers from 0. Contracts see it as a list, with
/// None for each phrase whose truth is not known.
#[derive(Debug)]
pub struct Memo {
    truths: Truths,
    marks: Vec<u32>,
    epoch: u32,
}

impl Drop for Memo {
    fn drop(self) {
        let Self {
            truths: _,
            marks: _,
            epoch: _,
        } = self;
    }
}

impl Model for Memo {
    ghost use Rattle.std.specs.Prelude.{Bool, List, Option};
    ghost use Rattle.macros.specs.Known.{IsMarked, noted_in};

    ghost Value = { List (Option Bool) };

    ghost view = { noted_in };

    ghost invariant = { IsMarked };
}

impl Memo {
    /// As many phrases, and nothing is known.
    pub fn new(alloc: Global, count: u32) -> Result<Memo, NoMemory>
        ensures { IfOk result (λ memo. memo ≡ replicate count None) }
    {
        let truths = Truths::new(alloc, count)?;
        let marks = Vec::from_elem(alloc, 0, count as usize)?;
        Ok(Memo {
            truths,
            marks,
            epoch: 1,
        })
    }

    /// How many phrases there are.
    pub fn len(&self) -> u32
        ensures { result ≡ length self.now }
    {
        self.truths.len()
    }

    /// From now on nothing is known. It takes constant time but once in 4,294,967,295 calls, and no memory.
    pub fn forget(&mut self)
        ensures { self.new ≡ replicate (length self.old) None }
    {
        if self.epoch == u32::MAX {
            clear(&mut self.marks);
            self.epoch = 0;
        }
        self.epoch += 1;
    }

    /// Whether the truth of a phrase is known.
    pub fn knows(&self, phrase: u32) -> bool
        requires { phrase < length self.now }
        ensures yes { result ≡ true → IsKnown self.now phrase }
        ensures no { result ≡ false → slice_get self.now phrase ≡ Some None }
    {
        self.marks[phrase as usize] == self.epoch
    }

    /// The truths of all phrases. Those that are not known are of no use.
    pub fn truths(&self) -> &Truths
        ensures count { length result.now ≡ length self.now }
        ensures right { Agrees self.now result.now }
    {
        &self.truths
    }

    /// Makes the truth of a phrase known.
    pub fn learn(&mut self, phrase: u32, truth: bool)
        requires { phrase < length self.old }
        ensures { self.new ≡ slice_set self.old phrase (Some truth) }
    {
        self.truths.set(phrase, truth);
        self.marks[phrase as usize] = self.epoch;
    }
}

/// Gives each mark the value 0.
fn clear(marks: &mut Vec<u32>)
    ensures { marks.new.items ≡ replicate (length marks.old.items) 0 }
{
    marks.fill(0);
}
