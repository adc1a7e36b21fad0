ghost use Rattle.std.specs.Prelude.{◌≡◌, ◌≢◌, ℕ, ◌+◌, ◌<◌, ◌≤◌, ◌^◌, ◌↔◌, [], ◌∷◌, ◌++◌, List, Some, length, take, IfOk, IfSome, IsErr, IsNone, OnOk, OnErr};
ghost use Rattle.rsml_io.specs.Counts.{Rose};
ghost use Rattle.rsml_io.specs.Reading.{GivesPiece, reach_after};
ghost use Rattle.rsml_io.specs.FilesState.{no_files, contents, reach, faults, Refuses, given, AddsFile, CountsRead, CountsRefusal};

use crate::failed::Failed;
use crate::files::Files;
use crate::held::{
    Cut, HeldFile, count_fault, count_reach, cut_of, file_of, piece_from, put, uncut,
};
use rsml_base::{NoMemory, Text};
use std::alloc::Global;
use std::marker::Model;

/// Files in memory, of which chosen reads are refused.
#[derive(Drop)]
pub struct MemoryFiles {
    alloc: Global,
    most: usize,
    files: Vec<HeldFile>,
    unknown: u64,
    cuts: Vec<Cut>,
    calls: u64,
    failing: Vec<u64>,
}

impl Model for MemoryFiles {
    ghost use Rattle.std.specs.Prelude.{◌<◌};
    ghost use Rattle.rsml_io.specs.FilesState.{FilesState};

    ghost Value = { FilesState };

    ghost view = { λ f. record {
      most = f.most;
      files = f.files.items;
      unknown = f.unknown;
      cuts = f.cuts.items;
      calls = f.calls;
      failing = f.failing.items;
    } };

    ghost invariant = { λ f. 0 < f.most };
}

impl MemoryFiles {
    /// No files. A read is to give at most `most` bytes. It takes no memory.
    pub fn new(alloc: Global, most: usize) -> MemoryFiles
        requires { 0 < most }
        ensures { result ≡ no_files most }
    {
        MemoryFiles {
            alloc,
            most,
            files: Vec::new(alloc),
            unknown: 0,
            cuts: Vec::new(alloc),
            calls: 0,
            failing: Vec::new(alloc),
        }
    }

    /// Adds a file. One that is added again has the new bytes, and keeps its reach and its count of
    /// refused reads.
    pub fn add(&mut self, name: &str, bytes: &[u8]) -> Result<(), NoMemory>
        ensures ok { OnOk result (AddsFile self.old self.new name.now bytes.now) }
        ensures err { OnErr result (self.new ≡ self.old) }
    {
        put(self.alloc, &mut self.files, name, bytes)
    }

    /// Has one more read refused, the reads being counted from 1.
    pub fn fail_call(&mut self, call: u64) -> Result<(), NoMemory>
        ensures ok { OnOk result
            (self.new ≡ record self.old { failing = self.old.failing ++ call ∷ [] }) }
        ensures err { OnErr result (self.new ≡ self.old) }
    {
        self.failing.push(call)?;
        Ok(())
    }

    /// Has the reads of a file cut at a place, and those from there on refused. The last place for
    /// a name counts.
    pub fn fail_from(&mut self, name: &str, at: u64) -> Result<(), NoMemory>
        ensures ok { OnOk result (self.new ≡ record self.old {
          cuts = self.old.cuts ++ record { name = name.now; at = at } ∷ [];
        }) }
        ensures err { OnErr result (self.new ≡ self.old) }
    {
        let name = Text::new(self.alloc, name.as_bytes())?;
        self.cuts.push(Cut { name, at })?;
        Ok(())
    }

    /// What the next read gives, of a file from a place on into so much room. None where it is
    /// refused.
    fn next_read(&self, name: &str, at: u64, room: usize) -> Option<&[u8]>
        ensures refused { IsNone result ↔ Refuses self.now name.now at }
        ensures given { IfSome result (λ piece. piece.now ≡ given self.now name.now at room) }
        ensures most { 0 < self.now.most }
        ensures fits { IfSome result (λ piece. at + length piece.now < 2 ^ 64) }
    {
        let call = self.calls.saturating_add(1);
        if self.failing.contains(&call) {
            return None;
        }
        let file = file_of(self.files.as_slice(), name)?;
        let cut = cut_of(self.cuts.as_slice(), name);
        if cut.is_some_and(|cut| cut <= at) {
            return None;
        }
        Some(piece_from(uncut(file.bytes.bytes(), cut), at, room.min(self.most)))
    }

    /// Counts a read that gave n bytes of a file from a place on.
    fn count_read(&mut self, name: &str, at: u64, n: usize)
        requires { at + n < 2 ^ 64 }
        ensures { CountsRead self.old self.new name.now at n }
    {
        self.calls = self.calls.saturating_add(1);
        let end = if n == 0 { 0 } else { at + n as u64 };
        count_reach(&mut self.files, name, end);
    }

    /// Counts a read that was refused.
    fn count_refusal(&mut self, name: &str)
        ensures refusal { CountsRefusal self.old self.new name.now }
        ensures count { (file : List ℕ) → faults self.old file ≤ faults self.new file }
    {
        self.calls = self.calls.saturating_add(1);
        if !count_fault(&mut self.files, name) {
            self.unknown = self.unknown.saturating_add(1);
        }
    }
}

/// Copies a piece to the front of `into`, and says how long it is.
fn copy_to_front(piece: &[u8], into: &mut [u8]) -> usize
    requires { length piece.now ≤ length into.old }
    ensures n { result ≡ length piece.now }
    ensures front { take result into.new ≡ piece.now }
{
    let (front, _) = into.split_at_mut(piece.len());
    front.copy_from_slice(piece);
    piece.len()
}

impl Files for MemoryFiles {
    ghost contents = { λ state name. Some (contents state name) };

    ghost reach = { λ state name. Some (reach state name) };

    ghost faults = { faults };

    fn read(&mut self, name: &str, at: u64, into: &mut [u8]) -> Result<usize, Failed>
        // What every value of files promises.
        ensures bound { IfOk result (λ n. n ≤ length into.old) }
        ensures piece { IfOk result (λ n. GivesPiece (contents self.old name.now) at into.new n) }
        ensures reached { IfOk result (λ n. Some (reach self.new name.now)
            ≡ reach_after (Some (reach self.old name.now)) at n) }
        ensures cause { OnErr result (Rose (faults self.old name.now) (faults self.new name.now)) }
        ensures unread { OnErr result
            (Some (reach self.new name.now) ≡ Some (reach self.old name.now)) }
        ensures contents { (file : List ℕ) →
            Some (contents self.new file) ≡ Some (contents self.old file) }
        ensures count { (file : List ℕ) → faults self.old file ≤ faults self.new file }
        ensures others { (file : List ℕ) → file ≢ name.now →
            Some (reach self.new file) ≡ Some (reach self.old file) }

        // Of this one: when a read is refused, what another gives, and what each leaves.
        ensures refusal { IsErr result ↔ Refuses self.old name.now at }
        ensures given { IfOk result (λ n.
            take n into.new ≡ given self.old name.now at (length into.old)) }
        ensures ok { IfOk result (λ n. CountsRead self.old self.new name.now at n) }
        ensures err { OnErr result (CountsRefusal self.old self.new name.now) }
    {
        match self.next_read(name, at, into.len()) {
            Some(piece) => {
                let n = copy_to_front(piece, into);
                self.count_read(name, at, n);
                Ok(n)
            }
            None => {
                self.count_refusal(name);
                Err(Failed)
            }
        }
    }
}
