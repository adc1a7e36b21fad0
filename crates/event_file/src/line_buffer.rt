ghost use Rattle.std.specs.Prelude.{◌≡◌, ◌≢◌, ℕ, ◌+◌, ◌-◌, ◌<◌, ◌≤◌, ◌^◌, [], List, Ok, Some, length, take, drop, vec_len, IfOk, IfSome, OnErr};
ghost use Rattle.rsml_io.specs.Counts.{Rose};
ghost use Rattle.rsml_io.specs.Reading.{GivesPiece, reach_after};
ghost use Rattle.event_file.specs.Fronts.{IsFront};
ghost use Rattle.event_file.specs.declared.front.Front.TheVariants as front;
ghost use Rattle.event_file.specs.helpers.Windows.{Holds, Adds};

use crate::front::{Front, front_of};
use rsml_base::NoMemory;
use rsml_io::{Failed, Files};
use std::alloc::Global;
use std::marker::Model;

/// A line of a file, and the bytes after it that were read already.
#[derive(Drop)]
pub struct LineBuffer {
    bytes: Vec<u8>,
    line_start: usize,
    line_end: usize,
    start: usize,
    end: usize,
}

impl Model for LineBuffer {
    ghost use Rattle.std.specs.Prelude.{◌≤◌, ◌-◌, vec_len, take, drop};
    ghost use Rattle.event_file.specs.helpers.Windows.{Window};

    ghost Value = { Window };

    ghost view = { λ b. record {
      room = vec_len b.bytes;
      line = take (b.line_end - b.line_start) (drop b.line_start b.bytes.items);
      held = take (b.end - b.start) (drop b.start b.bytes.items);
    } };

    ghost invariant = { λ b. (b.line_start ≤ b.line_end) × (b.line_end ≤ vec_len b.bytes)
        × (b.start ≤ b.end) × (b.end ≤ vec_len b.bytes) };
}

/// Moves the bytes from `start` to `end` to the front.
fn move_to_front(bytes: &mut Vec<u8>, start: usize, end: usize)
    requires order { start ≤ end }
    requires within { end ≤ vec_len bytes.old }
    ensures room { vec_len bytes.new ≡ vec_len bytes.old }
    ensures front { take (end - start) bytes.new.items
        ≡ take (end - start) (drop start bytes.old.items) }
{
    if start > 0 {
        bytes.copy_within(start..end, 0);
    }
}

/// Reads bytes of a file from `at` on to the end of the first `front` bytes.
fn read_behind<F: Files>(
    files: &mut F,
    name: &str,
    at: u64,
    bytes: &mut Vec<u8>,
    front: usize,
) -> Result<usize, Failed>
    requires within { front < vec_len bytes.old }
    ensures room { vec_len bytes.new ≡ vec_len bytes.old }
    ensures bound { IfOk result (λ n. front + n ≤ vec_len bytes.old) }
    ensures front { take front bytes.new.items ≡ take front bytes.old.items }
    ensures piece { IfOk result (λ n. IfSome (F.contents files.old name.now) (λ file.
        GivesPiece file at (drop front bytes.new.items) n)) }
    ensures reached { IfOk result (λ n.
        F.reach files.new name.now ≡ reach_after (F.reach files.old name.now) at n) }
    ensures cause { OnErr result (Rose (F.faults files.old name.now) (F.faults files.new name.now)) }
    ensures unread { OnErr result (F.reach files.new name.now ≡ F.reach files.old name.now) }
    ensures contents { (file : List ℕ) → F.contents files.new file ≡ F.contents files.old file }
    ensures count { (file : List ℕ) → F.faults files.old file ≤ F.faults files.new file }
    ensures others { (file : List ℕ) → file ≢ name.now →
        F.reach files.new file ≡ F.reach files.old file }
{
    files.read(name, at, &mut bytes[front..])
}

impl LineBuffer {
    /// An empty one with so much room. It takes all its memory here.
    pub fn new(alloc: Global, room: usize) -> Result<LineBuffer, NoMemory>
        ensures { IfOk result (λ b. b ≡ record { room = room; line = []; held = [] }) }
    {
        Ok(LineBuffer {
            bytes: vec![in alloc; 0u8; room]?,
            line_start: 0,
            line_end: 0,
            start: 0,
            end: 0,
        })
    }

    pub fn line(&self) -> &[u8]
        ensures { result.now ≡ self.now.line }
    {
        &self.bytes[self.line_start..self.line_end]
    }

    pub fn held(&self) -> &[u8]
        ensures held { result.now ≡ self.now.held }
        ensures room { length self.now.held ≤ self.now.room }
    {
        &self.bytes[self.start..self.end]
    }

    /// Takes a line of so many bytes from the front of those held, which begin `after` bytes
    /// further on then.
    pub fn take_line(&mut self, width: usize, after: usize)
        requires line { width ≤ length self.old.held }
        requires after { after ≤ length self.old.held }
        ensures { self.new ≡ record self.old {
          line = take width self.old.held;
          held = drop after self.old.held;
        } }
    {
        self.line_start = self.start;
        self.line_end = self.start + width;
        self.start += after;
    }

    /// Reads bytes of a file from `at` on to the end of those held, and says how many.
    fn read<F: Files>(&mut self, files: &mut F, name: &str, at: u64) -> Result<usize, Failed>
        requires room { length self.old.held < self.old.room }
        ensures room { self.new.room ≡ self.old.room }
        ensures ok { IfOk result (λ n.
            Adds (F.contents files.old name.now) at self.old.held self.new.held n) }
        ensures err { OnErr result (self.new.held ≡ self.old.held) }
        ensures reached { IfOk result (λ n.
            F.reach files.new name.now ≡ reach_after (F.reach files.old name.now) at n) }
        ensures cause { OnErr result
            (Rose (F.faults files.old name.now) (F.faults files.new name.now)) }
        ensures unread { OnErr result (F.reach files.new name.now ≡ F.reach files.old name.now) }
        ensures contents { (file : List ℕ) →
            F.contents files.new file ≡ F.contents files.old file }
        ensures count { (file : List ℕ) → F.faults files.old file ≤ F.faults files.new file }
        ensures others { (file : List ℕ) → file ≢ name.now →
            F.reach files.new file ≡ F.reach files.old file }
    {
        let held = self.end - self.start;
        move_to_front(&mut self.bytes, self.start, self.end);
        self.line_start = 0;
        self.line_end = 0;
        self.start = 0;
        self.end = held;
        let n = read_behind(files, name, at, &mut self.bytes, held)?;
        self.end = held + n;
        Ok(n)
    }

    /// Reads on until what is held, which is of a file from `at` on, tells whether its first line
    /// has more than `most` bytes, or the file ends. No LF is held where a read is refused.
    pub fn fill<F: Files>(
        &mut self,
        files: &mut F,
        name: &str,
        at: u64,
        most: usize,
    ) -> Result<Front, Failed>
        requires most { most < self.old.room }
        requires at { at + self.old.room < 2 ^ 64 }
        ensures room { self.new.room ≡ self.old.room }
        ensures front { IfOk result (λ front. IsFront most self.new.held front) }
        ensures holds { IfSome (F.contents files.old name.now) (λ file.
            Holds file at self.old.held → Holds file at self.new.held) }
        ensures end { result ≡ Ok front.Open → IfSome (F.contents files.old name.now) (λ file.
            length file ≤ at + length self.new.held) }
        ensures err { OnErr result (IsFront most self.new.held front.Open) }
        ensures cause { OnErr result
            (Rose (F.faults files.old name.now) (F.faults files.new name.now)) }
        ensures idle { (IsFront most self.old.held front.Open → ⊥) → files.new ≡ files.old }
        ensures reached { F.reach files.old name.now ≡ Some (at + length self.old.held) →
            F.reach files.new name.now ≡ Some (at + length self.new.held) }
        ensures contents { (file : List ℕ) →
            F.contents files.new file ≡ F.contents files.old file }
        ensures count { (file : List ℕ) → F.faults files.old file ≤ F.faults files.new file }
        ensures others { (file : List ℕ) → file ≢ name.now →
            F.reach files.new file ≡ F.reach files.old file }
    {
        'reads: loop {
            let held = self.held();
            let to = at + held.len() as u64;
            match front_of(held, most) {
                Front::Open => {
                    if self.read(files, name, to)? == 0 {
                        return Ok(Front::Open);
                    }
                }
                front => return Ok(front),
            }
        }
    }
}
