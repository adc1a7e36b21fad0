ghost use Rattle.std.specs.Prelude.{◌≡◌, ◌≢◌, ◌↔◌, ℕ, ◌+◌, ◌*◌, ◌<◌, ◌≤◌, List, Ok, Some, None, true, length, IfOk, IfSome, OnErr};
ghost use Rattle.rsml_io.specs.Counts.{Rose};
ghost use Rattle.event_file.specs.Fronts.{HasNoEnd, IsFront};
ghost use Rattle.event_file.specs.Reading.{limits_of, IsAllowed, new_reading, taken, HoldsLine, Fits, Answers};
ghost use Rattle.event_file.specs.declared.front.Front.TheVariants as front;
ghost use Rattle.event_file.specs.declared.next.Next.TheVariants as next;
ghost use Rattle.event_file.specs.helpers.Windows.{Holds};
ghost use Rattle.event_file.specs.helpers.Turns.{settle, give, count_long};

use crate::front::{Front, front_of};
use crate::limits::Limits;
use crate::line_buffer::LineBuffer;
use crate::next::Next;
use crate::trimming::trimmed;
use rsml_base::NoMemory;
use rsml_io::{Failed, Files};
use std::alloc::Global;
use std::marker::Model;

/// How many of the longest lines a reader has room for.
const LINES: usize = 4;

/// Reads the lines of a file one after another, within limits. It holds a few lines at a time.
#[derive(Drop)]
pub struct LineReader {
    limits: Limits,
    buffer: LineBuffer,
    at: u64,
    number: u64,
    settled: Option<Next>,
}

impl Model for LineReader {
    ghost use Rattle.std.specs.Prelude.{◌≡◌, ◌≢◌, ◌+◌, ◌*◌, ◌≤◌, None, Some};
    ghost use Rattle.event_file.specs.declared.next.Next.TheVariants as next;
    ghost use Rattle.event_file.specs.Reading.{Reading, limits_of, IsAllowed};

    ghost Value = { Reading };

    ghost view = { λ r. record {
      limits = limits_of r.limits;
      at = r.at;
      held = r.buffer.held;
      number = r.number;
      line = r.buffer.line;
      settled = r.settled;
    } };

    ghost invariant = { λ r. IsAllowed r.limits × (r.buffer.room ≡ 4 * (r.limits.line + 1))
        × (r.at ≤ r.limits.file) × (r.settled ≡ None → r.number ≤ r.at)
        × (r.settled ≢ Some next.Line) };
}

impl LineReader {
    /// A reader of any file. It takes all its memory here.
    pub fn new(alloc: Global, limits: Limits) -> Result<LineReader, NoMemory>
        requires { IsAllowed limits }
        ensures new { IfOk result (λ r. r ≡ new_reading (limits_of limits)) }
        ensures fits { IfOk result (λ r. (content : List ℕ) → Fits content r) }
    {
        Ok(LineReader {
            limits,
            buffer: LineBuffer::new(alloc, LINES * (limits.line + 1))?,
            at: 0,
            number: 0,
            settled: None,
        })
    }

    /// The last line, without one CR at its end.
    pub fn line(&self) -> &[u8]
        ensures { result.now ≡ self.now.line }
    {
        self.buffer.line()
    }

    /// The number of the last line, or of one that is too long, counted from 1.
    pub fn number(&self) -> u64
        ensures { result ≡ self.now.number }
    {
        self.number
    }

    /// The bytes that are held, from the beginning of the next line on: never more than four of the longest lines, each with its LF.
    pub fn held(&self) -> &[u8]
        ensures held { result.now ≡ self.now.held }
        ensures room { length self.now.held ≤ 4 * (self.now.limits.line + 1) }
    {
        self.buffer.held()
    }

    /// Whether a whole line is held that is not too long, so that `next` reads nothing.
    pub fn holds_line(&self) -> bool
        ensures { (result ≡ true) ↔ HoldsLine self.now }
    {
        matches!(
            front_of(self.buffer.held(), self.limits.line),
            Front::Whole(_)
        )
    }

    /// Reads on until it is told what the first line is that is held, or the file ends.
    fn fill<F: Files>(&mut self, files: &mut F, name: &str) -> Result<Front, Failed>
        ensures same { self.new ≡ record self.old { held = self.new.held; line = self.new.line } }
        ensures front { IfOk result (λ front. IsFront self.old.limits.line self.new.held front) }
        ensures holds { IfSome (F.contents files.old name.now) (λ file.
            Holds file self.old.at self.old.held → Holds file self.old.at self.new.held) }
        ensures end { result ≡ Ok front.Open → IfSome (F.contents files.old name.now) (λ file.
            length file ≤ self.old.at + length self.new.held) }
        ensures err { OnErr result (IsFront self.old.limits.line self.new.held front.Open) }
        ensures cause { OnErr result
            (Rose (F.faults files.old name.now) (F.faults files.new name.now)) }
        ensures idle { (IsFront self.old.limits.line self.old.held front.Open → ⊥) →
            files.new ≡ files.old }
        ensures reached { F.reach files.old name.now ≡ Some (taken self.old) →
            F.reach files.new name.now ≡ Some (taken self.new) }
        ensures contents { (file : List ℕ) →
            F.contents files.new file ≡ F.contents files.old file }
        ensures count { (file : List ℕ) → F.faults files.old file ≤ F.faults files.new file }
        ensures others { (file : List ℕ) → file ≢ name.now →
            F.reach files.new file ≡ F.reach files.old file }
    {
        self.buffer.fill(files, name, self.at, self.limits.line)
    }

    /// Gives this answer from now on.
    fn settle(&mut self, answer: Next) -> Next
        requires answer { answer ≢ next.Line }
        ensures answer { result ≡ answer }
        ensures settled { self.new ≡ settle answer self.old }
    {
        self.settled = Some(answer);
        answer
    }

    /// Gives a line of so many bytes, and goes over so many.
    fn give(&mut self, width: usize, after: usize)
        requires unsettled { self.old.settled ≡ None }
        requires line { width ≤ length self.old.held }
        requires after { after ≤ length self.old.held }
        requires forward { 0 < after }
        requires within { self.old.at + after ≤ self.old.limits.file }
        ensures { self.new ≡ give width after self.old }
    {
        let line = trimmed(&self.buffer.held()[..width]);
        self.buffer.take_line(line, after);
        self.at += after as u64;
        self.number += 1;
    }

    /// Gives the line whose LF is held after so many bytes, unless the limit of the file cuts it.
    fn give_whole(&mut self, width: usize) -> Next
        requires unsettled { self.old.settled ≡ None }
        requires held { width < length self.old.held }
        ensures cut { self.old.limits.file < self.old.at + width + 1 →
            (result ≡ next.TooLong) × (self.new ≡ settle next.TooLong self.old) }
        ensures line { self.old.at + width + 1 ≤ self.old.limits.file →
            (result ≡ next.Line) × (self.new ≡ give width (width + 1) self.old) }
    {
        let _ = self.buffer.held();
        if self.at + width as u64 + 1 > self.limits.file {
            return self.settle(Next::TooLong);
        }
        self.give(width, width + 1);
        Next::Line
    }

    /// Gives all bytes that are held as the last line, unless there are none or the limit of the
    /// file cuts them.
    fn give_last(&mut self) -> Next
        requires unsettled { self.old.settled ≡ None }
        ensures end { length self.old.held ≡ 0 →
            (result ≡ next.End) × (self.new ≡ settle next.End self.old) }
        ensures cut { 0 < length self.old.held →
            self.old.limits.file < self.old.at + length self.old.held →
            (result ≡ next.TooLong) × (self.new ≡ settle next.TooLong self.old) }
        ensures line { 0 < length self.old.held →
            self.old.at + length self.old.held ≤ self.old.limits.file →
            (result ≡ next.Line) × (self.new
            ≡ settle next.End (give (length self.old.held) (length self.old.held) self.old)) }
    {
        let width = self.buffer.held().len();
        if width == 0 {
            return self.settle(Next::End);
        }
        if self.at + width as u64 > self.limits.file {
            return self.settle(Next::TooLong);
        }
        self.give(width, width);
        self.settle(Next::End);
        Next::Line
    }

    /// Counts the next line, which is too long.
    fn find_long(&mut self) -> Next
        requires unsettled { self.old.settled ≡ None }
        ensures answer { result ≡ next.LineTooLong }
        ensures settled { self.new ≡ settle next.LineTooLong (count_long self.old) }
    {
        self.number += 1;
        self.settled = Some(Next::LineTooLong);
        Next::LineTooLong
    }

    /// The next line of a file that the reader fits, or why there is none. An answer but `Line`
    /// stands from then on. It reads only where no whole line is held, and to see that no line is
    /// left before the limit of the file it looks past that by one line.
    pub fn next<F: Files>(&mut self, files: &mut F, name: &str) -> Next
        requires { IfSome (F.contents files.old name.now) (λ content. Fits content self.old) }

        // Where it is told what the file holds.
        ensures told { IfSome (F.contents files.old name.now) (λ content.
            Answers content self.old result self.new) }

        // Whether that is told or not.
        ensures settles { result ≢ next.Line → self.new.settled ≡ Some result }
        ensures repeats { IfSome self.old.settled (λ answer.
            (result ≡ answer) × (self.new ≡ self.old) × (files.new ≡ files.old)) }
        ensures fault { result ≡ next.ReadFault → self.old.settled ≡ None →
            HasNoEnd self.new.held
            × Rose (F.faults files.old name.now) (F.faults files.new name.now) }
        ensures forward { result ≡ next.Line → self.old.at < self.new.at }
        ensures number { result ≡ next.Line → self.new.number ≡ self.old.number + 1 }
        ensures long { result ≡ next.LineTooLong → self.old.settled ≡ None →
            self.new.number ≡ self.old.number + 1 }
        ensures stays { result ≢ next.Line → self.new.at ≡ self.old.at }
        ensures unrefused { result ≡ next.Line → self.new.settled ≢ Some next.ReadFault }
        ensures within { self.new.at ≤ self.new.limits.file }
        ensures limits { self.new.limits ≡ self.old.limits }

        // What it reads.
        ensures idle { (HasNoEnd self.old.held → ⊥) → files.new ≡ files.old }
        ensures reached { F.reach files.old name.now ≡ Some (taken self.old) →
            F.reach files.new name.now ≡ Some (taken self.new) }
        ensures contents { (file : List ℕ) →
            F.contents files.new file ≡ F.contents files.old file }
        ensures count { (file : List ℕ) → F.faults files.old file ≤ F.faults files.new file }
        ensures others { (file : List ℕ) → file ≢ name.now →
            F.reach files.new file ≡ F.reach files.old file }
    {
        if let Some(answer) = self.settled {
            return answer;
        }
        let front = match self.fill(files, name) {
            Ok(front) => front,
            Err(Failed) => return self.settle(Next::ReadFault),
        };
        match front {
            Front::Whole(width) => self.give_whole(width),
            Front::Long => self.find_long(),
            Front::Open => self.give_last(),
        }
    }
}
