ghost use Rattle.std.specs.Prelude.{◌≡◌, ◌≢◌, ◌≤◌, [], None, IfOk, OnErr, length, take};
ghost use Rattle.std.specs.Io.KnownBytes.{WriteAppends};
ghost use Rattle.rsml_io.specs.Counts.{Rose};
ghost use Rattle.rsml_io.specs.Writing.{appended};
ghost use Rattle.rsml_io.specs.SystemSink.{written};

use crate::failed::Failed;
use crate::files::Files;
use crate::sink::Sink;
use std::alloc::Global;
use std::io::{Read, Seek, SeekFrom, Write};
use std::marker::Model;
use std::{fs, io, rt};

/// A file of the system that is open, and the place from which on it gives bytes.
struct Opened<F> {
    name: String,
    file: F,
    at: u64,
}

impl<F: Drop> Drop for Opened<F> {
    fn drop(self) {
        let Self {
            name: _,
            file: _,
            at: _,
        } = self;
    }
}

impl<F: Read + Seek> Opened<F> {
    /// Reads from a place on. The file is sought only where it is at another one.
    fn read_at(&mut self, at: u64, into: &mut [u8]) -> io::Result<usize>
        ensures { IfOk result (λ n. n ≤ length into.old) }
    {
        if self.at != at {
            self.file.seek(SeekFrom::Start(at))?;
            self.at = at;
        }
        let n = self.file.read(into)?;
        self.at = self.at.saturating_add(n as u64);
        Ok(n)
    }
}

/// The files of the system. The one that was read last stays open: what cannot be sought, as a pipe, is read once, from its start to
/// its end, and another read of it is refused. What files hold is not told. Contracts see the count of refused reads, which all names
/// share.
#[derive(Drop)]
pub struct OsFiles<'a, R: rt::Files> {
    rt: &'a R,
    alloc: Global,
    opened: Option<Opened<R::File>>,
    faults: u64,
}

impl<'a, R: rt::Files> Model for OsFiles<'a, R> {
    ghost use Rattle.std.specs.Prelude.{ℕ};

    ghost Value = { ℕ };

    ghost view = { λ f. f.faults };
}

impl<'a, R: rt::Files> OsFiles<'a, R> {
    pub fn new(alloc: Global, rt: &'a R) -> OsFiles<'a, R>
        ensures { result ≡ 0 }
    {
        OsFiles {
            rt,
            alloc,
            opened: None,
            faults: 0,
        }
    }

    /// Whether the file of that name is open.
    fn is_open(&self, name: &str) -> bool {
        match &self.opened {
            Some(opened) => opened.name.as_str() == name,
            None => false,
        }
    }

    /// Opens a file, unless it is open.
    fn open(&mut self, name: &str) -> io::Result<()>
        ensures { self.new ≡ self.old }
    {
        if !self.is_open(name) {
            self.opened = Some(Opened {
                name: String::from_str(self.alloc, name)?,
                file: fs::open(self.rt, name)?,
                at: 0,
            });
        }
        Ok(())
    }

    /// Reads bytes of a file from a place on.
    fn read_at(&mut self, name: &str, at: u64, into: &mut [u8]) -> io::Result<usize>
        ensures same { self.new ≡ self.old }
        ensures bound { IfOk result (λ n. n ≤ length into.old) }
    {
        self.open(name)?;
        match &mut self.opened {
            Some(opened) => opened.read_at(at, into),
            None => Err(io::Error::from(io::ErrorKind::NotFound)),
        }
    }
}

impl<R: rt::Files> Files for OsFiles<'_, R> {
    ghost contents = { λ _ _. None };

    ghost reach = { λ _ _. None };

    ghost faults = { λ faults _. faults };

    fn read(&mut self, name: &str, at: u64, into: &mut [u8]) -> Result<usize, Failed> {
        match self.read_at(name, at, into) {
            Ok(n) => Ok(n),
            Err(_) => {
                self.faults = self.faults.saturating_add(1);
                Err(Failed)
            }
        }
    }
}

/// A writer of the system, as standard output. Contracts see the writer and the count of refused
/// writes.
#[derive(Drop)]
pub struct OsSink<W> {
    out: W,
    faults: u64,
}

impl<W> Model for OsSink<W> {
    ghost use Rattle.rsml_io.specs.SystemSink.{SystemSink};

    ghost Value = { SystemSink W };

    ghost view = { λ s. record { out = s.out; faults = s.faults } };
}

impl<W: Write + Drop> OsSink<W> {
    pub fn new(out: W) -> OsSink<W>
        ensures { result ≡ record { out = out; faults = 0 } }
    {
        OsSink { out, faults: 0 }
    }
}

impl<W: Write + Drop> Sink for OsSink<W> {
    ghost written = { written };

    ghost faults = { λ sink. sink.faults };

    /// A write that takes nothing of some bytes is a refused one.
    fn write(&mut self, bytes: &[u8]) -> Result<usize, Failed>
        // What every sink promises.
        ensures bound { IfOk result (λ n. n ≤ length bytes.now) }
        ensures some { IfOk result (λ n. n ≡ 0 → bytes.now ≡ []) }
        ensures written { IfOk result (λ n.
            written self.new ≡ appended (written self.old) (take n bytes.now)) }
        ensures cause { OnErr result (Rose self.old.faults self.new.faults) }
        ensures unempty { OnErr result (bytes.now ≢ []) }
        ensures unwritten { OnErr result (written self.new ≡ written self.old) }
        ensures count { self.old.faults ≤ self.new.faults }

        // Of this one: where it is known what the writer holds, that grew by the bytes taken.
        ensures passed { WriteAppends
            (W.contents self.old.out) (W.contents self.new.out) result bytes.now }
    {
        if bytes.is_empty() {
            return Ok(0);
        }
        match self.out.write(bytes) {
            Ok(n) if n > 0 => Ok(n),
            _ => {
                self.faults = self.faults.saturating_add(1);
                Err(Failed)
            }
        }
    }
}
