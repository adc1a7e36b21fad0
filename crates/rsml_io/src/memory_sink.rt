ghost use Rattle.std.specs.Prelude.{◌≡◌, ◌≢◌, ℕ, ◌≤◌, ◌↔◌, [], ◌∷◌, ◌++◌, List, Some, length, take, IfOk, IsErr, OnOk, OnErr};
ghost use Rattle.rsml_io.specs.Counts.{counted, Rose};
ghost use Rattle.rsml_io.specs.Writing.{appended};
ghost use Rattle.rsml_io.specs.SinkState.{empty, Refuses, fitting};

use crate::failed::Failed;
use crate::sink::Sink;
use rsml_base::NoMemory;
use std::alloc::Global;
use std::marker::Model;

/// A sink in memory with room for so many bytes, of which chosen writes are refused.
#[derive(Drop)]
pub struct MemorySink {
    bytes: Vec<u8>,
    room: usize,
    calls: u64,
    failing: Vec<u64>,
    faults: u64,
}

impl Model for MemorySink {
    ghost use Rattle.std.specs.Prelude.{◌≤◌, vec_len, vec_capacity};
    ghost use Rattle.rsml_io.specs.SinkState.{SinkState};

    ghost Value = { SinkState };

    ghost view = { λ s. record {
      bytes = s.bytes.items;
      room = s.room;
      calls = s.calls;
      failing = s.failing.items;
      faults = s.faults;
    } };

    ghost invariant = { λ s. (vec_len s.bytes ≤ s.room) × (s.room ≤ vec_capacity s.bytes) };
}

impl MemorySink {
    /// An empty sink. It takes all its memory here.
    pub fn new(alloc: Global, room: usize) -> Result<MemorySink, NoMemory>
        ensures { IfOk result (λ sink. sink ≡ empty room) }
    {
        Ok(MemorySink {
            bytes: Vec::with_capacity(alloc, room)?,
            room,
            calls: 0,
            failing: Vec::new(alloc),
            faults: 0,
        })
    }

    /// Has one more write refused, the writes being counted from 1, unless it writes nothing.
    pub fn fail_call(&mut self, call: u64) -> Result<(), NoMemory>
        ensures ok { OnOk result
            (self.new ≡ record self.old { failing = self.old.failing ++ call ∷ [] }) }
        ensures err { OnErr result (self.new ≡ self.old) }
    {
        self.failing.push(call)?;
        Ok(())
    }

    /// The bytes written so far.
    pub fn bytes(&self) -> &[u8]
        ensures { result.now ≡ self.now.bytes }
    {
        self.bytes.as_slice()
    }
}

impl Sink for MemorySink {
    ghost written = { λ sink. Some sink.bytes };

    ghost faults = { λ sink. sink.faults };

    fn write(&mut self, bytes: &[u8]) -> Result<usize, Failed>
        // What every sink promises.
        ensures bound { IfOk result (λ n. n ≤ length bytes.now) }
        ensures some { IfOk result (λ n. n ≡ 0 → bytes.now ≡ []) }
        ensures written { IfOk result (λ n.
            Some self.new.bytes ≡ appended (Some self.old.bytes) (take n bytes.now)) }
        ensures cause { OnErr result (Rose self.old.faults self.new.faults) }
        ensures unempty { OnErr result (bytes.now ≢ []) }
        ensures unwritten { OnErr result (Some self.new.bytes ≡ Some self.old.bytes) }
        ensures count { self.old.faults ≤ self.new.faults }

        // Of this one: when a write is refused, how much another takes, and what each leaves.
        ensures refusal { IsErr result ↔ Refuses self.old bytes.now }
        ensures fitting { IfOk result (λ n. n ≡ fitting self.old (length bytes.now)) }
        ensures ok { IfOk result (λ n. self.new ≡ record self.old {
          bytes = self.old.bytes ++ take n bytes.now;
          calls = counted self.old.calls;
        }) }
        ensures err { OnErr result (self.new ≡ record self.old {
          calls = counted self.old.calls;
          faults = counted self.old.faults;
        }) }
    {
        self.calls = self.calls.saturating_add(1);
        if bytes.is_empty() {
            return Ok(0);
        }
        let room = self.room - self.bytes.len();
        if room == 0 || self.failing.contains(&self.calls) {
            self.faults = self.faults.saturating_add(1);
            return Err(Failed);
        }
        let n = room.min(bytes.len());
        self.bytes.extend_from_slice(&bytes[..n]).unwrap();
        Ok(n)
    }
}
