ghost use Rattle.std.specs.Prelude.{◌≡◌, ◌≢◌, ◌↔◌, ◌+◌, ◌-◌, ◌<◌, ◌≤◌, [], ◌++◌, true, false, length, take, drop, vec_len, IfOk};
ghost use Rattle.text_writer.specs.Buffering.{none_waiting};

use rsml_base::NoMemory;
use std::alloc::Global;
use std::marker::Model;

/// Room for bytes that wait to be written. Contracts see the bytes that wait, and how many may wait.
#[derive(Drop)]
pub struct Buffer {
    /// As many bytes as there is room for. The first `len` of them wait.
    bytes: Vec<u8>,
    len: usize,
}

impl Model for Buffer {
    ghost use Rattle.std.specs.Prelude.{◌<◌, ◌≤◌, take, vec_len};
    ghost use Rattle.text_writer.specs.Buffering.{Waiting};

    ghost Value = { Waiting };

    ghost view = { λ b. record { bytes = take b.len b.bytes.items; room = vec_len b.bytes } };

    ghost invariant = { λ b. (0 < vec_len b.bytes) × (b.len ≤ vec_len b.bytes) };
}

/// Moves the bytes from `start` to `end` to the front.
fn move_to_front(bytes: &mut Vec<u8>, start: usize, end: usize)
    requires order { start ≤ end }
    requires within { end ≤ vec_len bytes.old }
    ensures room { vec_len bytes.new ≡ vec_len bytes.old }
    ensures front { take (end - start) bytes.new.items
        ≡ take (end - start) (drop start bytes.old.items) }
{
    bytes.copy_within(start..end, 0);
}

impl Buffer {
    /// Room for so many bytes, of which none waits. All memory is taken here.
    pub fn new(alloc: Global, room: usize) -> Result<Buffer, NoMemory>
        requires { 0 < room }
        ensures { IfOk result (λ b. b ≡ none_waiting room) }
    {
        Ok(Buffer {
            bytes: vec![in alloc; 0u8; room]?,
            len: 0,
        })
    }

    /// The bytes that wait, in order.
    pub fn bytes(&self) -> &[u8]
        ensures { result.now ≡ self.now.bytes }
    {
        &self.bytes[..self.len]
    }

    /// Has bytes wait. There is room for them.
    fn push(&mut self, bytes: &[u8])
        requires { length self.old.bytes + length bytes.now ≤ self.old.room }
        ensures pushed { self.new.bytes ≡ self.old.bytes ++ bytes.now }
        ensures room { self.new.room ≡ self.old.room }
    {
        let end = self.len + bytes.len();
        self.bytes[self.len..end].copy_from_slice(bytes);
        self.len = end;
    }

    /// Has bytes wait where there is room for all of them, and says whether there was.
    pub(crate) fn push_all(&mut self, bytes: &[u8]) -> bool
        ensures fits { (result ≡ true) ↔ (length self.old.bytes + length bytes.now ≤ self.old.room) }
        ensures yes { result ≡ true → self.new.bytes ≡ self.old.bytes ++ bytes.now }
        ensures no { result ≡ false → self.new ≡ self.old }
        ensures room { self.new.room ≡ self.old.room }
    {
        if bytes.len() > self.bytes.len() - self.len {
            return false;
        }
        self.push(bytes);
        true
    }

    /// Has bytes from the front of `bytes` wait, as many as there is room for, and says how many.
    pub(crate) fn fill(&mut self, bytes: &[u8]) -> usize
        ensures bound { result ≤ length bytes.now }
        ensures filled { self.new.bytes ≡ self.old.bytes ++ take result bytes.now }
        ensures some { result < length bytes.now → self.new.bytes ≢ [] }
        ensures room { self.new.room ≡ self.old.room }
    {
        let left = self.bytes.len() - self.len;
        if bytes.len() <= left {
            self.push(bytes);
            bytes.len()
        } else {
            self.push(&bytes[..left]);
            left
        }
    }

    /// Lets bytes from the front go.
    #[tactic(auto, using(std::proofs::lemmas::Slice::between_is))]
    pub(crate) fn remove_front(&mut self, n: usize)
        requires { n ≤ length self.old.bytes }
        ensures rest { self.new.bytes ≡ drop n self.old.bytes }
        ensures room { self.new.room ≡ self.old.room }
    {
        move_to_front(&mut self.bytes, n, self.len);
        self.len -= n;
    }
}
