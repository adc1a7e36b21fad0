ghost use Rattle.std.specs.Prelude.{◌≡◌, ◌≤◌, IfOk, IfSome, None, Some, length, vec_capacity};
ghost use Rattle.rsml_meaning.specs.Worlds.{IsWorld};
ghost use Rattle.reactions.specs.Stepping.{IsIncoming, latched_by};

use interfaces::Interfaces;
use rsml_syntax::{NoMemory, World};
use std::alloc::Global;
use std::marker::Model;

/// A message that waits to be latched, if one does, with room for its numbers. Only `new` takes memory.
#[derive(Drop)]
pub struct Waiting {
    receive: Option<u32>,
    numbers: Vec<i64>,
    room: usize,
}

impl Model for Waiting {
    ghost use Rattle.std.specs.Prelude.{◌≤◌, vec_capacity};
    ghost use Rattle.std.specs.Option.{option_map};
    ghost use Rattle.reactions.specs.Stepping.{Held};

    ghost Value = { Held };

    ghost view = { λ w. record {
      message = option_map (λ k. record { receive = k; numbers = w.numbers.items }) w.receive;
      room = w.room;
    } };

    ghost invariant = { λ w. w.room ≤ vec_capacity w.numbers };
}

/// Has a list hold these numbers alone, for which there is room. They are few, so each is put by itself.
fn hold(held: &mut Vec<i64>, numbers: &[i64])
    requires { length numbers.now ≤ vec_capacity held.old }
    ensures numbers { held.new.items ≡ numbers.now }
    ensures room { vec_capacity held.new ≡ vec_capacity held.old }
{
    held.clear();
    for number in numbers {
        held.push_reserved(*number);
    }
}

impl Waiting {
    /// No message, and room for so many numbers.
    pub fn new(alloc: Global, room: usize) -> Result<Waiting, NoMemory>
        ensures { IfOk result (λ w. w ≡ record { message = None; room = room }) }
    {
        Ok(Waiting {
            receive: None,
            numbers: Vec::with_capacity(alloc, room)?,
            room,
        })
    }

    /// Has the message of a receive with these numbers wait.
    pub fn put(&mut self, receive: u32, numbers: &[i64])
        requires { length numbers.now ≤ self.old.room }
        ensures { self.new ≡ record self.old {
          message = Some (record { receive = receive; numbers = numbers.now });
        } }
    {
        hold(&mut self.numbers, numbers);
        self.receive = Some(receive);
    }

    /// Latches the message that waits, if one does. None waits then.
    pub fn latch(&mut self, interfaces: &Interfaces<'_>, world: &mut World)
        requires world { IsWorld interfaces.now world.old }
        requires message { IfSome self.old.message (IsIncoming interfaces.now) }
        ensures latched { world.new ≡ latched_by interfaces.now world.old self.old.message }
        ensures world { IsWorld interfaces.now world.new }
        ensures none { self.new ≡ record self.old { message = None } }
    {
        if let Some(receive) = self.receive {
            interfaces.latch(world, receive, self.numbers.as_slice());
            self.receive = None;
        }
    }
}
