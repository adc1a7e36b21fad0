ghost use Rattle.std.specs.Prelude.{◌≡◌, ◌≤◌, map, string_bytes, List, ℕ};
ghost use Rattle.rsml.specs.Asked.{asked};
ghost use Rattle.rsml.specs.Commands.{AreCounted, Names};
ghost use Rattle.rsml.specs.Promises.{Runs};
ghost use Rattle.rsml.specs.Steps as steps;

use crate::acting::come_to;
use crate::command::{Command, command_in};
use crate::version::VERSION;
use answering::{Status, answer, finish};
use comparing::same_texts_behave_alike;
use demonstrating::demo;
use following::follow;
use pairing::pair;
use proving::done_is_proved;
use rsml_io::{Files, Sink};
use std::alloc::Global;

/// Does what a command asks for.
fn obey<F: Files, K: Sink>(
    alloc: Global,
    command: Command<'_>,
    files: &mut F,
    sink: &mut K,
) -> Status
    requires { AreCounted (asked command) }
    ensures obeyed { steps.HasObeyed (asked command.entry) (λ name. record {
      told = F.contents files.old name;
      reach = F.reach files.old name;
      reach_after = F.reach files.new name;
      refusals = F.faults files.old name;
      refusals_after = F.faults files.new name;
    }) (record {
      written = K.written sink.old;
      written_after = K.written sink.new;
      refusals = K.faults sink.old;
      refusals_after = K.faults sink.new;
    }) result }
    ensures contents { (file : List ℕ) → F.contents files.new file ≡ F.contents files.old file }
    ensures count { (file : List ℕ) → F.faults files.old file ≤ F.faults files.new file }
    ensures others { (file : List ℕ) → (Names (asked command.entry) file → ⊥)
        → F.reach files.new file ≡ F.reach files.old file }
    ensures sink_count { K.faults sink.old ≤ K.faults sink.new }
{
    match command {
        Command::Act { action, file } => answer(sink, come_to(alloc, action, file, files)),
        Command::Follow {
            action,
            file,
            events,
        } => follow(alloc, action, file, events, files, sink),
        Command::Pair {
            action,
            file,
            other,
        } => pair(alloc, action, file, other, files, sink),
        Command::Demo { units } => demo(alloc, units, sink),
        Command::Version => finish(sink, VERSION, Status::Done),
    }
}

/// Runs the command that the words are. They are those after the program's name.
pub fn run<F: Files, K: Sink>(
    alloc: Global,
    words: &[String],
    files: &mut F,
    sink: &mut K,
) -> Status
    ensures runs { Runs (record {
      words = map (λ word. string_bytes word) words.now;
      file = λ name. record {
        told = F.contents files.old name;
        reach = F.reach files.old name;
        reach_after = F.reach files.new name;
        refusals = F.faults files.old name;
        refusals_after = F.faults files.new name;
      };
      sink = record {
        written = K.written sink.old;
        written_after = K.written sink.new;
        refusals = K.faults sink.old;
        refusals_after = K.faults sink.new;
      };
    }) result }
    ensures contents { (file : List ℕ) → F.contents files.new file ≡ F.contents files.old file }
{
    done_is_proved();
    same_texts_behave_alike();
    match command_in(words) {
        Some(command) => obey(alloc, command, files, sink),
        None => finish(sink, b"usage: rsml COMMAND WORDS\n", Status::Usage),
    }
}
