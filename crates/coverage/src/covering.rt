ghost use Rattle.std.specs.Prelude.{◌≡◌, ◌≢◌, ◌≤◌, ℕ, IfOk, List, OnErr};
ghost use Rattle.rsml_meaning.specs.Certified.{Certified};
ghost use Rattle.text_writer.specs.Writes.{Writes};
ghost use Rattle.event_file.specs.Reading.{IsAllowed, limits_of};
ghost use Rattle.simulator.specs.Simulating.{Follows};
ghost use Rattle.coverage.specs.Outputs.{text_of};
ghost use Rattle.coverage.specs.Text.{covers};

use crate::counted_file::CountedFile;
use crate::counts::Counts;
use crate::listener::Listener;
use elaborate::Machine;
use event_file::Limits;
use instance_texts::Texts;
use rsml_io::{Files, Sink};
use rsml_syntax::{Checked, NoMemory};
use simulator::{SimEnd, Simulator, put_last_line};
use std::alloc::Global;
use text_writer::{Buffer, BufferedSink, Writer};

/// How many bytes wait at most before they are written.
const ROOM: usize = 65536;

/// Writes what counting a file comes to that ends so.
fn put_output<W: Writer>(
    out: &mut W,
    checked: &Checked,
    texts: &Texts<'_>,
    counts: &Counts<'_, '_>,
    end: SimEnd,
)
    requires checked { checked.now ≡ counts.now.spec }
    requires texts { texts.now ≡ counts.now.spec }
    ensures { Writes (W.state out.old) (W.text out.old) (text_of counts.now end) (W.state out.new) (W.text out.new) }
{
    match end {
        SimEnd::Ended { events } => counts.put(out, checked, texts, events),
        end => put_last_line(out, end),
    }
}

/// Counts the run of an event file of a certified specification, and writes what it covers; or the line of the first fault of the file.
/// All memory is taken before the file is read. The listener hears each event.
pub fn cover<'m, 'a, F: Files, K: Sink, L: Listener>(
    alloc: Global,
    checked: &'a Checked,
    machine: &'m Machine<'a>,
    limits: Limits,
    listener: &mut L,
    files: &mut F,
    name: &str,
    sink: &mut K,
) -> Result<CountedFile<'m, 'a>, NoMemory>
    requires machine { machine.now.base.spec ≡ checked.now }
    requires certified { Certified checked.now }
    requires limits { IsAllowed limits }
    ensures follows { IfOk result (λ counted. Follows covers checked.now (limits_of limits) (record {
      told = F.contents files.old name.now;
      reach = F.reach files.old name.now;
      reach_after = F.reach files.new name.now;
      reads_refused = F.faults files.old name.now;
      reads_refused_after = F.faults files.new name.now;
      written = K.written sink.old;
      written_after = K.written sink.new;
      writes_refused = K.faults sink.old;
      writes_refused_after = K.faults sink.new;
    }) counted.end) }
    ensures refused { OnErr result ((files.new ≡ files.old) × (sink.new ≡ sink.old)) }
    ensures contents { (file : List ℕ) → F.contents files.new file ≡ F.contents files.old file }
    ensures count { (file : List ℕ) → F.faults files.old file ≤ F.faults files.new file }
    ensures others { (file : List ℕ) → file ≢ name.now →
        F.reach files.new file ≡ F.reach files.old file }
    ensures sink_count { K.faults sink.old ≤ K.faults sink.new }
{
    let mut simulator = Simulator::new(alloc, checked, machine, limits)?;
    let mut counts = Counts::new(alloc, machine)?;
    let texts = Texts::build(alloc, checked)?;
    let mut buffer = Buffer::new(alloc, ROOM)?;
    let end = counts.fill(&mut simulator, listener, files, name);
    let mut out = BufferedSink::new(sink, &mut buffer);
    put_output(&mut out, checked, &texts, &counts, end);
    if out.finish() {
        Ok(CountedFile {
            end,
            counts,
            simulator,
        })
    } else {
        Ok(CountedFile {
            end: SimEnd::WriteFault,
            counts,
            simulator,
        })
    }
}
