ghost use Rattle.std.specs.Prelude.{◌≡◌, ◌<◌, ◌++◌, IfOk, Some, codes, decimal, length, slice_get};
ghost use Rattle.rsml_meaning.specs.Instances.{globals_of};
ghost use Rattle.rsml_meaning.specs.Interfaces.{ReceiveInstance, receives};
ghost use Rattle.rsml_meaning.specs.Steps.{Round};
ghost use Rattle.rsml_meaning.specs.Texts.{text_line};
ghost use Rattle.rsml_meaning.specs.Trace.{event_line, round_text};
ghost use Rattle.micro_step.specs.Micros.{AreEvents};
ghost use Rattle.micro_step.specs.Numbers.{IsFor};
ghost use Rattle.text_writer.specs.Writes.{Writes};
ghost use Rattle.reactions.specs.Rounds.{IsRoundOf};

use crate::events::{put_event_line, put_round_line};
use crate::line_parts::LineParts;
use crate::sends::put_sends;
use crate::take_lines::TakeLines;
use elaborate::Machine;
use event_graph::Events;
use instance_texts::{SentTexts, Texts};
use micro_step::Scratch;
use rsml_syntax::{Checked, NoMemory};
use std::alloc::Global;
use std::marker::Model;
use text_writer::{Writer, put_line_end, put_number};

/// The texts of the traces of a machine. Only `new` takes memory. Contracts see the machine.
pub struct Traces<'m, 'a> {
    machine: &'m Machine<'a>,
    texts: Texts<'a>,
    sent: SentTexts<'a>,
    lines: TakeLines,
    parts: LineParts,
}

impl Drop for Traces<'_, '_> {
    fn drop(self) {
        let Self {
            machine: _,
            texts: _,
            sent: _,
            lines: _,
            parts: _,
        } = self;
    }
}

impl<'m, 'a> Model for Traces<'m, 'a> {
    ghost use Rattle.std.specs.Coded.{codes};
    ghost use Rattle.rsml_syntax.specs.contracts.syntax.Body as bodies;
    ghost use Rattle.elaborate.specs.Machine.{GroundMachine};
    ghost use Rattle.reactions.specs.Lines.{AreTextsOf};

    ghost Value = { GroundMachine };

    ghost coded = { Prim.hlevel (codes, bodies.the_row.coded) };

    ghost view = { λ t. t.machine.now };

    ghost invariant = { λ t. AreTextsOf t.machine.now.base.spec t.texts t.sent t.lines t.parts };
}

impl<'m, 'a> Traces<'m, 'a> {
    /// For a machine of this specification.
    pub fn new(
        alloc: Global,
        checked: &'a Checked,
        machine: &'m Machine<'a>,
    ) -> Result<Traces<'m, 'a>, NoMemory>
        requires { machine.now.base.spec ≡ checked.now }
        ensures { IfOk result (λ t. t ≡ machine.now) }
    {
        let texts = Texts::build(alloc, checked)?;
        let sent = SentTexts::build(alloc, checked)?;
        let lines = TakeLines::new(alloc, machine)?;
        let parts = LineParts::new(alloc, &texts, machine)?;
        Ok(Traces {
            machine,
            texts,
            sent,
            lines,
            parts,
        })
    }

    /// The machine.
    pub fn machine(&self) -> &'m Machine<'a>
        ensures { result.now ≡ self.now }
    {
        let _ = &self.texts;
        self.machine
    }

    /// Writes the line of an event: its number, counted from 1, and the receive by which it came.
    pub fn put_event<W: Writer>(&self, writer: &mut W, number: u64, receive: u32)
        requires { receive < length (receives self.now.base.spec) }
        ensures { (x : ReceiveInstance) → slice_get (receives self.now.base.spec) receive ≡ Some x
            → Writes (W.state writer.old) (W.text writer.old) (event_line number x.receive)
            (W.state writer.new) (W.text writer.new) }
    {
        put_event_line(writer, &self.texts, &self.parts.receives, number, receive);
    }

    /// Writes a round of a step with its number, counted from 1: what was present, and what the micro-step took and sent.
    pub fn put_round<W: Writer>(
        &self,
        writer: &mut W,
        number: u32,
        present: &Events,
        scratch: &Scratch,
    )
        requires events { AreEvents self.now.base.spec present.now }
        requires made { IsFor self.now scratch.now }
        ensures { (r : Round) → IsRoundOf self.now.base.spec present.now scratch.now r
            → Writes (W.state writer.old) (W.text writer.old) (round_text (globals_of self.now.base.spec) (number, r))
            (W.state writer.new) (W.text writer.new) }
    {
        let machine = self.machine;
        let LineParts {
            events: ends,
            firsts,
            ..
        } = &self.parts;
        let count = machine.events();
        put_round_line(writer, &self.texts, ends, firsts, count, number, present);
        self.lines.put_lines(writer, machine, scratch.taken());
        let starts = &self.parts.sends;
        put_sends(writer, machine, &self.texts, starts, &self.sent, scratch);
    }

    /// Writes the last line: how many events there were.
    pub fn put_end<W: Writer>(&self, writer: &mut W, count: u64)
        ensures { Writes (W.state writer.old) (W.text writer.old) (text_line (codes "end " ++ decimal count))
            (W.state writer.new) (W.text writer.new) }
    {
        let _ = &self.texts;
        writer.put(b"end ");
        put_number(writer, count);
        put_line_end(writer);
    }
}
