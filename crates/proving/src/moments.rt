//! The text of a moment at which a micro-step breaks claims.
ghost use Rattle.std.specs.Prelude.{◌≡◌, ◌<◌, All, [], ◌++◌, codes, flat_map, if◌then◌else◌, length};
ghost use Rattle.rsml_meaning.specs.Instances.{events};
ghost use Rattle.rsml_meaning.specs.Transitions.{transitions};
ghost use Rattle.rsml_meaning.specs.Worlds.{IsWorld};
ghost use Rattle.event_graph.specs.Sets.{has};
ghost use Rattle.finding_texts.specs.Numbers.{event_text};
ghost use Rattle.micro_step.specs.Micros.{events_in};
ghost use Rattle.text_writer.specs.Writes.{Writes};
ghost use Rattle.proving.specs.Numbers as spec;
ghost use Rattle.proving.specs.ProveText.{event_part};

use elaborate::Machine;
use event_graph::Events;
use finding_texts::{put_member, put_world};
use ground_groups::Member;
use instance_texts::Texts;
use invariants::Break;
use text_writer::{Writer, put_line_end, put_number};

// Writes the round, and the external event that the step is on.
fn put_round<W: Writer>(writer: &mut W, texts: &Texts<'_>, round: u32, start: u32)
    ensures { Writes (W.state writer.old) (W.text writer.old) (spec.round_text texts.now round start)
        (W.state writer.new) (W.text writer.new) }
{
    writer.put(b"  round ");
    put_number(writer, u64::from(round));
    writer.put(b" of ");
    texts.put_event(writer, start);
    put_line_end(writer);
}

// Writes an event behind a space, or nothing where it is not present.
fn put_if_present<W: Writer>(writer: &mut W, texts: &Texts<'_>, present: &Events, event: u32)
    requires { event < 1024 }
    ensures { Writes (W.state writer.old) (W.text writer.old)
        (if has present.now event then codes " " ++ event_text texts.now event else [])
        (W.state writer.new) (W.text writer.new) }
{
    if present.has(event as usize) {
        writer.put(b" ");
        texts.put_event(writer, event);
    }
}

// Writes each event that is present behind a space.
fn put_present<W: Writer>(
    writer: &mut W,
    machine: &Machine<'_>,
    texts: &Texts<'_>,
    present: &Events,
)
    requires { texts.now ≡ machine.now.base.spec }
    ensures { Writes (W.state writer.old) (W.text writer.old)
        (flat_map event_part (events_in machine.now.base.spec present.now))
        (W.state writer.new) (W.text writer.new) }
{
    for event in 0..machine.events() {
        put_if_present(writer, texts, present, event);
    }
}

// Writes which events are present.
fn put_events<W: Writer>(writer: &mut W, machine: &Machine<'_>, texts: &Texts<'_>, present: &Events)
    requires { texts.now ≡ machine.now.base.spec }
    ensures { Writes (W.state writer.old) (W.text writer.old) (spec.events_text machine.now.base.spec present.now)
        (W.state writer.new) (W.text writer.new) }
{
    writer.put(b"  events");
    put_present(writer, machine, texts, present);
    put_line_end(writer);
}

// Writes a line of a transition that is taken.
fn put_take<W: Writer>(writer: &mut W, machine: &Machine<'_>, number: u32)
    requires { number < length (transitions machine.now.base.spec) }
    ensures { Writes (W.state writer.old) (W.text writer.old) (spec.take_text machine.now.base.spec number)
        (W.state writer.new) (W.text writer.new) }
{
    writer.put(b"  take ");
    put_member(writer, machine, Member::Transition(number));
    put_line_end(writer);
}

// Writes a line of each transition that is taken.
fn put_takes<W: Writer>(writer: &mut W, machine: &Machine<'_>, taken: &[u32])
    requires { All (λ number. number < length (transitions machine.now.base.spec)) taken.now }
    ensures { Writes (W.state writer.old) (W.text writer.old) (flat_map (spec.take_text machine.now.base.spec) taken.now)
        (W.state writer.new) (W.text writer.new) }
{
    for number in taken {
        put_take(writer, machine, *number);
    }
}

/// Writes at which moment a micro-step breaks claims, and which transitions it takes.
pub fn put_break<W: Writer>(writer: &mut W, machine: &Machine<'_>, texts: &Texts<'_>, least: &Break)
    requires texts { texts.now ≡ machine.now.base.spec }
    requires world { IsWorld machine.now.base.spec least.now.world }
    requires taken { All (λ number. number < length (transitions machine.now.base.spec)) least.now.taken.items }
    ensures { Writes (W.state writer.old) (W.text writer.old) (spec.break_text machine.now.base.spec least.now)
        (W.state writer.new) (W.text writer.new) }
{
    put_round(writer, texts, least.round, least.start);
    put_events(writer, machine, texts, &least.present);
    put_world(writer, machine, texts, &least.world);
    put_takes(writer, machine, least.taken.as_slice());
}
