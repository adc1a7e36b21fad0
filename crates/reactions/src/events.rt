ghost use Rattle.std.specs.Prelude.{◌≡◌, ◌<◌, ◌≤◌, ◌+◌, ◌++◌, IfSome, Some, true, false, codes, decimal, flat_map, length, slice_get, ℕ};
ghost use Rattle.rsml_meaning.specs.Instances.{events};
ghost use Rattle.rsml_meaning.specs.Interfaces.{ReceiveInstance, receives};
ghost use Rattle.rsml_meaning.specs.Texts.{text_line};
ghost use Rattle.rsml_meaning.specs.Trace.{event_line, round_line};
ghost use Rattle.text_writer.specs.Writes.{Writes};
ghost use Rattle.micro_step.specs.Micros.{AreEvents, events_in};
ghost use Rattle.event_graph.specs.Sets.{has};
ghost use Rattle.reactions.specs.Lines.{ArePartTexts, spaced};
ghost use Rattle.reactions.specs.declared.part.Part.TheVariants as part;

use crate::part::{Part, put_spaced};
use crate::part_texts::PartTexts;
use event_graph::Events;
use instance_texts::Texts;
use text_writer::{Writer, put_line_end, put_number};

/// Writes the line of an event: its number, and the receive by which it came. `ends` are the ends of such lines.
pub fn put_event_line<W: Writer>(
    writer: &mut W,
    texts: &Texts<'_>,
    ends: &PartTexts,
    number: u64,
    receive: u32,
)
    requires { ArePartTexts part.Receive texts.now ends.now }
    ensures { (x : ReceiveInstance) → slice_get (receives texts.now) receive ≡ Some x
        → Writes (W.state writer.old) (W.text writer.old) (event_line number x.receive)
        (W.state writer.new) (W.text writer.new) }
{
    writer.put(b"event ");
    put_number(writer, number);
    ends.put(writer, texts, Part::Receive, receive);
}

/// Writes how the line of a round begins: its number.
fn put_opening<W: Writer>(writer: &mut W, number: u32)
    ensures { Writes (W.state writer.old) (W.text writer.old) (codes "  round " ++ decimal number)
        (W.state writer.new) (W.text writer.new) }
{
    match number {
        1 => writer.put(b"  round 1"),
        2 => writer.put(b"  round 2"),
        _ => {
            writer.put(b"  round ");
            put_number(writer, u64::from(number));
        }
    }
}

/// Writes the events of a set, of which this is the first, each behind a space, and ends the line. There are `count` events,
/// and `ends` are the ends of such lines.
fn put_events<W: Writer>(
    writer: &mut W,
    texts: &Texts<'_>,
    ends: &PartTexts,
    count: u32,
    present: &Events,
    first: usize,
)
    requires count { count ≡ length (events texts.now) }
    requires few { count ≤ 1024 }
    requires present { AreEvents texts.now present.now }
    requires ends { ArePartTexts part.Event texts.now ends.now }
    requires there { has present.now first ≡ true }
    requires first { (q : ℕ) → q < first → has present.now q ≡ false }
    ensures { Writes (W.state writer.old) (W.text writer.old)
        (text_line (flat_map spaced (events_in texts.now present.now)))
        (W.state writer.new) (W.text writer.new) }
{
    let mut event = first;
    while let Some(next) = present.next_below(event + 1, count as usize) {
        put_spaced(writer, texts, event as u32);
        event = next;
    }
    ends.put(writer, texts, Part::Event, event as u32);
}

/// Writes the line of a round piece by piece: its number, and the present events.
fn put_pieces<W: Writer>(
    writer: &mut W,
    texts: &Texts<'_>,
    ends: &PartTexts,
    count: u32,
    number: u32,
    present: &Events,
)
    requires count { count ≡ length (events texts.now) }
    requires few { count ≤ 1024 }
    requires present { AreEvents texts.now present.now }
    requires ends { ArePartTexts part.Event texts.now ends.now }
    ensures { Writes (W.state writer.old) (W.text writer.old) (round_line number (events_in texts.now present.now))
        (W.state writer.new) (W.text writer.new) }
{
    put_opening(writer, number);
    match present.next_below(0, count as usize) {
        Some(first) => put_events(writer, texts, ends, count, present, first),
        None => put_line_end(writer),
    }
}

/// The event of a set of one event. There are `count` events.
fn lone(present: &Events, count: u32) -> Option<u32>
    requires few { count ≤ 1024 }
    requires present { (q : ℕ) → has present.now q ≡ true → q < count }
    ensures there { IfSome result (λ e. has present.now e ≡ true) }
    ensures before { IfSome result (λ e. (q : ℕ) → q < e → has present.now q ≡ false) }
    ensures behind { IfSome result (λ e. (q : ℕ) → e + 1 ≤ q → has present.now q ≡ false) }
{
    let Some(event) = present.next_below(0, count as usize) else {
        return None;
    };
    match present.next_below(event + 1, count as usize) {
        Some(_) => None,
        None => Some(event as u32),
    }
}

/// Writes the line of the first round: in one piece, where one event is present.
fn put_first_line<W: Writer>(
    writer: &mut W,
    texts: &Texts<'_>,
    ends: &PartTexts,
    firsts: &PartTexts,
    count: u32,
    present: &Events,
)
    requires count { count ≡ length (events texts.now) }
    requires few { count ≤ 1024 }
    requires present { AreEvents texts.now present.now }
    requires ends { ArePartTexts part.Event texts.now ends.now }
    requires firsts { ArePartTexts part.First texts.now firsts.now }
    ensures { Writes (W.state writer.old) (W.text writer.old) (round_line 1 (events_in texts.now present.now))
        (W.state writer.new) (W.text writer.new) }
{
    match lone(present, count) {
        Some(event) => firsts.put(writer, texts, Part::First, event),
        None => put_pieces(writer, texts, ends, count, 1, present),
    }
}

/// Writes the line of a round: its number, and the present events. There are `count` events, `ends` are the ends of such lines,
/// and `firsts` those of first rounds with one event.
pub fn put_round_line<W: Writer>(
    writer: &mut W,
    texts: &Texts<'_>,
    ends: &PartTexts,
    firsts: &PartTexts,
    count: u32,
    number: u32,
    present: &Events,
)
    requires count { count ≡ length (events texts.now) }
    requires few { count ≤ 1024 }
    requires present { AreEvents texts.now present.now }
    requires ends { ArePartTexts part.Event texts.now ends.now }
    requires firsts { ArePartTexts part.First texts.now firsts.now }
    ensures { Writes (W.state writer.old) (W.text writer.old) (round_line number (events_in texts.now present.now))
        (W.state writer.new) (W.text writer.new) }
{
    match number {
        1 => put_first_line(writer, texts, ends, firsts, count, present),
        _ => put_pieces(writer, texts, ends, count, number, present),
    }
}
