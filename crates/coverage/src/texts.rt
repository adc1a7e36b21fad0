ghost use Rattle.std.specs.Prelude.{◌≡◌, ◌<◌, ◌≤◌, ◌^◌, ◌*◌, ◌++◌, Some, codes, flat_map, length, map, slice_get, zip};
ghost use Rattle.std.specs.List.{sum_by};
ghost use Rattle.rsml_meaning.specs.Interfaces.{SendCaseInstance, send_cases};
ghost use Rattle.rsml_meaning.specs.Texts.{text_line};
ghost use Rattle.rsml_meaning.specs.Transitions.{TransitionInstance, transitions};
ghost use Rattle.text_writer.specs.Writes.{Writes};
ghost use Rattle.coverage.specs.Text.{case_text, column_line, column_lines, sums_text, transition_text, zeros_in};

use crate::counter::Counter;
use crate::tally::Tally;
use elaborate::Machine;
use instance_texts::{Texts, put_case_label, put_label};
use rsml_syntax::Checked;
use text_writer::{Writer, put_line_end, put_number};

/// Writes the first line, which names the specification.
pub fn put_name<W: Writer>(out: &mut W, checked: &Checked)
    ensures { Writes (W.state out.old) (W.text out.old) (text_line (codes "cover " ++ checked.now.name))
        (W.state out.new) (W.text out.new) }
{
    out.put(b"cover ");
    out.put(checked.spec().name.bytes());
    put_line_end(out);
}

/// Writes the line of the column at a place, by its count.
fn put_column<W: Writer>(out: &mut W, place: usize, count: u64)
    requires { place < 2 ^ 63 }
    ensures { Writes (W.state out.old) (W.text out.old) (column_line (place, count)) (W.state out.new) (W.text out.new) }
{
    out.put(b"  column ");
    put_number(out, place as u64 + 1);
    out.put(b" ");
    put_number(out, count);
    put_line_end(out);
}

/// Writes the lines of the columns of a table, by their counts.
fn put_columns<W: Writer>(out: &mut W, counts: &[u64])
    ensures { Writes (W.state out.old) (W.text out.old) (column_lines counts.now) (W.state out.new) (W.text out.new) }
{
    for place in 0..counts.len() {
        put_column(out, place, counts[place]);
    }
}

/// Writes what is counted of the transition of a number.
fn put_transition<W: Writer>(out: &mut W, machine: &Machine<'_>, number: u32, tally: &Tally)
    requires { number < length machine.now.transitions }
    ensures { (t : TransitionInstance) × (slice_get (transitions machine.now.base.spec) number ≡ Some t)
        × Writes (W.state out.old) (W.text out.old) (transition_text (t, tally.now)) (W.state out.new) (W.text out.new) }
{
    machine.law();
    out.put(b"taken ");
    put_number(out, tally.count());
    out.put(b" ");
    put_label(out, machine.tree(), machine.transition(number));
    put_line_end(out);
    put_columns(out, tally.columns());
}

/// Writes what is counted of the case of a send of a number.
fn put_case<W: Writer>(
    out: &mut W,
    machine: &Machine<'_>,
    texts: &Texts<'_>,
    number: u32,
    tally: &Tally,
)
    requires texts { texts.now ≡ machine.now.base.spec }
    requires there { number < length machine.now.send_cases }
    ensures { (c : SendCaseInstance) × (slice_get (send_cases machine.now.base.spec) number ≡ Some c)
        × Writes (W.state out.old) (W.text out.old) (case_text (c, tally.now)) (W.state out.new) (W.text out.new) }
{
    machine.law();
    let case = machine.send_case(number);
    out.put(b"chosen ");
    put_number(out, tally.count());
    out.put(b" send ");
    texts.put_send(out, case.send());
    out.put(b" ");
    put_case_label(out, case.ordinal());
    put_line_end(out);
    put_columns(out, tally.columns());
}

/// Writes what is counted of each transition.
pub fn put_transitions<W: Writer>(out: &mut W, machine: &Machine<'_>, counters: &[Counter])
    requires { length counters.now ≡ length machine.now.transitions }
    ensures { Writes (W.state out.old) (W.text out.old)
        (flat_map transition_text (zip (transitions machine.now.base.spec) (map (λ k. k.tally) counters.now)))
        (W.state out.new) (W.text out.new) }
{
    machine.law();
    for number in 0..machine.transitions() {
        put_transition(out, machine, number, &counters[number as usize].tally);
    }
}

/// Writes what is counted of each case of a send.
pub fn put_cases<W: Writer>(
    out: &mut W,
    machine: &Machine<'_>,
    texts: &Texts<'_>,
    counters: &[Counter],
)
    requires texts { texts.now ≡ machine.now.base.spec }
    requires many { length counters.now ≡ length machine.now.send_cases }
    ensures { Writes (W.state out.old) (W.text out.old)
        (flat_map case_text (zip (send_cases machine.now.base.spec) (map (λ k. k.tally) counters.now)))
        (W.state out.new) (W.text out.new) }
{
    machine.law();
    for number in 0..machine.send_cases() {
        put_case(
            out,
            machine,
            texts,
            number,
            &counters[number as usize].tally,
        );
    }
}

/// How many of the counts of so many counters are 0.
pub fn zeros(counters: &[Counter], many: u32) -> u64
    requires { length counters.now ≡ many }
    ensures is { result ≡ sum_by zeros_in (map (λ k. k.tally) counters.now) }
    ensures few { result ≤ 33 * many }
{
    let mut zeros = 0;
    for counter in counters {
        zeros += counter.tally.zeros();
    }
    zeros
}

/// Writes the last two lines: how many events there were, and how many counts are 0.
pub fn put_sums<W: Writer>(out: &mut W, events: u64, zeros: u64)
    ensures { Writes (W.state out.old) (W.text out.old) (sums_text events zeros) (W.state out.new) (W.text out.new) }
{
    out.put(b"events ");
    put_number(out, events);
    out.put(b"\nuncovered ");
    put_number(out, zeros);
    put_line_end(out);
}
