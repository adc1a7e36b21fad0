ghost use Rattle.std.specs.Prelude.{◌≡◌, ◌++◌, codes, decimal};
ghost use Rattle.rsml_meaning.specs.EventFiles.{long_line, broken_line};
ghost use Rattle.rsml_meaning.specs.Texts.{text_line};
ghost use Rattle.text_writer.specs.Writes.{Writes};
ghost use Rattle.event_lines.specs.Told.{rule_of};
ghost use Rattle.simulator.specs.Outputs as outputs;
ghost use Rattle.simulator.specs.Ends.{last_line};

use crate::sim_end::SimEnd;
use event_lines::LineFault;
use text_writer::{Writer, put_line_end, put_number};

/// The number of the rule that a fault says to be broken, as in `E6`.
fn rule_number(fault: LineFault) -> u64
    ensures { result ≡ outputs.rule_number (rule_of fault) }
{
    match fault {
        LineFault::NotUtf8 => 1,
        LineFault::UnknownInterface => 2,
        LineFault::BadIndex => 3,
        LineFault::WrongField => 4,
        LineFault::ExtraWord => 5,
        LineFault::NotAValue => 6,
        LineFault::OutOfRange => 7,
    }
}

/// Writes the line of a well-formed file: how many events there were.
fn put_end<W: Writer>(out: &mut W, events: u64)
    ensures { Writes (W.state out.old) (W.text out.old) (text_line (codes "end " ++ decimal events))
        (W.state out.new) (W.text out.new) }
{
    out.put(b"end ");
    put_number(out, events);
    put_line_end(out);
}

/// Writes the line of a line that breaks a rule.
fn put_broken<W: Writer>(out: &mut W, line: u64, fault: LineFault)
    ensures { Writes (W.state out.old) (W.text out.old) (outputs.fault_line (broken_line line (rule_of fault)))
        (W.state out.new) (W.text out.new) }
{
    out.put(b"fault line ");
    put_number(out, line);
    out.put(b" E");
    put_number(out, rule_number(fault));
    put_line_end(out);
}

/// Writes the line of a line that is too long.
fn put_long<W: Writer>(out: &mut W, line: u64)
    ensures { Writes (W.state out.old) (W.text out.old) (outputs.fault_line (long_line line))
        (W.state out.new) (W.text out.new) }
{
    out.put(b"fault line ");
    put_number(out, line);
    out.put(b" long");
    put_line_end(out);
}

/// Writes the last line of a simulation that ends so, if it has one.
pub fn put_last_line<W: Writer>(out: &mut W, end: SimEnd)
    ensures { Writes (W.state out.old) (W.text out.old) (last_line end) (W.state out.new) (W.text out.new) }
{
    match end {
        SimEnd::Ended { events } => put_end(out, events),
        SimEnd::LineFault { line, fault } => put_broken(out, line, fault),
        SimEnd::LineTooLong { line } => put_long(out, line),
        SimEnd::ReadFault => out.put(b"fault read\n"),
        SimEnd::TooLong => out.put(b"fault long\n"),
        SimEnd::WriteFault => {}
    }
}
