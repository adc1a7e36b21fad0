ghost use Rattle.std.specs.Prelude.{◌≡◌, ℕ, List, Some, flat_map, length, slice_get};
ghost use Rattle.rsml_meaning.specs.Instances.{globals_of};
ghost use Rattle.rsml_meaning.specs.Interfaces.{SendCaseInstance, send_cases};
ghost use Rattle.rsml_meaning.specs.Trace.{send_line};
ghost use Rattle.rsml_ground.specs.declared.phrases.GroundPhrase as ground;
ghost use Rattle.ground_members.specs.declared.send_cases.GroundSendCase.{GroundSendCase as Case};
ghost use Rattle.ground_members.specs.Members.{SendCaseIs};
ghost use Rattle.micro_step.specs.Numbers.{IsFor, values_of};
ghost use Rattle.text_writer.specs.Writes.{Writes};
ghost use Rattle.reactions.specs.Lines.{ArePartTexts, case_line, line_of, sent_line};
ghost use Rattle.reactions.specs.declared.part.Part.TheVariants as part;

use crate::fields::put_fields;
use crate::part::Part;
use crate::part_texts::PartTexts;
use elaborate::Machine;
use ground_members::{GroundAnswer, SharedSendCase};
use instance_texts::{SentTexts, Texts};
use micro_step::Scratch;
use text_writer::{Writer, put_line_end};

/// Writes a line: a send, and the fields of the case of a number with these numbers. `starts` are how the lines of sends begin.
fn put_line<W: Writer>(
    writer: &mut W,
    texts: &Texts<'_>,
    starts: &PartTexts,
    sent: &SentTexts<'_>,
    send: u32,
    case: u32,
    numbers: &[i64],
)
    requires same { texts.now ≡ sent.now }
    requires starts { ArePartTexts part.Send texts.now starts.now }
    ensures { Writes (W.state writer.old) (W.text writer.old) (line_of sent.now send case numbers.now)
        (W.state writer.new) (W.text writer.new) }
{
    starts.put(writer, texts, Part::Send, send);
    put_fields(writer, sent, case, numbers);
    put_line_end(writer);
}

/// Writes the line of a case of a send, that of a number, with these numbers. Nothing where it is quiet.
fn put_answer<W: Writer>(
    writer: &mut W,
    texts: &Texts<'_>,
    starts: &PartTexts,
    sent: &SentTexts<'_>,
    answered: &SharedSendCase,
    case: u32,
    numbers: &[i64],
)
    requires same { texts.now ≡ sent.now }
    requires starts { ArePartTexts part.Send texts.now starts.now }
    requires values { length numbers.now ≡ length (values_of answered.now.answer) }
    ensures { (ps : List ground.GroundPhrase) (c : SendCaseInstance)
        → slice_get (send_cases sent.now) case ≡ Some c → SendCaseIs ps sent.now c answered.now
        → Writes (W.state writer.old) (W.text writer.old)
        (send_line (globals_of sent.now) (record { send_case = c; values = numbers.now }))
        (W.state writer.new) (W.text writer.new) }
{
    match answered.answer() {
        GroundAnswer::Quiet => {}
        GroundAnswer::Values(_) => put_line(
            writer,
            texts,
            starts,
            sent,
            answered.send(),
            case,
            numbers,
        ),
    }
}

/// Writes the line of the case of a number, with these numbers. Nothing where it is quiet, or where there is none.
fn put_case<W: Writer>(
    writer: &mut W,
    machine: &Machine<'_>,
    texts: &Texts<'_>,
    starts: &PartTexts,
    sent: &SentTexts<'_>,
    case: u32,
    numbers: &[i64],
)
    requires texts { texts.now ≡ machine.now.base.spec }
    requires starts { ArePartTexts part.Send texts.now starts.now }
    requires sent { sent.now ≡ machine.now.base.spec }
    requires values { (x : Case) → slice_get machine.now.send_cases case ≡ Some x
        → length numbers.now ≡ length (values_of x.answer) }
    ensures { Writes (W.state writer.old) (W.text writer.old)
        (case_line machine.now.base.spec case numbers.now)
        (W.state writer.new) (W.text writer.new) }
{
    machine.law();
    match machine.all_send_cases().get(case as usize) {
        Some(answered) => put_answer(writer, texts, starts, sent, answered, case, numbers),
        None => {}
    }
}

/// Writes the lines of the cases of sends that were enabled in the last micro-step, those of quiet ones left out.
pub fn put_sends<W: Writer>(
    writer: &mut W,
    machine: &Machine<'_>,
    texts: &Texts<'_>,
    starts: &PartTexts,
    sent: &SentTexts<'_>,
    scratch: &Scratch,
)
    requires texts { texts.now ≡ machine.now.base.spec }
    requires starts { ArePartTexts part.Send texts.now starts.now }
    requires sent { sent.now ≡ machine.now.base.spec }
    requires made { IsFor machine.now scratch.now }
    ensures { Writes (W.state writer.old) (W.text writer.old)
        (flat_map (sent_line machine.now.base.spec scratch.now.values) scratch.now.sent.items)
        (W.state writer.new) (W.text writer.new) }
{
    let cases = scratch.sent();
    for (place, case) in cases.iter().enumerate() {
        put_case(
            writer,
            machine,
            texts,
            starts,
            sent,
            *case,
            scratch.values(place),
        );
    }
}
