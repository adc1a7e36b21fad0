ghost use Rattle.std.specs.Prelude.{◌≡◌, ◌++◌, ◌≤◌, IfOk, OnOk, decimal, drop, length, string_bytes};
ghost use Rattle.rsml_meaning.specs.Texts.{text_line};
ghost use Rattle.demonstrating.specs.Laws.{IsDemo};
ghost use Rattle.demonstrating.specs.Text.{text};
ghost use Rattle.judging.specs.Judgements.{IsJudgement};
ghost use Rattle.demonstrating.specs.Steps as steps;
ghost use Rattle.demonstrating.specs.Summary.{AreCountsOf, AreEventsOf, IsPlantOf, IsReportOf, IsSummary, count_lines, demo_line};

use crate::{demo_events_are_well_formed, demos_are_certified, generate, generate_events};
use answering::{Status, finish};
use elaborate::{Machine, elaborate};
use judging::{Judgement, judge};
use rsml_base::{put, put_number};
use rsml_io::Sink;
use rsml_lexer::{at_most_one_first_fault, at_most_one_token_list, never_both};
use rsml_meaning::last_lines_tell_the_verdict;
use rsml_parser::tokens_have_one_answer;
use rsml_syntax::{Checked, NoMemory};
use run_counts::{Counts, count_run};
use std::alloc::Global;

/// How many bytes the first line of the report has, `specification Demo`.
const FIRST_LINE: usize = 19;

/// The plant of so many units, with the report on it.
pub struct Plant {
    checked: Checked,
    report: Vec<u8>,
}

impl Drop for Plant {
    fn drop(self) {
        let Self {
            checked: _,
            report: _,
        } = self;
    }
}

/// The plant of a judgement of its text. None other than a certificate comes.
fn plant_in(units: u32, judgement: Judgement) -> Result<Plant, NoMemory>
    requires demo { IsDemo units }
    requires judged { IsJudgement (text units) judgement }
    ensures plant { IfOk result (λ p. IsPlantOf units p.checked) }
    ensures report { IfOk result (λ p. IsReportOf units p.report.items) }
{
    at_most_one_first_fault();
    at_most_one_token_list();
    never_both();
    tokens_have_one_answer();
    match judgement {
        Judgement::Certified { report, checked } => Ok(Plant { checked, report }),
        _ => Err(NoMemory),
    }
}

/// Reads and judges the text of a plant of so many units.
fn judged_plant(alloc: Global, units: u32) -> Result<Plant, NoMemory>
    requires { IsDemo units }
    ensures plant { IfOk result (λ p. IsPlantOf units p.checked) }
    ensures report { IfOk result (λ p. IsReportOf units p.report.items) }
{
    let text = generate(alloc, units)?;
    let judgement = judge(alloc, text.as_bytes())?;
    plant_in(units, judgement)
}

/// The text of the events for so many units.
fn events_for(alloc: Global, units: u32) -> Result<String, NoMemory>
    requires some { 1 ≤ units }
    requires few { units ≤ 64 }
    ensures { IfOk result (λ made. AreEventsOf units (string_bytes made)) }
{
    generate_events(alloc, units)
}

/// Counts the run of events of a machine of the plant of so many units.
fn counted_on(
    alloc: Global,
    units: u32,
    checked: &Checked,
    machine: &Machine<'_>,
    events: &[u8],
) -> Result<Counts, NoMemory>
    requires some { 1 ≤ units }
    requires few { units ≤ 64 }
    requires plant { IsPlantOf units checked.now }
    requires machine { machine.now.base.spec ≡ checked.now }
    requires events { AreEventsOf units events.now }
    ensures { IfOk result (AreCountsOf units) }
{
    demo_events_are_well_formed();
    count_run(alloc, checked, machine, events)
}

/// Counts the run of the events for so many units.
fn counted(alloc: Global, units: u32, checked: &Checked) -> Result<Counts, NoMemory>
    requires some { 1 ≤ units }
    requires few { units ≤ 64 }
    requires plant { IsPlantOf units checked.now }
    ensures { IfOk result (AreCountsOf units) }
{
    let machine = elaborate(alloc, checked)?;
    let events = events_for(alloc, units)?;
    counted_on(alloc, units, checked, &machine, events.as_bytes())
}

/// Puts a line of words and a number at the end of a text.
#[tactic(auto, using(std::proofs::lemmas::List::append_assoc))]
fn put_line(text: &mut Vec<u8>, words: &[u8], number: u64) -> Result<(), NoMemory>
    ensures { OnOk result (text.new.items ≡ text.old.items ++ text_line (words.now ++ decimal number)) }
{
    put(text, words)?;
    put_number(text, number)?;
    put(text, b"\n")?;
    Ok(())
}

/// Puts what was counted at the end of a text.
#[tactic(auto, using(std::proofs::lemmas::List::append_assoc))]
fn put_counts(text: &mut Vec<u8>, counts: Counts) -> Result<(), NoMemory>
    ensures { OnOk result (text.new.items ≡ text.old.items ++ count_lines counts) }
{
    put_line(text, b"events ", counts.events)?;
    put_line(text, b"rounds ", counts.rounds)?;
    put_line(text, b"takes ", counts.takes)?;
    put_line(text, b"moves ", counts.moves)?;
    Ok(())
}

/// The text of a summary, by the report and what was counted.
#[tactic(auto, using(std::proofs::lemmas::List::append_assoc))]
fn summary_text(
    alloc: Global,
    units: u32,
    report: &[u8],
    counts: Counts,
) -> Result<Vec<u8>, NoMemory>
    requires { 19 ≤ length report.now }
    ensures { IfOk result (λ v. v.items ≡ demo_line units ++ (drop 19 report.now ++ count_lines counts)) }
{
    let (_, verdict) = report.split_at(FIRST_LINE);
    let mut text = Vec::new(alloc);
    put_line(&mut text, b"demo ", u64::from(units))?;
    put(&mut text, verdict)?;
    put_counts(&mut text, counts)?;
    Ok(text)
}

/// The summary of so many units.
fn summary(alloc: Global, units: u32) -> Result<Vec<u8>, NoMemory>
    requires some { 1 ≤ units }
    requires few { units ≤ 64 }
    ensures { IfOk result (λ v. IsSummary units v.items) }
{
    demos_are_certified();
    last_lines_tell_the_verdict();
    let plant = judged_plant(alloc, units)?;
    let counts = counted(alloc, units, &plant.checked)?;
    summary_text(alloc, units, plant.report.as_slice(), counts)
}

/// Generates the specification and the events of 1 to 64 units, judges the one and counts the run of the others, and writes the
/// summary. It ends with `Done`, `WriteFault` or `NoMemory`.
pub fn demo<K: Sink>(alloc: Global, units: u32, sink: &mut K) -> Status
    requires some { 1 ≤ units }
    requires few { units ≤ 64 }
    ensures demonstrated { steps.HasDemonstrated units (record {
      written = K.written sink.old;
      written_after = K.written sink.new;
      refusals = K.faults sink.old;
      refusals_after = K.faults sink.new;
    }) result }
    ensures count { K.faults sink.old ≤ K.faults sink.new }
{
    match summary(alloc, units) {
        Ok(text) => finish(sink, text.as_slice(), Status::Done),
        Err(NoMemory) => Status::NoMemory,
    }
}
