ghost use Rattle.std.specs.Prelude.{◌≡◌, ◌≢◌, ◌<◌, ◌≤◌, ◌^◌, ◌∷◌, ◌++◌, ℕ, List, [], IfOk, IfSome, Some, length, map, slice_get};
ghost use Rattle.std.specs.Option.{option_copied};
ghost use Rattle.std.specs.List.{AllZip};
ghost use Rattle.rsml_io.specs.Counts.{Rose};
ghost use Rattle.rsml_meaning.specs.Certified.{Certified};
ghost use Rattle.rsml_meaning.specs.Steps.{Round};
ghost use Rattle.rsml_meaning.specs.Words.{Each};
ghost use Rattle.text_writer.specs.Writes.{Writes};
ghost use Rattle.event_file.specs.Reading.{taken};
ghost use Rattle.reactions.specs.Stepping.{IsExternal};
ghost use Rattle.simulator.specs.Simulation as simulation;
ghost use Rattle.simulator.specs.declared.sim_end.SimEnd.TheVariants as end;
ghost use Rattle.coverage.specs.Counters.{IsNew, ground_cells};
ghost use Rattle.coverage.specs.Coverage.{coverage};
ghost use Rattle.coverage.specs.Outputs.{IsCounted};
ghost use Rattle.coverage.specs.Rounds.{HasAllNumbers, IsLast};
ghost use Rattle.coverage.specs.Steps.{HasRoom, StepIsCounted};
ghost use Rattle.coverage.specs.Text.{coverage_text};

use crate::counter::Counter;
use crate::listener::Listener;
use crate::rounds::{count_sent, count_taken};
use crate::tally::Tally;
use crate::texts::{put_cases, put_name, put_sums, put_transitions, zeros};
use elaborate::Machine;
use instance_texts::Texts;
use rsml_io::Files;
use rsml_syntax::{Checked, NoMemory};
use simulator::{SimEnd, Simulator, Upcoming, end_by};
use std::alloc::Global;
use std::marker::Model;
use text_writer::Writer;

/// In how many rounds each transition and each case of a send reacted, and in how many of these each column of its table was true. Only
/// `new` takes memory.
pub struct Counts<'m, 'a> {
    machine: &'m Machine<'a>,
    transitions: Vec<Counter>,
    send_cases: Vec<Counter>,
}

impl Drop for Counts<'_, '_> {
    fn drop(self) {
        let Self {
            machine: _,
            transitions: _,
            send_cases: _,
        } = self;
    }
}

impl<'m, 'a> Model for Counts<'m, 'a> {
    ghost use Rattle.std.specs.Prelude.{map};
    ghost use Rattle.std.specs.Coded.{codes};
    ghost use Rattle.std.specs.List.{AllZip};
    ghost use Rattle.rsml_syntax.specs.contracts.syntax.Body as bodies;
    ghost use Rattle.rsml_meaning.specs.Interfaces as interfaces;
    ghost use Rattle.rsml_meaning.specs.Transitions as meaning;
    ghost use Rattle.coverage.specs.Counters.{IsOf};
    ghost use Rattle.coverage.specs.Coverage.{Coverage};

    ghost Value = { Coverage };

    ghost coded = { Prim.hlevel (codes, bodies.the_row.coded) };

    ghost view = { λ c. record {
      spec = c.machine.now.base.spec;
      transitions = map (λ k. k.tally) c.transitions.items;
      send_cases = map (λ k. k.tally) c.send_cases.items;
    } };

    ghost invariant = { λ c. AllZip (λ t k. IsOf t.guard k) (meaning.transitions c.machine.now.base.spec) c.transitions.items
        × AllZip (λ t k. IsOf t.guard k) (interfaces.send_cases c.machine.now.base.spec) c.send_cases.items };
}

/// The counters of the transitions of a machine.
fn of_transitions(alloc: Global, machine: &Machine<'_>) -> Result<Vec<Counter>, NoMemory>
    ensures { IfOk result (λ counters.
        AllZip (λ x c. IsNew (ground_cells x.guard) c) machine.now.transitions counters.items) }
{
    machine.law();
    let mut counters = Vec::new(alloc);
    for number in 0..machine.transitions() {
        counters.push(Counter::new(alloc, machine.transition(number).guard())?)?;
    }
    Ok(counters)
}

/// Those of its cases of sends.
fn of_cases(alloc: Global, machine: &Machine<'_>) -> Result<Vec<Counter>, NoMemory>
    ensures { IfOk result (λ counters.
        AllZip (λ x c. IsNew (ground_cells x.guard) c) machine.now.send_cases counters.items) }
{
    machine.law();
    let mut counters = Vec::new(alloc);
    for number in 0..machine.send_cases() {
        counters.push(Counter::new(alloc, machine.send_case(number).guard())?)?;
    }
    Ok(counters)
}

/// What the counter of a number counted.
fn tally_at(counters: &[Counter], number: u32) -> Option<&Tally>
    ensures { option_copied result ≡ slice_get (map (λ k. k.tally) counters.now) number }
{
    match counters.get(number as usize) {
        Some(counter) => Some(&counter.tally),
        None => None,
    }
}

impl<'m, 'a> Counts<'m, 'a> {
    /// Counters of a machine, which have counted no round yet.
    pub fn new(alloc: Global, machine: &'m Machine<'a>) -> Result<Counts<'m, 'a>, NoMemory>
        ensures { IfOk result (λ c. c ≡ coverage machine.now.base.spec []) }
    {
        machine.law();
        let transitions = of_transitions(alloc, machine)?;
        let send_cases = of_cases(alloc, machine)?;
        Ok(Counts {
            machine,
            transitions,
            send_cases,
        })
    }

    /// Counts the last round of a simulation of the same specification, which took all transitions that were enabled, and asked for all
    /// sends that were.
    fn count_round(&mut self, simulator: &mut Simulator<'_, '_>)
        requires same { simulator.old.spec ≡ self.old.spec }
        requires numbers { HasAllNumbers self.old.spec simulator.old.last }
        requires transitions { Each (λ c. c.count < 2 ^ 63) self.old.transitions }
        requires send_cases { Each (λ c. c.count < 2 ^ 63) self.old.send_cases }
        ensures unchanged { simulator.new ≡ simulator.old }
        ensures counted { (rs : List Round) (r : Round) → IsLast simulator.old.last r
            → self.old ≡ coverage self.old.spec rs → self.new ≡ coverage self.old.spec (rs ++ r ∷ []) }
    {
        let _ = &self.machine;
        count_taken(self.transitions.as_mut_slice(), simulator);
        count_sent(self.send_cases.as_mut_slice(), simulator);
    }

    /// Does the rounds of the event that is present, until none is left, and counts them. There are no more of them than there are events,
    /// as none loops.
    fn count_step(&mut self, simulator: &mut Simulator<'_, '_>)
        requires same { simulator.old.spec ≡ self.old.spec }
        requires certified { Certified self.old.spec }
        requires external { IsExternal simulator.old.spec simulator.old.present }
        requires room { HasRoom 1024 self.old }
        ensures none { simulator.new.present ≡ [] }
        ensures counted { StepIsCounted simulator.old.spec simulator.old.world simulator.old.present simulator.new.world
            self.old self.new }
        ensures rest { simulator.new ≡ record simulator.old {
          world = simulator.new.world;
          present = simulator.new.present;
          last = simulator.new.last;
        } }
    {
        self.machine.law();
        for _turn in 0..self.machine.events() {
            if !simulator.round() {
                return;
            }
            self.count_round(simulator);
        }
    }

    /// Follows an event file from its beginning, and counts the rounds of each event, until there is none left, a line has a fault, or a
    /// read is refused. The simulation is new, and of the same specification. It takes no memory. The listener hears each event.
    pub fn fill<F: Files, L: Listener>(
        &mut self,
        simulator: &mut Simulator<'_, '_>,
        listener: &mut L,
        files: &mut F,
        name: &str,
    ) -> SimEnd
        requires same { simulator.old.spec ≡ self.old.spec }
        requires certified { Certified self.old.spec }
        requires new { simulation.IsNew simulator.old }
        requires empty { self.old ≡ coverage self.old.spec [] }
        requires limits { simulator.old.limits.file ≤ 2 ^ 32 }

        // Where it is told what the file holds.
        ensures told { IfSome (F.contents files.old name.now) (λ content.
            IsCounted simulator.old.spec simulator.old.limits content (taken simulator.new.reading) result self.new) }

        // Whether that is told or not.
        ensures spec { self.new.spec ≡ self.old.spec }
        ensures unwritten { result ≢ end.WriteFault }
        ensures read { result ≡ end.ReadFault →
            Rose (F.faults files.old name.now) (F.faults files.new name.now) }
        ensures reached { F.reach files.old name.now ≡ Some 0 →
            F.reach files.new name.now ≡ Some (taken simulator.new.reading) }
        ensures contents { (file : List ℕ) → F.contents files.new file ≡ F.contents files.old file }
        ensures count { (file : List ℕ) → F.faults files.old file ≤ F.faults files.new file }
        ensures others { (file : List ℕ) → file ≢ name.now →
            F.reach files.new file ≡ F.reach files.old file }
    {
        'events: loop {
            match simulator.next_event(files, name) {
                Upcoming::Event { .. } => {
                    listener.hear(simulator.line());
                    self.count_step(simulator);
                }
                answer => return end_by(answer),
            }
        }
    }

    /// Writes what is counted of a run of so many events: a line for each transition, each case of a send and each column of their tables.
    pub fn put<W: Writer>(&self, out: &mut W, checked: &Checked, texts: &Texts<'_>, events: u64)
        requires checked { checked.now ≡ self.now.spec }
        requires texts { texts.now ≡ self.now.spec }
        ensures { Writes (W.state out.old) (W.text out.old) (coverage_text self.now events) (W.state out.new) (W.text out.new) }
    {
        let machine = self.machine;
        machine.law();
        let transitions = self.transitions.as_slice();
        let send_cases = self.send_cases.as_slice();
        put_name(out, checked);
        put_transitions(out, machine, transitions);
        put_cases(out, machine, texts, send_cases);
        let of_transitions = zeros(transitions, machine.transitions());
        let of_cases = zeros(send_cases, machine.send_cases());
        put_sums(out, events, of_transitions + of_cases);
    }

    /// What is counted of the transition of a number, if there is one.
    pub fn transition(&self, number: u32) -> Option<&Tally>
        ensures { option_copied result ≡ slice_get self.now.transitions number }
    {
        let _ = &self.machine;
        tally_at(self.transitions.as_slice(), number)
    }

    /// What is counted of the case of a send of a number, if there is one.
    pub fn send_case(&self, number: u32) -> Option<&Tally>
        ensures { option_copied result ≡ slice_get self.now.send_cases number }
    {
        let _ = &self.machine;
        tally_at(self.send_cases.as_slice(), number)
    }
}
