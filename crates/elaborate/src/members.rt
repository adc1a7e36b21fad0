ghost use Rattle.std.specs.Prelude.{◌≡◌, ◌<◌, IfOk, Some, length, map, slice_get};
ghost use Rattle.rsml_meaning.specs.Instances as instances;
ghost use Rattle.macros.specs.Guards.{GuardBelow};
ghost use Rattle.elaborate.specs.Machine.{StandsFor, of_parts};
ghost use Rattle.elaborate.specs.OnEvents as spec;

use crate::count::number_of;
use crate::on_events::{cases_on, transitions_on};
use crate::written::Written;
use ground_members::{SharedSendCase, SharedTransition};
use macros::{FastGuard, Macros};
use rsml_syntax::{NoMemory, Spec};
use std::alloc::Global;
use std::marker::Model;

/// The phrases, transitions and cases of sends of a specification, and what there is on each event.
pub struct Members<'a> {
    macros: Macros<'a>,
    transitions: Vec<SharedTransition>,
    count: u32,
    on: Vec<Vec<u32>>,
    send_cases: Vec<SharedSendCase>,
    case_count: u32,
    cases_on: Vec<Vec<u32>>,
}

impl Drop for Members<'_> {
    fn drop(self) {
        let Self {
            macros: _,
            transitions: _,
            count: _,
            on: _,
            send_cases: _,
            case_count: _,
            cases_on: _,
        } = self;
    }
}

impl<'a> Model for Members<'a> {
    ghost use Rattle.rsml_syntax.specs.contracts.syntax.Body as bodies;
    ghost use Rattle.elaborate.specs.Machine.{GroundMachine};
    ghost use Rattle.elaborate.specs.Members.{AreMembers, machine_of};
    ghost use Rattle.std.specs.Prelude.{map};
    ghost use Rattle.std.specs.Coded.{codes};

    ghost Value = { GroundMachine };

    ghost coded = { Prim.hlevel (codes, bodies.the_row.coded) };

    ghost view = { λ m. machine_of m.macros m.transitions.items m.send_cases.items };

    ghost invariant = { λ m. AreMembers (machine_of m.macros m.transitions.items m.send_cases.items)
        m.count (map (λ l. l.items) m.on.items) m.case_count (map (λ l. l.items) m.cases_on.items) };
}

impl<'a> Members<'a> {
    /// Those of a specification with so many events.
    pub fn new(
        alloc: Global,
        spec: &'a Spec,
        events: u32,
        written: Written,
    ) -> Result<Members<'a>, NoMemory>
        requires stands { StandsFor (of_parts spec.now written.phrases written.definitions.items
            written.transitions.items written.send_cases.items) }
        requires events { events ≡ length (instances.events spec.now) }
        ensures { IfOk result (λ m. m.base.spec ≡ spec.now) }
    {
        let Written {
            phrases,
            definitions,
            transitions,
            send_cases,
        } = written;
        let macros = Macros::new(alloc, spec, phrases, definitions)?;
        let count = number_of(transitions.len())?;
        let on = transitions_on(alloc, events, transitions.as_slice())?;
        let case_count = number_of(send_cases.len())?;
        let cases_on = cases_on(alloc, events, send_cases.as_slice())?;
        Ok(Members {
            macros,
            transitions,
            count,
            on,
            send_cases,
            case_count,
            cases_on,
        })
    }

    /// How many transitions there are.
    pub fn count(&self) -> u32
        ensures { result ≡ length self.now.transitions }
    {
        let _ = &self.macros;
        self.count
    }

    /// How many cases of sends there are.
    pub fn case_count(&self) -> u32
        ensures { result ≡ length self.now.send_cases }
    {
        let _ = &self.macros;
        self.case_count
    }

    /// The phrases, and the macro and function instances.
    pub fn macros(&self) -> &Macros<'a>
        ensures is { result.now ≡ self.now.base }
        ensures stands { StandsFor self.now }
    {
        let _ = &self.count;
        &self.macros
    }

    /// The transitions.
    pub fn transitions(&self) -> &[SharedTransition]
        ensures { result.now ≡ self.now.transitions }
    {
        let _ = &self.macros;
        self.transitions.as_slice()
    }

    /// The cases of sends.
    pub fn send_cases(&self) -> &[SharedSendCase]
        ensures { result.now ≡ self.now.send_cases }
    {
        let _ = &self.macros;
        self.send_cases.as_slice()
    }

    /// The guard of a transition, prepared to be asked.
    pub fn guard(&self, transition: u32) -> &FastGuard
        requires { transition < length self.now.transitions }
        ensures is { slice_get (map (λ x. x.guard) self.now.transitions) transition ≡ Some result.now }
        ensures below { GuardBelow (length self.now.base.phrases) result.now }
    {
        let _ = &self.macros;
        self.transitions[transition as usize].fast_guard()
    }

    /// The guard of a case of a send, prepared to be asked.
    pub fn case_guard(&self, case: u32) -> &FastGuard
        requires { case < length self.now.send_cases }
        ensures is { slice_get (map (λ x. x.guard) self.now.send_cases) case ≡ Some result.now }
        ensures below { GuardBelow (length self.now.base.phrases) result.now }
    {
        let _ = &self.macros;
        self.send_cases[case as usize].fast_guard()
    }

    /// The numbers of the transitions on an event, rising.
    pub fn transitions_on(&self, event: u32) -> &[u32]
        requires { event < length (instances.events self.now.base.spec) }
        ensures { result.now ≡ spec.transitions_on self.now event }
    {
        let _ = &self.macros;
        self.on[event as usize].as_slice()
    }

    /// The numbers of the cases of sends on an event, rising.
    pub fn cases_on(&self, event: u32) -> &[u32]
        requires { event < length (instances.events self.now.base.spec) }
        ensures { result.now ≡ spec.cases_on self.now event }
    {
        let _ = &self.macros;
        self.cases_on[event as usize].as_slice()
    }
}
