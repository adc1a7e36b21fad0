ghost use Rattle.std.specs.Prelude.{◌≡◌, ◌<◌, All, IfOk, IfSome, length};
ghost use Rattle.rsml_meaning.specs.Instances.{events};
ghost use Rattle.elaborate.specs.Machine.{GroundMachine};
ghost use Rattle.elaborate.specs.Enabled.{is_enabled, is_sending};
ghost use Rattle.elaborate.specs.OnEvents as numbers;
ghost use Rattle.micro_step.specs.Candidates.{AreFor, ArePrepared, Fits, HasGuardOf, IsPrepared, TellsOf};

use crate::candidates::Candidate;
use crate::needed::needed_on;
use elaborate::Machine;
use macros::{Asked, StatePhrase};
use rsml_ground::choices_around;
use rsml_syntax::NoMemory;
use std::alloc::Global;

/// How many candidates before a transition are looked through for its guard.
const NEAR: usize = 64;

/// What is prepared for an event: the candidates for the transitions on it and for the cases of sends on it, and the phrases
/// about states alone that may be asked.
pub struct Prepared {
    pub transitions: Vec<Candidate>,
    pub cases: Vec<Candidate>,
    pub states: Vec<StatePhrase>,
}

impl Drop for Prepared {
    fn drop(self) {
        let Self {
            transitions: _,
            cases: _,
            states: _,
        } = self;
    }
}

/// The number at which the truth of a transition's guard is kept: the one of a candidate shortly before it that is asked by the
/// same columns, or else its own. None where the guard is not asked by columns: then its truth is not kept.
fn number_for_guard(earlier: &[Candidate], number: u32, asked: &Asked) -> Option<u32>
    ensures { (m : GroundMachine) → All (Fits m) earlier.now → HasGuardOf m asked.now number
        → IfSome result (HasGuardOf m asked.now) }
{
    if !matches!(asked, Asked::Columns(_)) {
        return None;
    }
    for place in earlier.len().saturating_sub(NEAR)..earlier.len() {
        let candidate = &earlier[place];
        if candidate.asked.has_columns_of(asked) {
            return candidate.kept_at;
        }
    }
    Some(number)
}

/// The candidate for a transition, behind others for transitions.
fn of_transition(
    alloc: Global,
    machine: &Machine<'_>,
    earlier: &[Candidate],
    number: u32,
) -> Result<Candidate, NoMemory>
    requires earlier { All (Fits machine.now) earlier.now }
    requires number { number < length machine.now.transitions }
    ensures number { IfOk result (λ c. c.number ≡ number) }
    ensures tells { IfOk result (TellsOf machine.now (is_enabled machine.now) machine.now.transitions) }
{
    machine.law();
    let transition = machine.transition(number);
    let choices = choices_around(alloc, machine.tree(), transition.source())?;
    let asked = Asked::new(alloc, transition.guard())?;
    let kept_at = number_for_guard(earlier, number, &asked);
    Ok(Candidate {
        number,
        choices,
        asked,
        kept_at,
    })
}

/// The candidate for a case of a send. It has no source, and the truth of its guard is not kept.
fn of_case(alloc: Global, machine: &Machine<'_>, number: u32) -> Result<Candidate, NoMemory>
    requires { number < length machine.now.send_cases }
    ensures number { IfOk result (λ c. c.number ≡ number) }
    ensures tells { IfOk result (TellsOf machine.now (is_sending machine.now) machine.now.send_cases) }
{
    machine.law();
    let choices = Vec::new(alloc);
    let asked = Asked::new(alloc, machine.send_case(number).guard())?;
    Ok(Candidate {
        number,
        choices,
        asked,
        kept_at: None,
    })
}

/// The candidates for the transitions on an event.
fn transitions_on(
    alloc: Global,
    machine: &Machine<'_>,
    event: u32,
) -> Result<Vec<Candidate>, NoMemory>
    requires { event < length (events machine.now.base.spec) }
    ensures { IfOk result (λ cs. AreFor machine.now (is_enabled machine.now) machine.now.transitions
        (numbers.transitions_on machine.now event) cs.items) }
{
    let numbers = machine.transitions_on(event);
    let mut candidates = Vec::with_capacity(alloc, numbers.len())?;
    for number in numbers {
        let next = of_transition(alloc, machine, candidates.as_slice(), *number)?;
        candidates.push(next)?;
    }
    Ok(candidates)
}

/// The candidates for the cases of sends on an event.
fn cases_on(alloc: Global, machine: &Machine<'_>, event: u32) -> Result<Vec<Candidate>, NoMemory>
    requires { event < length (events machine.now.base.spec) }
    ensures { IfOk result (λ cs. AreFor machine.now (is_sending machine.now) machine.now.send_cases
        (numbers.cases_on machine.now event) cs.items) }
{
    let numbers = machine.cases_on(event);
    let mut candidates = Vec::with_capacity(alloc, numbers.len())?;
    for number in numbers {
        candidates.push(of_case(alloc, machine, *number)?)?;
    }
    Ok(candidates)
}

/// What is prepared for an event.
fn on_event(alloc: Global, machine: &Machine<'_>, event: u32) -> Result<Prepared, NoMemory>
    requires { event < length (events machine.now.base.spec) }
    ensures { IfOk result (IsPrepared machine.now event) }
{
    let transitions = transitions_on(alloc, machine, event)?;
    let cases = cases_on(alloc, machine, event)?;
    let states = needed_on(alloc, machine, event)?;
    Ok(Prepared {
        transitions,
        cases,
        states,
    })
}

/// What is prepared for each event.
pub fn on_events(alloc: Global, machine: &Machine<'_>) -> Result<Vec<Prepared>, NoMemory>
    ensures { IfOk result (λ prepared. ArePrepared machine.now prepared.items) }
{
    let count = machine.events();
    let mut prepared = Vec::with_capacity(alloc, count as usize)?;
    for event in 0..count {
        prepared.push(on_event(alloc, machine, event)?)?;
    }
    Ok(prepared)
}
