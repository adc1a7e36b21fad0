//! Where members of a machine are enabled, by the diagrams of its states and of its phrases.
ghost use Rattle.std.specs.Prelude.{◌≡◌, ◌<◌, All, IfOk, length, slice_get};
ghost use Rattle.std.specs.Option.{option_copied};
ghost use Rattle.rsml_meaning.specs.Instances.{states};
ghost use Rattle.bdd_core.specs.Diagram.{IsRef};
ghost use Rattle.bdd_core.specs.Calls.{Keeps, Represents};
ghost use Rattle.ground_groups.specs.declared.group.Member.TheVariants as members;
ghost use Rattle.phrase_diagrams.specs.Diagrams.{truths_at};
ghost use Rattle.guard_encode.specs.Encoding.{IsMember};
ghost use Rattle.guard_encode.specs.Others as spec;

use bdd_core::{Arena, Ref};
use elaborate::Machine;
use ground_groups::Member;
use phrase_diagrams::guard;
use rsml_base::NoMemory;
use rsml_ground::{Definition, GroundGuard};

/// Where a member of a machine is enabled.
pub fn enabled_by(
    arena: &mut Arena,
    active: &[Ref],
    phrases: &[Ref],
    machine: &Machine<'_>,
    member: Member,
) -> Result<Ref, NoMemory>
    requires states { length active.now ≡ length (states machine.now.base.spec) }
    requires active { All (IsRef arena.old) active.now }
    requires many { length phrases.now ≡ length machine.now.base.phrases }
    requires phrases { All (IsRef arena.old) phrases.now }
    requires member { IsMember machine.now member }
    ensures keeps { Keeps arena.old arena.new }
    ensures answer { IfOk result (Represents arena.new (λ values. spec.enabled_by machine.now
        (truths_at arena.old active.now values) (truths_at arena.old phrases.now values) member)) }
{
    machine.law();
    match member {
        Member::Transition(number) => transition(arena, active, phrases, machine, number),
        Member::SendCase(number) => {
            let case = machine.send_case(number);
            let tested = case.guard();
            guard(arena, phrases, tested)
        }
        Member::FunctionCase { function, place } => match case_guard(machine, function, place) {
            Some(tested) => guard(arena, phrases, tested),
            None => Ok(arena.constant(false)),
        },
    }
}

/// Where a transition has an active source and a true guard.
fn transition(
    arena: &mut Arena,
    active: &[Ref],
    phrases: &[Ref],
    machine: &Machine<'_>,
    number: u32,
) -> Result<Ref, NoMemory>
    requires states { length active.now ≡ length (states machine.now.base.spec) }
    requires active { All (IsRef arena.old) active.now }
    requires many { length phrases.now ≡ length machine.now.base.phrases }
    requires phrases { All (IsRef arena.old) phrases.now }
    requires number { number < length machine.now.transitions }
    ensures keeps { Keeps arena.old arena.new }
    ensures answer { IfOk result (Represents arena.new (λ values. spec.enabled_by machine.now
        (truths_at arena.old active.now values) (truths_at arena.old phrases.now values) (members.Transition number))) }
{
    machine.law();
    let transition = machine.transition(number);
    let source = transition.source();
    let tested = transition.guard();
    let here = active[source as usize];
    let truth = guard(arena, phrases, tested)?;
    arena.and(here, truth)
}

/// The guard of the case at a place of a function. None where there is no such case.
fn case_guard<'m>(machine: &'m Machine<'_>, function: u32, place: u32) -> Option<&'m GroundGuard>
    requires { function < length machine.now.base.definitions }
    ensures { option_copied result ≡ spec.case_guard (slice_get machine.now.base.definitions function) place }
{
    match machine.macros().definition(function) {
        Definition::Macro(_) => None,
        Definition::Function(cases) => {
            let case = cases.as_slice().get(place as usize)?;
            Some(&case.guard)
        }
    }
}
