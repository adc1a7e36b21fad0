//! Whether a member of a group is enabled in a world, by the truths of the phrases there.
ghost use Rattle.std.specs.Prelude.{◌≡◌, ◌<◌, false, Some, length, slice_get};
ghost use Rattle.std.specs.Option.{option_map_or};
ghost use Rattle.rsml_meaning.specs.Words.{Each};
ghost use Rattle.rsml_meaning.specs.Worlds.{IsWorld};
ghost use Rattle.rsml_ground.specs.Rests.{GuardFits};
ghost use Rattle.rsml_ground.specs.Truths as ground;
ghost use Rattle.ground_members.specs.declared.transitions.GroundTransition.{GroundTransition};
ghost use Rattle.ground_groups.specs.declared.group.Member.TheVariants as members;
ghost use Rattle.elaborate.specs.Enabled.{enabled_at};
ghost use Rattle.finding_texts.specs.Members.{IsMember};

use and_or_tables::Truths;
use elaborate::Machine;
use ground_groups::Member;
use rsml_ground::{Definition, GroundCase, GroundGuard};
use rsml_syntax::World;

// Whether the source of a transition is active.
fn is_active(machine: &Machine<'_>, world: &World, transition: u32) -> bool
    requires world { IsWorld machine.now.base.spec world.now }
    requires transition { transition < length machine.now.transitions }
    ensures { (x : GroundTransition) → slice_get machine.now.transitions transition ≡ Some x
        → result ≡ ground.is_active machine.now.base.spec world.now x.source }
{
    machine.law();
    let source = machine.transition(transition).source();
    machine.tree().active(world.choices.as_slice(), source)
}

// Whether a transition is enabled.
fn is_transition_enabled(
    machine: &Machine<'_>,
    world: &World,
    truths: &Truths,
    transition: u32,
) -> bool
    requires world { IsWorld machine.now.base.spec world.now }
    requires truths { truths.now ≡ ground.truths_in machine.now.base world.now }
    requires transition { transition < length machine.now.transitions }
    ensures { result ≡ enabled_at machine.now world.now (members.Transition transition) }
{
    is_active(machine, world, transition) && machine.guard(transition).truth(truths)
}

// Whether a case of a send is enabled.
fn is_send_case_enabled(machine: &Machine<'_>, world: &World, truths: &Truths, case: u32) -> bool
    requires truths { truths.now ≡ ground.truths_in machine.now.base world.now }
    requires case { case < length machine.now.send_cases }
    ensures { result ≡ enabled_at machine.now world.now (members.SendCase case) }
{
    machine.case_guard(case).truth(truths)
}

// Whether a guard is true.
fn is_true(truths: &Truths, guard: &GroundGuard) -> bool
    requires { GuardFits (length truths.now) guard.now }
    ensures { result ≡ ground.guard_truth truths.now guard.now }
{
    match guard {
        GroundGuard::Always => true,
        GroundGuard::Table(table) => table.truth(truths),
    }
}

// Whether the guard of the case at a place is true. Not where there is none.
fn is_case_true(truths: &Truths, cases: &[GroundCase], place: u32) -> bool
    requires { Each (λ c. GuardFits (length truths.now) c.guard) cases.now }
    ensures { result ≡ option_map_or (λ c. ground.guard_truth truths.now c.guard) (slice_get cases.now place) false }
{
    match cases.get(place as usize) {
        Some(case) => is_true(truths, &case.guard),
        None => false,
    }
}

// Whether the case at a place of a function is enabled. A macro has no cases.
fn is_function_case_enabled(
    machine: &Machine<'_>,
    world: &World,
    truths: &Truths,
    function: u32,
    place: u32,
) -> bool
    requires truths { truths.now ≡ ground.truths_in machine.now.base world.now }
    requires function { function < length machine.now.base.definitions }
    ensures { result ≡ enabled_at machine.now world.now (members.FunctionCase function place) }
{
    match machine.macros().definition(function) {
        Definition::Macro(_) => false,
        Definition::Function(cases) => is_case_true(truths, cases.as_slice(), place),
    }
}

/// Whether a member is enabled in a world, by the truths there of all phrases.
pub fn is_enabled(machine: &Machine<'_>, world: &World, truths: &Truths, member: Member) -> bool
    requires world { IsWorld machine.now.base.spec world.now }
    requires truths { truths.now ≡ ground.truths_in machine.now.base world.now }
    requires member { IsMember machine.now.base.spec member }
    ensures { result ≡ enabled_at machine.now world.now member }
{
    machine.law();
    match member {
        Member::Transition(number) => is_transition_enabled(machine, world, truths, number),
        Member::SendCase(number) => is_send_case_enabled(machine, world, truths, number),
        Member::FunctionCase { function, place } => {
            is_function_case_enabled(machine, world, truths, function, place)
        }
    }
}
