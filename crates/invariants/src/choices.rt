//! Children of components after transitions.
ghost use Rattle.std.specs.Prelude.{◌≡◌, ◌<◌, ◌==◌, Bool, true, false, All, IfOk, length, slice_set, if◌then◌else◌};
ghost use Rattle.rsml_syntax.specs.declared.world.World.{World};
ghost use Rattle.rsml_meaning.specs.Instances.{components};
ghost use Rattle.ground_groups.specs.declared.group.Member.TheVariants as members;
ghost use Rattle.elaborate.specs.Enabled.{enabled_at};
ghost use Rattle.rsml_ground.specs.Choices.{is_chosen};
ghost use Rattle.micro_step.specs.Numbers.{after_number};
ghost use Rattle.bdd_core.specs.Diagram.{IsRef};
ghost use Rattle.guard_encode.specs.Encoding.{Keeps};
ghost use Rattle.invariants.specs.Moves.{after};
ghost use Rattle.invariants.specs.Told.{TellsOf};

use bdd_core::Ref;
use elaborate::Machine;
use ground_groups::Member;
use guard_encode::Encoder;
use micro_step::enter_all;
use rsml_base::{List, NoMemory};
use rsml_ground::Choice;
use std::alloc::Global;

/// Some other place of a child.
fn other_than(child: u8) -> u8
    ensures { (result == child) ≡ false }
{
    if child == 0 { 1 } else { 0 }
}

/// Whether a component has a child after the move of a transition, where it has the child at this place before.
fn has_after(
    machine: &Machine<'_>,
    choices: &mut List<u8>,
    number: u32,
    choice: &Choice,
    before: u8,
) -> bool
    requires fit { length choices.old ≡ length (components machine.now.base.spec) }
    requires number { number < length machine.now.transitions }
    requires component { choice.now.component < length (components machine.now.base.spec) }
    ensures has { result ≡ is_chosen (after_number machine.now (slice_set choices.old choice.now.component before) number) choice.now }
    ensures fit { length choices.new ≡ length (components machine.now.base.spec) }
{
    choices.set(choice.component as usize, before);
    enter_all(machine, choices, &[number]);
    choices.as_slice()[choice.component as usize] == choice.child
}

/// Where a component has a child after a transition, by where it has it before: where it has it then, it has it still, or does not,
/// and where it has another, it gets it, or does not.
fn after_transition(
    encoder: &mut Encoder<'_, '_>,
    machine: &Machine<'_>,
    number: u32,
    stays: bool,
    comes: bool,
    before: Ref,
) -> Result<Ref, NoMemory>
    requires machine { encoder.old.machine ≡ machine.now }
    requires number { number < length machine.now.transitions }
    requires stays { comes ≡ true → stays ≡ true }
    requires before { IsRef encoder.old.diagram before }
    ensures keeps { Keeps encoder.old encoder.new }
    ensures answer { IfOk result (λ r. (told : World → Bool) → TellsOf machine.now.base.spec encoder.old told before
        → TellsOf machine.now.base.spec encoder.new
        (λ w. if enabled_at machine.now w (members.Transition number) then if told w then stays else comes else told w) r) }
{
    if stays != comes {
        return Ok(before);
    }
    machine.law();
    let enabled = encoder.enabled(Member::Transition(number))?;
    let always = encoder.constant(stays);
    encoder.ite(enabled, always, before)
}

/// Where a component has a child after transitions that are entered one after another, those of them that are enabled.
pub fn chosen_after(
    alloc: Global,
    encoder: &mut Encoder<'_, '_>,
    machine: &Machine<'_>,
    moves: &[u32],
    choice: &Choice,
) -> Result<Ref, NoMemory>
    requires machine { encoder.old.machine ≡ machine.now }
    requires moves { All (λ k. k < length machine.now.transitions) moves.now }
    requires component { choice.now.component < length (components machine.now.base.spec) }
    ensures keeps { Keeps encoder.old encoder.new }
    ensures answer { IfOk result (TellsOf machine.now.base.spec encoder.new
        (λ w. is_chosen (after machine.now moves.now w).choices choice.now)) }
{
    let mut room = machine.initial(alloc)?;
    let other = other_than(choice.child);
    let mut chosen = encoder.choice(choice.component, choice.child)?;
    for number in moves {
        let stays = has_after(machine, &mut room.choices, *number, choice, choice.child);
        let comes = has_after(machine, &mut room.choices, *number, choice, other);
        chosen = after_transition(encoder, machine, *number, stays, comes, chosen)?;
    }
    Ok(chosen)
}
