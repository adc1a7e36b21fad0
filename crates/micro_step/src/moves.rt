ghost use Rattle.std.specs.Prelude.{◌≡◌, ◌<◌, ℕ, List as Items, length, fold, IsPermutation};
ghost use Rattle.rsml_meaning.specs.Words.{Each};
ghost use Rattle.rsml_meaning.specs.Instances.{components};
ghost use Rattle.rsml_meaning.specs.Worlds.{IsWorld};
ghost use Rattle.rsml_meaning.specs.Transitions.{TransitionInstance, transitions};
ghost use Rattle.rsml_meaning.specs.Steps.{AreOutcomes};
ghost use Rattle.rsml_meaning.specs.MicroSteps.{NoTwoOnALine};
ghost use Rattle.rsml_meaning.specs.Turns.{IsActiveTransition, after_all};
ghost use Rattle.micro_step.specs.Numbers.{after_number, picked};
ghost use Rattle.micro_step.specs.Places.{ArePlaces};

use elaborate::Machine;
use rsml_meaning::order_does_not_matter;
use rsml_syntax::{List, World};

/// Enters the move of a transition. A stay enters nothing.
fn enter(machine: &Machine<'_>, choices: &mut List<u8>, transition: u32)
    requires fit { length choices.old ≡ length (components machine.now.base.spec) }
    requires transition { transition < length machine.now.transitions }
    ensures entered { choices.new ≡ after_number machine.now choices.old transition }
    ensures fit { length choices.new ≡ length (components machine.now.base.spec) }
{
    machine.law();
    let moved = machine.transition(transition);
    if let Some(target) = moved.target() {
        machine.tree().enter(choices, moved.component(), target);
    }
}

/// Enters the moves of transitions one after another.
pub fn enter_all(machine: &Machine<'_>, choices: &mut List<u8>, taken: &[u32])
    requires fit { length choices.old ≡ length (components machine.now.base.spec) }
    requires taken { Each (λ k. k < length machine.now.transitions) taken.now }
    ensures { choices.new ≡ fold (after_number machine.now) choices.old taken.now }
{
    for transition in taken {
        enter(machine, choices, *transition);
    }
}

/// Enters the moves of taken transitions in an order of their places. Where no two of their sources lie on one line and all
/// are active, each order of all of them leaves the one choice of children that a micro-step allows.
pub fn apply_in(machine: &Machine<'_>, world: &mut World, taken: &[u32], order: &[u32])
    requires world { IsWorld machine.now.base.spec world.old }
    requires taken { Each (λ k. k < length machine.now.transitions) taken.now }
    requires order { Each (λ p. p < length taken.now) order.now }
    ensures entered { (us : Items TransitionInstance)
        → ArePlaces (transitions machine.now.base.spec) us (picked taken.now order.now)
        → world.new.choices ≡ after_all machine.now.base.spec us world.old.choices }
    ensures one { (ts us : Items TransitionInstance) (choices : Items ℕ)
        → ArePlaces (transitions machine.now.base.spec) ts taken.now
        → ArePlaces (transitions machine.now.base.spec) us (picked taken.now order.now)
        → IsPermutation ts us → Each (IsActiveTransition machine.now.base.spec world.old) ts → NoTwoOnALine ts
        → AreOutcomes machine.now.base.spec ts world.old.choices choices → world.new.choices ≡ choices }
    ensures cells { world.new.cells ≡ world.old.cells }
{
    machine.law();
    order_does_not_matter();
    for place in order {
        enter(machine, &mut world.choices, taken[*place as usize]);
    }
}
