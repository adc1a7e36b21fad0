//! The transitions on the events of a set.
ghost use Rattle.std.specs.Prelude.{◌≡◌, [], ◌∷◌, ◌++◌, IfOk, OnOk, if◌then◌else◌};
ghost use Rattle.event_graph.specs.Sets.{has};
ghost use Rattle.micro_step.specs.Micros.{AreEvents};
ghost use Rattle.invariants.specs.Moves as spec;

use elaborate::Machine;
use event_graph::Events;
use rsml_base::NoMemory;
use std::alloc::Global;

/// Puts a number behind others, where it is wanted.
fn put_if(numbers: &mut Vec<u32>, number: u32, wanted: bool) -> Result<(), NoMemory>
    ensures { OnOk result (numbers.new.items ≡ numbers.old.items ++ (if wanted then number ∷ [] else [])) }
{
    if wanted {
        numbers.push(number)?;
    }
    Ok(())
}

/// The numbers of the transitions on the events of a set, rising.
pub fn moves_on(alloc: Global, machine: &Machine<'_>, events: &Events) -> Result<Vec<u32>, NoMemory>
    requires { AreEvents machine.now.base.spec events.now }
    ensures { IfOk result (λ moves. moves.items ≡ spec.moves_on machine.now (has events.now)) }
{
    machine.law();
    let mut moves = Vec::new(alloc);
    for number in 0..machine.transitions() {
        let event = machine.transition(number).event();
        let is_on = events.has(event as usize);
        put_if(&mut moves, number, is_on)?;
    }
    Ok(moves)
}
