ghost use Rattle.std.specs.Prelude.{◌≡◌, ◌<◌, ◌||◌, ℕ, length};
ghost use Rattle.rsml_meaning.specs.Words.{Each};
ghost use Rattle.micro_step.specs.Numbers.{raised_at};
ghost use Rattle.micro_step.specs.Places.{passes};
ghost use Rattle.micro_step.specs.Rising.{among};
ghost use Rattle.event_graph.specs.Sets.{has};

use elaborate::Machine;
use event_graph::Events;

/// Puts in the events that a transition raises.
fn raise_by(machine: &Machine<'_>, transition: u32, raised: &mut Events)
    requires { transition < length machine.now.transitions }
    ensures { (q : ℕ) → has raised.new q
        ≡ (has raised.old q || passes (λ x. among x.raises q) machine.now.transitions transition) }
{
    machine.law();
    let _ = machine.events();
    let raises = machine.transition(transition).raises();
    for event in raises {
        raised.put(*event as usize);
    }
}

/// Puts the events that transitions raise in the place of those of a set.
pub fn raise_all(machine: &Machine<'_>, taken: &[u32], raised: &mut Events)
    requires { Each (λ k. k < length machine.now.transitions) taken.now }
    ensures { (q : ℕ) → has raised.new q ≡ raised_at machine.now taken.now q }
{
    raised.clear();
    for transition in taken {
        raise_by(machine, *transition, raised);
    }
}
