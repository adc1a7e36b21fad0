ghost use Rattle.std.specs.Prelude.{◌≡◌, ◌<◌, ◌≤◌, List, filter, length};
ghost use Rattle.rsml_meaning.specs.Words.{Each};
ghost use Rattle.rsml_meaning.specs.Transitions.{TransitionInstance, transitions};
ghost use Rattle.micro_step.specs.Places.{ArePlaces};
ghost use Rattle.run_counts.specs.Counts.{is_move};
ghost use Rattle.run_counts.specs.Ready.{moves_at};

use elaborate::Machine;

/// Whether the transition of a number is a move.
fn is_move(machine: &Machine<'_>, transition: u32) -> bool
    requires { transition < length machine.now.transitions }
    ensures { result ≡ moves_at machine.now transition }
{
    machine.transition(transition).target().is_some()
}

/// How many of the transitions of these numbers are moves.
pub fn moves_among(machine: &Machine<'_>, taken: &[u32]) -> u64
    requires { Each (λ k. k < length machine.now.transitions) taken.now }
    ensures moves { (ts : List TransitionInstance) → ArePlaces (transitions machine.now.base.spec) ts taken.now
        → result ≡ length (filter is_move ts) }
    ensures few { result ≤ length taken.now }
{
    machine.law();
    let mut moves = 0;
    for transition in taken {
        moves += u64::from(is_move(machine, *transition));
    }
    moves
}
