ghost use Rattle.std.specs.Prelude.{◌≡◌, ◌<◌, ℕ, length, option_map, slice_get};
ghost use Rattle.rsml_meaning.specs.Words.{Each};
ghost use Rattle.ground_groups.specs.declared.group.Member.TheVariants as members;
ghost use Rattle.micro_step.specs.Rising.{AreRising};
ghost use Rattle.micro_step.specs.Rows.{bits_of, member_rows};
ghost use Rattle.coverage.specs.Counters.{IsReady, counted_among};

use crate::counter::Counter;
use ground_groups::Member;
use simulator::Simulator;

/// Counts the last round of a simulation, by the counters of its transitions.
pub fn count_taken(counters: &mut [Counter], simulator: &mut Simulator<'_, '_>)
    requires ready { Each IsReady counters.old }
    requires rising { AreRising simulator.old.last.taken }
    requires there { Each (λ k. k < length counters.old) simulator.old.last.taken }
    ensures unchanged { simulator.new ≡ simulator.old }
    ensures counted { (q : ℕ) → slice_get counters.new q ≡ option_map (counted_among simulator.old.last.taken
        (λ k. bits_of (member_rows simulator.old.spec simulator.old.last.world (members.Transition k))) q)
        (slice_get counters.old q) }
{
    let count = simulator.taken().len();
    for place in 0..count {
        let number = simulator.taken()[place];
        let bits = simulator.rows(Member::Transition(number));
        counters[number as usize].add(bits);
    }
}

/// The same by the counters of its cases of sends.
pub fn count_sent(counters: &mut [Counter], simulator: &mut Simulator<'_, '_>)
    requires ready { Each IsReady counters.old }
    requires rising { AreRising simulator.old.last.sent }
    requires there { Each (λ k. k < length counters.old) simulator.old.last.sent }
    ensures unchanged { simulator.new ≡ simulator.old }
    ensures counted { (q : ℕ) → slice_get counters.new q ≡ option_map (counted_among simulator.old.last.sent
        (λ k. bits_of (member_rows simulator.old.spec simulator.old.last.world (members.SendCase k))) q)
        (slice_get counters.old q) }
{
    let count = simulator.sent().len();
    for place in 0..count {
        let number = simulator.sent()[place];
        let bits = simulator.rows(Member::SendCase(number));
        counters[number as usize].add(bits);
    }
}
