//! A set of events for each of several things.
ghost use Rattle.std.specs.Prelude.{◌≡◌, ℕ, ◌<◌, ◌==◌, ◌||◌, ◌&&◌, false, length, IfOk};
ghost use Rattle.event_graph.specs.Graphs.{AreRows};
ghost use Rattle.event_graph.specs.Sets.{has, has_at};

use crate::events::Events;
use rsml_base::NoMemory;
use std::alloc::Global;

/// So many sets with no events.
pub fn no_events(alloc: Global, count: usize) -> Result<Vec<Events>, NoMemory>
    ensures none { IfOk result (λ sets. (a b : ℕ) → has_at sets.items a b ≡ false) }
    ensures rows { IfOk result (λ sets. AreRows count sets.items) }
{
    let mut rows = Vec::new(alloc);
    for _row in 0..count {
        rows.push(Events::new())?;
    }
    Ok(rows)
}

/// Puts an event into the set at a place.
pub fn put_in(sets: &mut Vec<Events>, place: usize, event: usize)
    requires place { place < length sets.old.items }
    requires event { event < 1024 }
    ensures more { (a b : ℕ) → has_at sets.new.items a b
        ≡ (has_at sets.old.items a b || (place == a && event == b)) }
    ensures long { length sets.new.items ≡ length sets.old.items }
{
    sets[place].put(event);
}

/// Puts the events of another set into the set at a place.
pub fn join_in(sets: &mut Vec<Events>, place: usize, more: &Events)
    requires { place < length sets.old.items }
    ensures more { (a b : ℕ) → has_at sets.new.items a b
        ≡ (has_at sets.old.items a b || (place == a && has more.now b)) }
    ensures long { length sets.new.items ≡ length sets.old.items }
{
    sets[place].join(more);
}
