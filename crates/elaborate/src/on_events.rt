ghost use Rattle.std.specs.Prelude.{◌≡◌, ◌<◌, ◌++◌, [], All, IfOk, OnOk, length, map, replicate};
ghost use Rattle.ground_groups.specs.Heads.{with_item};
ghost use Rattle.elaborate.specs.OnEvents.{AreOn};

use crate::count::number_of;
use ground_members::{SharedSendCase, SharedTransition};
use rsml_syntax::NoMemory;
use std::alloc::Global;

/// The numbers of the transitions on each event, rising. NoMemory also where they are more than a `u32` counts.
pub fn transitions_on(
    alloc: Global,
    count: u32,
    transitions: &[SharedTransition],
) -> Result<Vec<Vec<u32>>, NoMemory>
    requires { All (λ t. t.event < count) transitions.now }
    ensures { IfOk result (λ lists. AreOn count (map (λ t. t.event) transitions.now) (map (λ l. l.items) lists.items)) }
{
    let mut lists = empty(alloc, count)?;
    for (place, transition) in transitions.iter().enumerate() {
        push_at(&mut lists, transition.event(), number_of(place)?)?;
    }
    Ok(lists)
}

/// The numbers of the cases of sends on each event, rising. NoMemory also where they are more than a `u32` counts.
pub fn cases_on(
    alloc: Global,
    count: u32,
    cases: &[SharedSendCase],
) -> Result<Vec<Vec<u32>>, NoMemory>
    requires { All (λ c. c.event < count) cases.now }
    ensures { IfOk result (λ lists. AreOn count (map (λ c. c.event) cases.now) (map (λ l. l.items) lists.items)) }
{
    let counts = counts(alloc, count, cases)?;
    let mut lists = with_room(alloc, counts.as_slice())?;
    for (place, case) in cases.iter().enumerate() {
        push_at(&mut lists, case.event(), number_of(place)?)?;
    }
    Ok(lists)
}

// How many cases there are on each of so many events.
fn counts(alloc: Global, count: u32, cases: &[SharedSendCase]) -> Result<Vec<usize>, NoMemory>
    ensures { IfOk result (λ counts. length counts.items ≡ count) }
{
    let mut counts = vec![in alloc; 0; count as usize]?;
    for case in cases {
        count_on(&mut counts, case.event() as usize);
    }
    Ok(counts)
}

// Counts one more at a place, where there is such a place.
fn count_on(counts: &mut Vec<usize>, place: usize)
    ensures { length counts.new.items ≡ length counts.old.items }
{
    if place < counts.len() {
        counts[place] = counts[place].saturating_add(1);
    }
}

// An empty list for each of these numbers, with room for so many items.
fn with_room(alloc: Global, counts: &[usize]) -> Result<Vec<Vec<u32>>, NoMemory>
    ensures { IfOk result (λ lists. map (λ l. l.items) lists.items ≡ replicate (length counts.now) []) }
{
    let mut lists = Vec::with_capacity(alloc, counts.len())?;
    for count in counts {
        lists.push(Vec::with_capacity(alloc, *count)?)?;
    }
    Ok(lists)
}

// So many empty lists.
fn empty(alloc: Global, count: u32) -> Result<Vec<Vec<u32>>, NoMemory>
    ensures { IfOk result (λ lists. map (λ l. l.items) lists.items ≡ replicate count []) }
{
    let mut lists = Vec::new(alloc);
    for _place in 0..count {
        lists.push(Vec::new(alloc))?;
    }
    Ok(lists)
}

// Puts an item last in the list at a place.
#[inline(always)]
fn push_at(lists: &mut Vec<Vec<u32>>, at: u32, item: u32) -> Result<(), NoMemory>
    requires { at < length lists.old.items }
    ensures { OnOk result (map (λ l. l.items) lists.new.items
        ≡ with_item at item (map (λ l. l.items) lists.old.items)) }
{
    lists[at as usize].push(item)?;
    Ok(())
}
