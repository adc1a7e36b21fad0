ghost use Rattle.std.specs.Prelude.{◌≡◌, ◌<◌, [], ◌∷◌, ◌++◌, IfOk, List, OnOk, length, map};
ghost use Rattle.rsml_syntax.specs.limits.Checked.{IsChecked};
ghost use Rattle.rsml_meaning.specs.Words.{Each};
ghost use Rattle.rsml_meaning.specs.Instances.{states};
ghost use Rattle.ground_groups.specs.Below as spec;
ghost use Rattle.ground_groups.specs.Heads.{AreRising};

use crate::key::Key;
use rsml_syntax::NoMemory;
use state_tree::Tree;
use std::alloc::Global;

/// The states inside the state of each key that have a key on the same event. The keys of the states
/// inside a state stand together, behind its own, among all keys and among those on one event.
pub fn below(alloc: Global, tree: &Tree<'_>, keys: &[Key]) -> Result<Vec<Vec<u32>>, NoMemory>
    requires checked { IsChecked tree.now }
    requires there { spec.AreThere tree.now keys.now }
    requires rising { AreRising keys.now }
    ensures { IfOk result (λ lists. map (λ l. l.items) lists.items
        ≡ map (spec.below_of tree.now keys.now) keys.now) }
{
    let events = by_event(alloc, keys)?;
    let mut lists = Vec::new(alloc);
    for key in keys {
        let on_event = events[key.event as usize].as_slice();
        lists.push(inside_among(alloc, tree, *key, on_event)?)?;
    }
    Ok(lists)
}

// The keys on each event, in order.
fn by_event(alloc: Global, keys: &[Key]) -> Result<Vec<Vec<Key>>, NoMemory>
    ensures { IfOk result (λ lists. spec.AreByEvent keys.now (map (λ l. l.items) lists.items)) }
{
    let mut lists = Vec::new(alloc);
    for key in keys {
        put(alloc, &mut lists, *key)?;
    }
    Ok(lists)
}

// Puts a key last in the list of its event.
fn put(alloc: Global, lists: &mut Vec<Vec<Key>>, key: Key) -> Result<(), NoMemory>
    ensures { OnOk result ((keys : List Key)
        → spec.AreByEvent keys (map (λ l. l.items) lists.old.items)
        → spec.AreByEvent (keys ++ key ∷ []) (map (λ l. l.items) lists.new.items)) }
{
    let event = key.event as usize;
    lengthen(alloc, lists, event)?;
    lists[event].push(key)?;
    Ok(())
}

// Puts empty lists last until an event has one.
fn lengthen(alloc: Global, lists: &mut Vec<Vec<Key>>, event: usize) -> Result<(), NoMemory>
    ensures long { OnOk result (event < length lists.new.items) }
    ensures same { OnOk result ((keys : List Key)
        → spec.AreByEvent keys (map (λ l. l.items) lists.old.items)
        → spec.AreByEvent keys (map (λ l. l.items) lists.new.items)) }
{
    while lists.len() <= event {
        lists.push(Vec::new(alloc))?;
    }
    Ok(())
}

// The states inside the state of a key that have one on the same event, among keys in order.
fn inside_among(
    alloc: Global,
    tree: &Tree<'_>,
    key: Key,
    keys: &[Key],
) -> Result<Vec<u32>, NoMemory>
    requires checked { IsChecked tree.now }
    requires key { key.owner < length (states tree.now) }
    requires there { spec.AreThere tree.now keys.now }
    requires rising { AreRising keys.now }
    ensures { IfOk result (λ list. list.items ≡ spec.below_of tree.now keys.now key) }
{
    let past = place_past(keys, key.owner);
    states_inside(alloc, tree, key, &keys[past..])
}

// The place of the first key of a state behind this one.
fn place_past(keys: &[Key], state: u32) -> usize
    requires { AreRising keys.now }
    ensures { spec.IsPast keys.now state result }
{
    keys.partition_point(|key| key.owner <= state)
}

// The states inside the state of a key that have one on the same event, among those behind its own:
// up to the first key of a state that is not inside.
fn states_inside(
    alloc: Global,
    tree: &Tree<'_>,
    key: Key,
    behind: &[Key],
) -> Result<Vec<u32>, NoMemory>
    requires checked { IsChecked tree.now }
    requires key { key.owner < length (states tree.now) }
    requires there { spec.AreThere tree.now behind.now }
    requires behind { Each (λ q. key.owner < q.owner) behind.now }
    requires rising { AreRising behind.now }
    ensures { IfOk result (λ list. list.items ≡ spec.below_of tree.now behind.now key) }
{
    let mut list = Vec::new(alloc);
    for other in behind {
        if !tree.on_one_line(key.owner, other.owner) {
            return Ok(list);
        }
        if other.event == key.event {
            list.push(other.owner)?;
        }
    }
    Ok(list)
}
