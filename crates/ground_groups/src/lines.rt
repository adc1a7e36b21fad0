ghost use Rattle.std.specs.Prelude.{◌≡◌, ◌+◌, ◌<◌, List, IfOk, IfSome, length, map};
ghost use Rattle.std.specs.List.{AllZip};
ghost use Rattle.rsml_syntax.specs.limits.Checked.{IsChecked};
ghost use Rattle.rsml_meaning.specs.Instances.{events, states};
ghost use Rattle.ground_groups.specs.Stored.{AreStateLots, IsLine, IsOuter, ReactsAt, members_before};

use crate::key::Key;
use crate::lots::Lots;
use crate::places::{find, number_of};
use indexmap::IndexSet;
use rsml_syntax::NoMemory;
use state_tree::Tree;
use std::alloc::Global;

/// The line of a state on an event: the group of the nearest state around, whose line comes first,
/// and how many members there are with those.
#[derive(Clone, Copy, Drop)]
pub struct Line {
    pub outer: Option<usize>,
    pub members: u32,
}

/// The line of each group of a state.
pub fn lines(alloc: Global, tree: &Tree<'_>, lots: &Lots) -> Result<Vec<Line>, NoMemory>
    requires checked { IsChecked tree.now }
    requires lots { AreStateLots tree.now lots.now.heads.keys
        (map (λ l. l.items) lots.now.places.items) }
    ensures { IfOk result (λ lines.
        AllZip (IsLine tree.now lots.now.heads.keys) lots.now.heads.keys lines.items) }
{
    let mut lines = Vec::new(alloc);
    for (place, key) in lots.heads.as_slice().iter().enumerate() {
        let outer = around(tree, &lots.heads, *key);
        let members = members(lines.as_slice(), outer, lots.places[place].len())?;
        lines.push(Line { outer, members })?;
    }
    Ok(lines)
}

// The group of the nearest state around that has one on the same event.
fn around(tree: &Tree<'_>, heads: &IndexSet<Key>, key: Key) -> Option<usize>
    requires checked { IsChecked tree.now }
    requires reacts { ReactsAt tree.now heads.now.keys }
    requires state { key.owner < length (states tree.now) }
    requires event { key.event < length (events tree.now) }
    ensures { IsOuter tree.now heads.now.keys key result }
{
    let mut inner = key.owner;
    while let Some(outer) = tree.parent(inner) {
        let above = Key {
            owner: outer,
            event: key.event,
        };
        if let Some(group) = find(heads, above) {
            return Some(group);
        }
        inner = outer;
    }
    None
}

// How many members there are with those of a line that comes first.
fn members(lines: &[Line], outer: Option<usize>, own: usize) -> Result<u32, NoMemory>
    requires { IfSome outer (λ place. place < length lines.now) }
    ensures { IfOk result (λ members. members ≡ members_before lines.now outer + own) }
{
    let before = match outer {
        Some(place) => lines[place].members,
        None => 0,
    };
    match before.checked_add(number_of(own)?) {
        Some(members) => Ok(members),
        None => Err(NoMemory),
    }
}
