ghost use Rattle.std.specs.Prelude.{◌≡◌, ◌<◌, ◌≤◌, IfOk, length, map, unwrap_or};
ghost use Rattle.rsml_syntax.specs.text.Names.{place_of};
ghost use Rattle.rsml_meaning.specs.Words.{Each};
ghost use Rattle.state_tree.specs.Tables as spec;

use rsml_syntax::{NoMemory, StateDecl, Text};
use std::alloc::Global;
use std::marker::Model;

/// A component: its number as a state instance, the place of its default child, and the numbers
/// of its children.
#[derive(Drop)]
pub struct Family {
    pub node: u32,
    pub default: u8,
    pub children: Vec<u32>,
}

impl Model for Family {
    ghost use Rattle.state_tree.specs.Tables as spec;

    ghost Value = { spec.Family };

    ghost view = { λ f. record { node = f.node; default = f.default; children = f.children.items } };
}

/// The place of a child of this name, or 0 where there is none.
pub fn child_place(children: &[StateDecl], name: &Text) -> u8
    requires { length children.now ≤ 64 }
    ensures { result ≡ unwrap_or (place_of name.now (map (λ c. c.name) children.now)) 0 }
{
    for (place, child) in children.iter().enumerate() {
        if name.bytes() == child.name.bytes() {
            return place as u8;
        }
    }
    0
}

/// The numbers of so many children that stand one behind another, each where the one before it ends.
pub fn in_row(alloc: Global, ends: &[u32], first: u32, count: usize) -> Result<Vec<u32>, NoMemory>
    requires { Each (λ place. place < length ends.now) (spec.in_row ends.now first count) }
    ensures { IfOk result (λ v. v.items ≡ spec.in_row ends.now first count) }
{
    let mut numbers = Vec::new(alloc);
    let mut place = first;
    for _child in 0..count {
        numbers.push(place)?;
        place = ends[place as usize];
    }
    Ok(numbers)
}
