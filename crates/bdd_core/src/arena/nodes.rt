//! Nodes, by their places.
ghost use Rattle.std.specs.Prelude.{◌≡◌, ℕ, ◌<◌, ◌≤◌, length, IfOk};
ghost use Rattle.bdd_core.specs.Diagram.{IsRef, IsReduced, node_at, level_of};
ghost use Rattle.bdd_core.specs.Calls.{Keeps};
ghost use Rattle.bdd_core.specs.Steps.{IsChildren, IsNode};

use super::Arena;
use crate::node::Node;
use crate::reference::Ref;
use rsml_base::NoMemory;

impl Arena {
    /// The place of a handle.
    #[inline(always)]
    pub(super) fn place(&self, f: Ref) -> u32
        requires { IsRef self.now f }
        ensures place { result ≡ f }
        ensures constants { 2 ≤ length self.now.nodes }
    {
        let _ = &self.levels;
        f.place as u32
    }

    /// The level of a place.
    #[inline(always)]
    pub(super) fn level(&self, f: u32) -> u32
        requires { IsRef self.now f }
        ensures level { result ≡ level_of self.now f }
        ensures at_most { result ≤ self.now.levels }
        ensures below { 2 ≤ f → result < self.now.levels }
        ensures reduced { IsReduced self.now }
    {
        self.nodes.node(f as usize).level
    }

    /// The two places that stand for a place where a level has the values false and true. The level
    /// is no greater than the place's.
    #[inline(always)]
    pub(super) fn children(&self, f: u32, level: u32) -> (u32, u32)
        requires place { IsRef self.now f }
        requires fits { level < self.now.levels }
        requires least { level ≤ level_of self.now f }
        ensures { IsChildren self.now f level result.0 result.1 }
    {
        let node = self.nodes.node(f as usize);
        if node.level == level {
            (node.low, node.high)
        } else {
            (f, f)
        }
    }

    /// The children of a node.
    #[inline(always)]
    pub(super) fn own_children(&self, f: u32) -> (u32, u32)
        requires { IsRef self.now f }
        ensures low { result.0 ≡ (node_at self.now f).low }
        ensures high { result.1 ≡ (node_at self.now f).high }
    {
        let node = self.nodes.node(f as usize);
        (node.low, node.high)
    }

    /// The place of a node, which is made where there is none, and where its children differ.
    pub(super) fn make(&mut self, level: u32, low: u32, high: u32) -> Result<u32, NoMemory>
        requires fits { level < self.old.levels }
        requires low_ref { IsRef self.old low }
        requires high_ref { IsRef self.old high }
        requires low_level { level < level_of self.old low }
        requires high_level { level < level_of self.old high }
        ensures keeps { Keeps self.old self.new }
        ensures added { (k : ℕ) → length self.old.nodes ≤ k → IsRef self.new k
            → IsNode self.new level low high k }
        ensures node { IfOk result (λ r. IsNode self.new level low high r) }
    {
        if low == high {
            return Ok(low);
        }
        let node = Node { level, low, high };
        if let Some(place) = self.nodes.find(node) {
            return Ok(place);
        }
        self.nodes.push(node)
    }
}
