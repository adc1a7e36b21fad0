//! The nodes of an arena, and where each of them stands.
ghost use Rattle.std.specs.Prelude.{◌≡◌, ℕ, ◌<◌, ◌≤◌, ◌⊎◌, [], ◌∷◌, length, slice_get, Some, IfOk, IfSome, IfNone};
ghost use Rattle.bdd_core.specs.Unique.{IsNew, Adds, constant_at};

mod chains;

use crate::node::{FALSE, Node, TRUE};
use chains::{Entry, find_in, link, link_all};
use rsml_base::NoMemory;
use std::alloc::Global;
use std::marker::Model;

/// How many buckets a table begins with.
const FIRST_BUCKETS: usize = 64;

/// How many nodes a table has at most. At 2^26 an arena takes 2.7 GB: 16 bytes for each node, 4 for
/// its bucket, 16 for a kept choice and 4 for kept cuts. It takes most, 3.1 GB, when the table of
/// choices grows to that size and the one of half of it still stands. Lists that double are full
/// at a power of two.
const MOST_NODES: usize = 1 << 26;

/// A unique table: the nodes in the order of their places, of which the first two are the constants.
/// Each other node is in a bucket, whose nodes are a chain from the last of them down. Contracts see
/// it as the list of its nodes.
pub struct Unique {
    entries: Vec<Entry>,
    heads: Vec<u32>,
}

impl Drop for Unique {
    fn drop(self) {
        let Self {
            entries: _,
            heads: _,
        } = self;
    }
}

impl Model for Unique {
    ghost use Rattle.std.specs.Prelude.{List, map};
    ghost use Rattle.bdd_core.specs.declared.node.Node.{Node};
    ghost use Rattle.bdd_core.specs.Chains.{IsTable, node_of};

    ghost Value = { List Node };

    ghost view = { λ unique. map node_of unique.entries.items };

    ghost invariant = { λ unique. IsTable unique.entries.items unique.heads.items };
}

impl Unique {
    /// A table of the two constants.
    pub(crate) fn new(alloc: Global, levels: u32) -> Result<Unique, NoMemory>
        ensures { IfOk result (λ unique. unique ≡ constant_at levels 0 ∷ constant_at levels 1 ∷ []) }
    {
        let entries = vec![in alloc;
            Entry::constant(levels, FALSE),
            Entry::constant(levels, TRUE),
        ]?;
        let heads = vec![in alloc; 0; FIRST_BUCKETS]?;
        Ok(Unique { entries, heads })
    }

    /// How many nodes there are.
    #[inline(always)]
    pub(crate) fn len(&self) -> usize
        ensures { result ≡ length self.now }
    {
        self.entries.len()
    }

    /// The node at a place.
    #[inline(always)]
    pub(crate) fn node(&self, place: usize) -> Node
        requires { place < length self.now }
        ensures { slice_get self.now place ≡ Some result }
    {
        self.entries[place].node
    }

    /// The place of a node, if it has one. A constant has none here.
    #[inline(always)]
    pub(crate) fn find(&self, node: Node) -> Option<u32>
        ensures found { IfSome result (λ place. slice_get self.now place ≡ Some node) }
        ensures none { IfNone result (IsNew self.now node) }
    {
        find_in(self.entries.as_slice(), self.heads.as_slice(), node)
    }

    /// Puts a node at the end, and answers its place. Memory is refused to more than `MOST_NODES`.
    pub(crate) fn push(&mut self, node: Node) -> Result<u32, NoMemory>
        requires { IsNew self.old node }
        ensures place { IfOk result (λ place. slice_get self.new place ≡ Some node) }
        ensures adds { Adds self.old self.new node }
    {
        if self.entries.len() >= MOST_NODES {
            return Err(NoMemory);
        }
        self.make_room();
        let place = self.entries.len() as u32;
        self.entries.push(Entry { node, next: 0 })?;
        link(&mut self.entries, &mut self.heads, place);
        Ok(place)
    }

    /// Gives the table more buckets where it has as many nodes as buckets and there is memory for
    /// it.
    #[inline(always)]
    fn make_room(&mut self)
        ensures { self.new ≡ self.old }
    {
        if self.entries.len() >= self.heads.len() {
            self.widen();
        }
    }

    #[inline(never)]
    fn widen(&mut self)
        ensures { self.new ≡ self.old }
    {
        let buckets = self.heads.len().saturating_mul(2);
        let Ok(mut heads) = vec![in *self.heads.allocator(); 0; buckets] else {
            return;
        };
        link_all(&mut self.entries, &mut heads);
        self.heads = heads;
    }
}
