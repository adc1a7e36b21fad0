//! The entries of a unique table, and the chains of its buckets.
ghost use Rattle.std.specs.Prelude.{◌≡◌, ◌≢◌, ℕ, ◌+◌, ◌<◌, ◌≤◌, ◌^◌, map, length, slice_index_or, IfSome, IfNone};
ghost use Rattle.bdd_core.specs.Chains.{bucket_of, node_of, entry_at, AreLinked, IsTable};
ghost use Rattle.bdd_core.specs.Unique.{constant_at};

use crate::node::Node;

/// A node, and the place of the next one in its bucket: one that stands before it, or a constant,
/// which ends the chain.
#[derive(Clone, Copy)]
pub struct Entry {
    pub(super) node: Node,
    pub(super) next: u32,
}

impl Entry {
    /// The entry of a constant, whose place is its own child.
    pub(super) fn constant(levels: u32, place: u32) -> Entry
        ensures { result ≡ record { node = constant_at levels place; next = 0 } }
    {
        Entry {
            node: Node {
                level: levels,
                low: place,
                high: place,
            },
            next: 0,
        }
    }
}

/// The bucket of a node, where the number of buckets is a power of two. Any bucket would do: this
/// one is near that of the nodes made just before. It goes up with the later child, from a start
/// that the rest of the node chooses among a sixteenth of all buckets.
#[inline(always)]
fn bucket(node: Node, buckets: usize) -> usize
    requires { 0 < buckets }
    ensures is { result ≡ bucket_of buckets node }
    ensures within { result < buckets }
{
    let less = node.low.min(node.high);
    let more = node.low.max(node.high);
    let mixed = (less as u64)
        .wrapping_mul(0x9e37_79b9_7f4a_7c15)
        .wrapping_add((node.level as u64).wrapping_mul(0xd6e8_feb8_6659_fd93));
    let start = ((mixed >> 32) as usize & (buckets - 1)) >> 4;
    start.wrapping_add(more as usize) & (buckets - 1)
}

/// The place of a node, if it is in its bucket.
#[inline(always)]
pub(super) fn find_in(entries: &[Entry], heads: &[u32], node: Node) -> Option<u32>
    requires { IsTable entries.now heads.now }
    ensures within { IfSome result (λ place. place < length entries.now) }
    ensures found { IfSome result (λ place. node_of (entry_at entries.now place) ≡ node) }
    ensures none { IfNone result ((k : ℕ) → 2 ≤ k → k < length entries.now
        → node_of (entry_at entries.now k) ≢ node) }
{
    let mut at = heads[bucket(node, heads.len())];
    while at > 1 {
        let entry = entries[at as usize];
        if entry.node == node {
            return Some(at);
        }
        at = entry.next;
    }
    None
}

/// Puts an entry at the front of its bucket, where those before it are linked.
#[inline(always)]
pub(super) fn link(entries: &mut Vec<Entry>, heads: &mut Vec<u32>, place: u32)
    requires node { 2 ≤ place }
    requires within { place < length entries.old.items }
    requires some { 0 < length heads.old.items }
    requires linked { AreLinked entries.old.items heads.old.items (length heads.old.items) place }
    ensures nodes { map node_of entries.new.items ≡ map node_of entries.old.items }
    ensures buckets { length heads.new.items ≡ length heads.old.items }
    ensures linked { AreLinked entries.new.items heads.new.items (length heads.old.items) (place + 1) }
{
    let node = entries[place as usize].node;
    let bucket = bucket(node, heads.len());
    let next = heads[bucket];
    entries[place as usize] = Entry { node, next };
    heads[bucket] = place;
}

/// Links all entries, where none is.
pub(super) fn link_all(entries: &mut Vec<Entry>, heads: &mut Vec<u32>)
    requires constants { 2 ≤ length entries.old.items }
    requires small { length entries.old.items ≤ 2 ^ 32 }
    requires some { 0 < length heads.old.items }
    requires linked { AreLinked entries.old.items heads.old.items (length heads.old.items) 2 }
    ensures nodes { map node_of entries.new.items ≡ map node_of entries.old.items }
    ensures buckets { length heads.new.items ≡ length heads.old.items }
    ensures linked { AreLinked entries.new.items heads.new.items (length heads.old.items)
        (length entries.new.items) }
{
    for place in 2..entries.len() {
        link(entries, heads, place as u32);
    }
}
