ghost use Rattle.std.specs.Prelude.{◌≡◌, ◌||◌, IfOk, OnOk, map};
ghost use Rattle.std.specs.List.{list_any};
ghost use Rattle.ground_groups.specs.Heads.{AreHeads, same_key, send_key};

use crate::key::{Key, near};
use ground_members::SharedSendCase;
use indexmap::IndexSet;
use rsml_syntax::NoMemory;
use std::alloc::Global;

/// The keys once each, in order.
pub fn heads(alloc: Global, keys: &[Key]) -> Result<IndexSet<Key>, NoMemory>
    ensures { IfOk result (λ heads. AreHeads keys.now heads.keys) }
{
    let mut heads = IndexSet::new(alloc);
    let mut place = 0;
    for key in keys {
        place = put(&mut heads, *key, place)?;
    }
    heads.sort()?;
    Ok(heads)
}

/// The send and event of a case.
pub fn key_of(case: &SharedSendCase) -> Key
    ensures { result ≡ send_key case.now }
{
    Key {
        owner: case.send(),
        event: case.event(),
    }
}

/// The keys of cases once each, in order. Cases are many: no list is made of the keys of all.
pub fn case_heads(alloc: Global, cases: &[SharedSendCase]) -> Result<IndexSet<Key>, NoMemory>
    ensures { IfOk result (λ heads. AreHeads (map send_key cases.now) heads.keys) }
{
    let mut heads = IndexSet::new(alloc);
    let mut place = 0;
    for case in cases {
        place = put(&mut heads, key_of(case), place)?;
    }
    heads.sort()?;
    Ok(heads)
}

// Puts a key in where it is not there yet: it is looked for here first. Its place.
#[inline(always)]
fn put(heads: &mut IndexSet<Key>, key: Key, here: usize) -> Result<usize, NoMemory>
    ensures { OnOk result ((q : Key) → list_any (same_key q) heads.new.keys
        ≡ (list_any (same_key q) heads.old.keys || same_key q key)) }
{
    if let Some(place) = near(heads.as_slice(), key, here) {
        return Ok(place);
    }
    insert(heads, key)
}

// Puts a key in where it is not there yet. Its place.
#[inline(never)]
fn insert(heads: &mut IndexSet<Key>, key: Key) -> Result<usize, NoMemory>
    ensures { OnOk result ((q : Key) → list_any (same_key q) heads.new.keys
        ≡ (list_any (same_key q) heads.old.keys || same_key q key)) }
{
    let (place, _) = heads.insert_full(key)?;
    Ok(place)
}
