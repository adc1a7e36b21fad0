ghost use Rattle.std.specs.Prelude.{◌≡◌, ◌<◌, [], IfOk, IfSome, None, OnOk, Some, length, map, replicate, slice_get};
ghost use Rattle.ground_groups.specs.Heads.{AreHeads, IsPut, places_of, send_key, with_item};
ghost use Rattle.rsml_meaning.specs.Words.{IsOne};

use crate::heads::key_of;
use crate::key::{Key, near};
use ground_members::SharedSendCase;
use indexmap::IndexSet;
use rsml_syntax::NoMemory;
use std::alloc::Global;

/// The place of a key among the heads.
#[inline(never)]
pub fn find(heads: &IndexSet<Key>, key: Key) -> Option<usize>
    ensures some { IfSome result (λ place. slice_get heads.now.keys place ≡ Some key) }
    ensures none { result ≡ None → IsOne key heads.now.keys → ⊥ }
{
    heads.get_index_of(&key)
}

/// The places of each head among the keys, rising.
pub fn places(alloc: Global, keys: &[Key], heads: &IndexSet<Key>) -> Result<Vec<Vec<u32>>, NoMemory>
    requires { AreHeads keys.now heads.now.keys }
    ensures { IfOk result (λ lists. map (λ l. l.items) lists.items
        ≡ map (λ k. places_of k 0 keys.now) heads.now.keys) }
{
    let mut lists = empty(alloc, heads.len())?;
    let mut head = 0;
    for (place, key) in keys.iter().enumerate() {
        head = put(&mut lists, heads, *key, number_of(place)?, head)?;
    }
    Ok(lists)
}

/// The places of each head among the keys of cases, rising.
pub fn case_places(
    alloc: Global,
    cases: &[SharedSendCase],
    heads: &IndexSet<Key>,
) -> Result<Vec<Vec<u32>>, NoMemory>
    requires { AreHeads (map send_key cases.now) heads.now.keys }
    ensures { IfOk result (λ lists. map (λ l. l.items) lists.items
        ≡ map (λ k. places_of k 0 (map send_key cases.now)) heads.now.keys) }
{
    let mut lists = empty(alloc, heads.len())?;
    let mut head = 0;
    for (place, case) in cases.iter().enumerate() {
        head = put(&mut lists, heads, key_of(case), number_of(place)?, head)?;
    }
    Ok(lists)
}

// The place of a key among the heads: it is looked for here first.
#[inline(always)]
fn find_near(heads: &IndexSet<Key>, key: Key, here: usize) -> Option<usize>
    ensures some { IfSome result (λ place. slice_get heads.now.keys place ≡ Some key) }
    ensures none { result ≡ None → IsOne key heads.now.keys → ⊥ }
{
    match near(heads.as_slice(), key, here) {
        Some(place) => Some(place),
        None => find(heads, key),
    }
}

// Puts a place last in the list of its head, which is looked for here first. The head's place.
#[inline(always)]
fn put(
    lists: &mut Vec<Vec<u32>>,
    heads: &IndexSet<Key>,
    key: Key,
    place: u32,
    here: usize,
) -> Result<usize, NoMemory>
    requires long { length lists.old.items ≡ length heads.now.keys }
    requires there { IsOne key heads.now.keys }
    ensures { OnOk result (IsPut heads.now.keys key place
        (map (λ l. l.items) lists.old.items) (map (λ l. l.items) lists.new.items)) }
{
    match find_near(heads, key, here) {
        Some(head) => {
            push_at(lists, head, place)?;
            Ok(head)
        }
        None => Ok(here),
    }
}

// So many empty lists.
fn empty(alloc: Global, count: usize) -> Result<Vec<Vec<u32>>, NoMemory>
    ensures { IfOk result (λ lists. map (λ l. l.items) lists.items ≡ replicate count []) }
{
    let mut lists = Vec::new(alloc);
    for _place in 0..count {
        lists.push(Vec::new(alloc))?;
    }
    Ok(lists)
}

// Puts an item last in the list at a place.
#[inline(always)]
fn push_at(lists: &mut Vec<Vec<u32>>, at: usize, item: u32) -> Result<(), NoMemory>
    requires { at < length lists.old.items }
    ensures { OnOk result (map (λ l. l.items) lists.new.items
        ≡ with_item at item (map (λ l. l.items) lists.old.items)) }
{
    lists[at].push(item)?;
    Ok(())
}

/// A place as a number: for more than 2^32 there is no room in memory.
#[inline(always)]
pub fn number_of(place: usize) -> Result<u32, NoMemory>
    ensures { IfOk result (λ number. number ≡ place) }
{
    match u32::try_from(place) {
        Ok(number) => Ok(number),
        Err(_) => Err(NoMemory),
    }
}
