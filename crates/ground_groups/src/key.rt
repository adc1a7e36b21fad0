ghost use Rattle.std.specs.Prelude.{◌≡◌, IfSome, IsTrue, Some, slice_get};

/// A state or a send with an event, by their places among the instances.
#[derive(Clone, Copy, Debug, PartialEq, Eq, PartialOrd, Ord, Hash)]
pub struct Key {
    pub owner: u32,
    pub event: u32,
}

// Whether a key is at a place.
#[inline(always)]
fn is_at(keys: &[Key], key: Key, place: usize) -> bool
    ensures { IsTrue result → slice_get keys.now place ≡ Some key }
{
    match keys.get(place) {
        Some(found) => *found == key,
        None => false,
    }
}

/// The place of a key where it is at this one or the next: those that are looked for one after another often are.
#[inline(always)]
pub fn near(keys: &[Key], key: Key, place: usize) -> Option<usize>
    ensures { IfSome result (λ place. slice_get keys.now place ≡ Some key) }
{
    if is_at(keys, key, place) {
        return Some(place);
    }
    let next = place.wrapping_add(1);
    if is_at(keys, key, next) {
        return Some(next);
    }
    None
}
