ghost use Rattle.std.specs.Prelude.{◌≡◌, IfOk, List, map};
ghost use Rattle.rsml_syntax.specs.declared.syntax.Spec.{Spec};
ghost use Rattle.rsml_syntax.specs.limits.Checked.{IsChecked};
ghost use Rattle.rsml_ground.specs.declared.phrases.GroundPhrase.{GroundPhrase};
ghost use Rattle.ground_members.specs.Members.{AreSendCases, AreTransitions};
ghost use Rattle.ground_groups.specs.Stored.{AreLots, AreSendLots, AreStateLots};

use crate::heads::{case_heads, heads};
use crate::key::Key;
use crate::places::{case_places, number_of, places};
use ground_members::{SharedSendCase, SharedTransition};
use indexmap::IndexSet;
use rsml_syntax::NoMemory;
use std::alloc::Global;

/// Keys in order, each once, and the places of each.
pub struct Lots {
    pub heads: IndexSet<Key>,
    pub places: Vec<Vec<u32>>,
}

impl Drop for Lots {
    fn drop(self) {
        let Self {
            heads: _,
            places: _,
        } = self;
    }
}

// The keys in order, and the places of each.
fn sorted(alloc: Global, keys: &[Key]) -> Result<Lots, NoMemory>
    ensures { IfOk result (λ lots. AreLots keys.now lots.heads.keys
        (map (λ l. l.items) lots.places.items)) }
{
    let _count = number_of(keys.len())?;
    let heads = heads(alloc, keys)?;
    let places = places(alloc, keys, &heads)?;
    Ok(Lots { heads, places })
}

/// The transitions by source and event.
pub fn state_lots(alloc: Global, transitions: &[SharedTransition]) -> Result<Lots, NoMemory>
    ensures { IfOk result (λ lots. (ps : List GroundPhrase) (s : Spec) → IsChecked s
        → AreTransitions ps s transitions.now
        → AreStateLots s lots.heads.keys (map (λ l. l.items) lots.places.items)) }
{
    let keys = transition_keys(alloc, transitions)?;
    sorted(alloc, keys.as_slice())
}

/// The cases of sends by send and event.
pub fn send_lots(alloc: Global, cases: &[SharedSendCase]) -> Result<Lots, NoMemory>
    ensures { IfOk result (λ lots. (ps : List GroundPhrase) (s : Spec) → IsChecked s
        → AreSendCases ps s cases.now
        → AreSendLots s lots.heads.keys (map (λ l. l.items) lots.places.items)) }
{
    let _count = number_of(cases.len())?;
    let heads = case_heads(alloc, cases)?;
    let places = case_places(alloc, cases, &heads)?;
    Ok(Lots { heads, places })
}

// The source and event of each transition.
fn transition_keys(alloc: Global, transitions: &[SharedTransition]) -> Result<Vec<Key>, NoMemory>
    ensures { IfOk result (λ keys. keys.items
        ≡ map (λ t. record { owner = t.source; event = t.event }) transitions.now) }
{
    let mut keys = Vec::with_capacity(alloc, transitions.len())?;
    for transition in transitions {
        keys.push(Key {
            owner: transition.source(),
            event: transition.event(),
        })?;
    }
    Ok(keys)
}
