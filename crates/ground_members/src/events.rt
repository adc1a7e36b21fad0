ghost use Rattle.std.specs.Prelude.{IfOk, map};
ghost use Rattle.std.specs.List.{AllZip};
ghost use Rattle.rsml_meaning.specs.Words.{Each};
ghost use Rattle.rsml_meaning.specs.Instances.{globals_of};
ghost use Rattle.rsml_meaning.specs.Truth.{within, instance};
ghost use Rattle.ground_members.specs.Members.{IsEvent};
ghost use Rattle.ground_members.specs.Scoped.{EventIsScoped};

use phrase_builder::{Here, Lookup};
use rsml_syntax::{List, Mention, NoMemory};
use std::alloc::Global;

/// The number of the event that is mentioned in the instance of an index.
#[tactic(auto, using(crate::proofs::Numbers::place_is))]
pub fn event_number(lookup: &Lookup<'_, '_>, this: u8, mention: &Mention) -> u32
    requires { EventIsScoped lookup.now (instance (globals_of lookup.now) (within this) mention.now) }
    ensures { IsEvent lookup.now (instance (globals_of lookup.now) (within this) mention.now) result }
{
    let index = lookup.index(&Here::within(this), mention);
    lookup
        .names()
        .event_of(mention.name.bytes(), index)
        .unwrap()
}

/// The numbers of the events that are mentioned, in order.
pub fn event_numbers(
    alloc: Global,
    lookup: &Lookup<'_, '_>,
    this: u8,
    mentions: &[Mention],
) -> Result<List<u32>, NoMemory>
    requires { Each (EventIsScoped lookup.now) (map (instance (globals_of lookup.now) (within this)) mentions.now) }
    ensures { IfOk result (λ ks. AllZip (IsEvent lookup.now)
        (map (instance (globals_of lookup.now) (within this)) mentions.now) ks) }
{
    let mut numbers = List::with_capacity(alloc, mentions.len())?;
    for mention in mentions {
        numbers.push(event_number(lookup, this, mention))?;
    }
    Ok(numbers)
}
