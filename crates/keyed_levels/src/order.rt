//! An order of parts and comparisons, as an order of the levels.
ghost use Rattle.std.specs.Prelude.{◌<◌, All, IfOk};
ghost use Rattle.keyed_levels.specs.Stored.{IsPaired};

use crate::keyed::Keyed;
use crate::place::KeyPlace;
use rsml_base::{List, NoMemory};
use std::alloc::Global;
use world_levels::Place;

/// The comparisons of an order, without numbers that no phrase has.
pub fn compared(alloc: Global, phrases: u32, order: &[KeyPlace]) -> Result<Vec<u32>, NoMemory>
    ensures { IfOk result (λ numbers. All (λ p. p < phrases) numbers.items) }
{
    let mut numbers = Vec::new(alloc);
    for place in order {
        if let KeyPlace::Comparison(phrase) = place {
            if *phrase < phrases {
                numbers.push(*phrase)?;
            }
        }
    }
    Ok(numbers)
}

/// The levels of an order: a free one for each comparison, and so many spare ones after them.
pub fn places(alloc: Global, order: &[KeyPlace], spare: u32) -> Result<Vec<Place>, NoMemory> {
    let mut places = Vec::new(alloc);
    for place in order {
        places.push(level_place(alloc, place)?)?;
    }
    for _level in 0..spare {
        places.push(Place::Free)?;
    }
    Ok(places)
}

fn level_place(alloc: Global, place: &KeyPlace) -> Result<Place, NoMemory> {
    match place {
        KeyPlace::Part(part) => Ok(Place::Part(*part)),
        KeyPlace::Cluster(parts) => Ok(Place::Cluster(copied(alloc, parts.as_slice())?)),
        KeyPlace::Comparison(_) => Ok(Place::Free),
    }
}

fn copied(alloc: Global, parts: &[u32]) -> Result<List<u32>, NoMemory> {
    let mut list = List::with_capacity(alloc, parts.len())?;
    for part in parts {
        list.push(*part)?;
    }
    Ok(list)
}

/// The phrases with their levels, one for each as long as there are both.
pub fn paired(alloc: Global, levels: &[u32], phrases: &[u32]) -> Result<Vec<Keyed>, NoMemory>
    ensures { IfOk result (λ keyed. IsPaired levels.now phrases.now keyed.items) }
{
    let mut keyed = Vec::new(alloc);
    for place in 0..levels.len() {
        if place < phrases.len() {
            keyed.push(Keyed {
                level: levels[place],
                phrase: phrases[place],
            })?;
        }
    }
    Ok(keyed)
}
