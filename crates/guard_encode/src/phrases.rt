//! The diagrams of all phrases, one after another.
ghost use Rattle.std.specs.Prelude.{◌≡◌, ◌<◌, IfOk, Some, length, slice_get};
ghost use Rattle.rsml_ground.specs.declared.phrases.GroundPhrase.{GroundPhrase as Phrase};
ghost use Rattle.equal_frames.specs.Alike.{HaveSameWorlds};
ghost use Rattle.bdd_core.specs.Calls.{Keeps};
ghost use Rattle.guard_encode.specs.Phrases.{AreActive, ArePhrases, TellsNext};

use crate::opposites::{first_like, of_comparison};
use crate::phrase::{of_function, of_macro, of_state};
use crate::test::Test;
use bdd_core::{Arena, Ref};
use keyed_levels::KeyedLevels;
use macros::Macros;
use phrase_diagrams::{each_of, some_of};
use rsml_base::NoMemory;
use rsml_ground::GroundPhrase;
use spelled_numbers::SumTable;
use std::alloc::Global;

/// The diagrams of the phrases of a machine with the same worlds as the levels. `alike` tells of each which comparison may be like it.
pub fn all_phrases(
    alloc: Global,
    arena: &mut Arena,
    sums: &mut SumTable,
    levels: &KeyedLevels<'_, '_>,
    active: &[Ref],
    macros: &Macros<'_>,
    alike: &[u32],
) -> Result<Vec<Ref>, NoMemory>
    requires room { arena.old.levels ≡ length levels.now.slots }
    requires active { AreActive arena.old levels.now active.now }
    requires worlds { HaveSameWorlds levels.now.base.spec macros.now.spec }
    ensures keeps { Keeps arena.old arena.new }
    ensures answer { IfOk result (λ diagrams. ArePhrases arena.new levels.now macros.now (length macros.now.phrases) diagrams.items) }
{
    let mut diagrams = Vec::new(alloc);
    for number in 0..macros.phrases() {
        let diagram = next(
            alloc,
            arena,
            sums,
            levels,
            active,
            macros,
            diagrams.as_slice(),
            alike,
            number,
        )?;
        diagrams.push(diagram)?;
    }
    Ok(diagrams)
}

/// The diagram of the next phrase, from those of the phrases before it.
fn next(
    alloc: Global,
    arena: &mut Arena,
    sums: &mut SumTable,
    levels: &KeyedLevels<'_, '_>,
    active: &[Ref],
    macros: &Macros<'_>,
    diagrams: &[Ref],
    alike: &[u32],
    number: u32,
) -> Result<Ref, NoMemory>
    requires room { arena.old.levels ≡ length levels.now.slots }
    requires active { AreActive arena.old levels.now active.now }
    requires worlds { HaveSameWorlds levels.now.base.spec macros.now.spec }
    requires before { ArePhrases arena.old levels.now macros.now number diagrams.now }
    requires number { number < length macros.now.phrases }
    ensures keeps { Keeps arena.old arena.new }
    ensures answer { IfOk result (λ r. (p : Phrase) → slice_get macros.now.phrases number ≡ Some p
        → TellsNext arena.old arena.new levels.now macros.now diagrams.now p r) }
{
    match macros.phrase(number) {
        GroundPhrase::In(node) => Ok(of_state(arena, active, *node)),
        GroundPhrase::Macro(number) => of_macro(arena, diagrams, macros.definition(*number)),
        GroundPhrase::Any(numbers) => some_of(arena, diagrams, numbers.as_slice()),
        GroundPhrase::Every(numbers) => each_of(arena, diagrams, numbers.as_slice()),
        GroundPhrase::Compare {
            left,
            relation,
            right,
        } => {
            let like = first_like(alike, number);
            of_comparison(alloc, arena, sums, levels, like, left, *relation, right)
        }
        GroundPhrase::Function {
            function,
            relation,
            constant,
        } => of_function(
            alloc,
            arena,
            sums,
            levels.layout(),
            diagrams,
            macros.definition(*function),
            &Test {
                relation: *relation,
                number: *constant,
            },
        ),
    }
}
