//! The truths of comparisons in one world.
ghost use Rattle.std.specs.Prelude.{◌≡◌, ◌<◌, length, slice_get};
ghost use Rattle.rsml_meaning.specs.Worlds.{IsWorld};
ghost use Rattle.keyed_levels.specs.Keyed.{comparison, phrases_of};

use keyed_levels::KeyedLevels;
use rsml_ground::GroundPhrase;
use rsml_syntax::World;

/// Whether the comparison of this number holds in a world. Another phrase does not.
pub(crate) fn is_true(levels: &KeyedLevels<'_, '_>, world: &World, phrase: u32) -> bool
    requires world { IsWorld levels.now.base.spec world.now }
    requires phrase { phrase < length (phrases_of levels.now) }
    ensures { result ≡ comparison world.now (slice_get (phrases_of levels.now) phrase) }
{
    match levels.phrase(phrase) {
        GroundPhrase::Compare {
            left,
            relation,
            right,
        } => levels.macros().compared(world, left, *relation, right),
        _ => false,
    }
}
