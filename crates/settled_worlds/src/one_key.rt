ghost use Rattle.std.specs.Prelude.{◌≡◌, ◌<◌, length};
ghost use Rattle.keyed_levels.specs.Keyed.{key_at, phrases_of};

use keyed_levels::{Keyed, KeyedLevels};

/// The key at a place.
pub(crate) fn key(levels: &KeyedLevels<'_, '_>, place: usize) -> Keyed
    requires { place < length levels.now.keyed }
    ensures is { result ≡ key_at levels.now.keyed place }
    ensures phrase { result.phrase < length (phrases_of levels.now) }
{
    levels.keys()[place]
}
