ghost use Rattle.std.specs.Prelude.{◌≡◌, ◌≤◌, IfOk};
ghost use Rattle.bdd_core.specs.Diagram.{IsRef};

use bdd_core::{Arena, Ref};
use rsml_base::NoMemory;

/// The most bits of a number.
pub const MAX_BITS: u32 = 64;

/// Two numbers of so many bits are equal, where all bits of the one stand before those of the
/// other.
pub fn equal(arena: &mut Arena, bits: u32) -> Result<Ref, NoMemory>
    requires arena { arena.old.levels ≡ 128 }
    requires bits { bits ≤ 64 }
    ensures { IfOk result (IsRef arena.new) }
{
    let mut all = arena.constant(true);
    for bit in 0..bits {
        let one = arena.var(bit)?;
        let other = arena.var(bits + bit)?;
        let not_other = arena.not(other)?;
        let same = arena.ite(one, other, not_other)?;
        all = arena.and(all, same)?;
    }
    Ok(all)
}
