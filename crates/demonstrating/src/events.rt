ghost use Rattle.std.specs.Prelude.{◌≡◌, ◌≤◌, ◌∷◌, ◌++◌, IfOk, OnOk};
ghost use Rattle.std.specs.String.{string_bytes};
ghost use Rattle.demonstrating.specs.Events.{event_text, load};
ghost use Rattle.demonstrating.specs.Text.{Puts};

use crate::text::put_number;
use rsml_base::NoMemory;
use std::alloc::Global;

/// Puts the line that gives a unit a depth.
fn put_load(text: &mut String, unit: u32, depth: u32) -> Result<(), NoMemory>
    ensures { OnOk result (Puts (string_bytes text.old) (string_bytes text.new) (λ rest. load unit depth ++ 10 ∷ rest)) }
{
    put_number(text, "Load[", unit, "] Depth=")?;
    put_number(text, "", depth, "\n")?;
    Ok(())
}

/// The text of the events for so many units.
pub fn generate_events(alloc: Global, units: u32) -> Result<String, NoMemory>
    requires some { 1 ≤ units }
    requires few { units ≤ 64 }
    ensures { IfOk result (λ made. string_bytes made ≡ event_text units) }
{
    let mut text = String::new(alloc);
    for turn in 0..1000u32 {
        let place = turn + 1;
        put_load(&mut text, 1 + 7 * place % units, 37 * place % 1000)?;
    }
    Ok(text)
}
