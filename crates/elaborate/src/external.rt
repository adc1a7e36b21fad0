ghost use Rattle.std.specs.Prelude.{◌≡◌, ◌<◌, IfOk, length, slice_set, true};
ghost use Rattle.rsml_syntax.specs.limits.Checked.{IsChecked};
ghost use Rattle.rsml_meaning.specs.Instances as instances;
ghost use Rattle.elaborate.specs.Parts.{AreExternal};

use interfaces::Interfaces;
use rsml_syntax::NoMemory;
use std::alloc::Global;

/// For each event whether it is external: some receive instance raises it.
pub fn external(
    alloc: Global,
    interfaces: &Interfaces<'_>,
    count: u32,
) -> Result<Vec<bool>, NoMemory>
    requires checked { IsChecked interfaces.now }
    requires count { count ≡ length (instances.events interfaces.now) }
    ensures marks { IfOk result (λ marks. AreExternal interfaces.now marks.items) }
    ensures count { IfOk result (λ marks. length marks.items ≡ count) }
{
    let mut marks = Vec::from_elem(alloc, false, count as usize)?;
    for receive in 0..interfaces.receives() {
        mark(&mut marks, interfaces.raised(receive));
    }
    Ok(marks)
}

// Marks an event.
fn mark(marks: &mut Vec<bool>, event: u32)
    requires { event < length marks.old.items }
    ensures { marks.new.items ≡ slice_set marks.old.items event true }
{
    marks[event as usize] = true;
}
