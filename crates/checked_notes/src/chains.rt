ghost use Rattle.std.specs.Prelude.{◌≡◌, IfOk};

use elaborate::Machine;
use event_chains::Chains;
use rsml_base::NoMemory;
use rsml_syntax::Checked;
use std::alloc::Global;

/// The chains of events of a machine of this specification.
pub fn chains_of<'a>(
    alloc: Global,
    checked: &'a Checked,
    machine: &Machine<'a>,
) -> Result<Chains<'a>, NoMemory>
    requires { machine.now.base.spec ≡ checked.now }
{
    machine.law();
    Chains::build(
        alloc,
        checked,
        machine.tree(),
        machine.interfaces(),
        machine.all_transitions(),
        machine.all_send_cases(),
    )
}
