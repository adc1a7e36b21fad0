ghost use Rattle.std.specs.Prelude.{◌≡◌, IfOk, flat_map};
ghost use Rattle.rsml_meaning.specs.Instances as instances;
ghost use Rattle.rsml_meaning.specs.Interfaces.{sends_of};
ghost use Rattle.rsml_names.specs.PreviousNames as after;
ghost use Rattle.state_arrays.specs.Made.{AreArrays, inputs_of, previous_of, definitions_made, receives_made};

use crate::declared::instances_of;
use crate::input_names::InputNames;
use crate::instances::Instances;
use crate::interface_names::InterfaceNames;
use crate::kind::Kind;
use rsml_names::{Globals, previous_names};
use rsml_syntax::{NoMemory, Spec};
use std::alloc::Global;

/// The instances of what a specification declares.
#[derive(Drop)]
pub struct Named<'a> {
    pub events: Instances<'a>,
    pub cells: InputNames<'a>,
    pub interfaces: InterfaceNames<'a>,
}

/// The instances of inputs, and of those that stand after `previous`.
fn cells<'a>(
    alloc: Global,
    globals: &Globals<'_>,
    spec: &'a Spec,
) -> Result<InputNames<'a>, NoMemory>
    requires inputs { AreArrays globals.now (inputs_of globals.now) spec.now.decls }
    requires previous { AreArrays globals.now
        (previous_of (after.previous_names spec.now) globals.now) spec.now.decls }
    ensures inputs { IfOk result (λ n. n.inputs ≡ flat_map (inputs_of globals.now) spec.now.decls) }
    ensures previous { IfOk result (λ n. n.previous
        ≡ flat_map (previous_of (after.previous_names spec.now) globals.now) spec.now.decls) }
{
    let after_previous = previous_names(alloc, spec)?;
    InputNames::new(alloc, globals, &after_previous, spec.decls.as_slice())
}

/// The instances of all that is declared.
pub fn all_named<'a>(
    alloc: Global,
    globals: &Globals<'_>,
    spec: &'a Spec,
) -> Result<Named<'a>, NoMemory>
    requires events { AreArrays globals.now (instances.events_of globals.now) spec.now.decls }
    requires inputs { AreArrays globals.now (inputs_of globals.now) spec.now.decls }
    requires previous { AreArrays globals.now
        (previous_of (after.previous_names spec.now) globals.now) spec.now.decls }
    requires definitions { AreArrays globals.now (definitions_made globals.now) spec.now.decls }
    requires receives { AreArrays globals.now (receives_made globals.now) spec.now.decls }
    requires sends { AreArrays globals.now (sends_of globals.now) spec.now.decls }
    ensures events { IfOk result (λ n. n.events
        ≡ flat_map (instances.events_of globals.now) spec.now.decls) }
    ensures inputs { IfOk result (λ n. n.cells.inputs
        ≡ flat_map (inputs_of globals.now) spec.now.decls) }
    ensures previous { IfOk result (λ n. n.cells.previous
        ≡ flat_map (previous_of (after.previous_names spec.now) globals.now) spec.now.decls) }
    ensures definitions { IfOk result (λ n. n.interfaces.definitions
        ≡ flat_map (definitions_made globals.now) spec.now.decls) }
    ensures receives { IfOk result (λ n. n.interfaces.receives
        ≡ flat_map (receives_made globals.now) spec.now.decls) }
    ensures sends { IfOk result (λ n. n.interfaces.sends
        ≡ flat_map (sends_of globals.now) spec.now.decls) }
{
    let events = instances_of(alloc, globals, Kind::Event, spec.decls.as_slice())?;
    let cells = cells(alloc, globals, spec)?;
    let interfaces = InterfaceNames::new(alloc, globals, spec.decls.as_slice())?;
    Ok(Named {
        events,
        cells,
        interfaces,
    })
}
