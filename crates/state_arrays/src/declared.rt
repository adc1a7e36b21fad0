//! The instances that declarations make.
ghost use Rattle.std.specs.Prelude.{◌≡◌, ◌++◌, IfOk, flat_map, map};
ghost use Rattle.rsml_meaning.specs.Interfaces as interfaces;
ghost use Rattle.state_arrays.specs.Made.{AreArrays, Admits};
ghost use Rattle.state_arrays.specs.Kinds.{made};

use crate::index_range::IndexRange;
use crate::instances::Instances;
use crate::kind::Kind;
use rsml_names::{Globals, name_of, size_of};
use rsml_syntax::{Checked, Decl, NoMemory};
use std::alloc::Global;

/// These instances, and those of this kind that one more declaration makes.
fn with_declaration<'a>(
    instances: Instances<'a>,
    globals: &Globals<'_>,
    kind: Kind<'_, '_>,
    decl: &'a Decl,
) -> Result<Instances<'a>, NoMemory>
    requires { Admits globals.now instances decl.now }
    ensures { IfOk result (λ r. r ≡ instances.entry ++ made kind.entry globals.now decl.now) }
{
    if kind.is_made_by(decl) {
        instances.with(
            name_of(decl).bytes(),
            IndexRange::new(globals, size_of(decl)),
        )
    } else {
        Ok(instances)
    }
}

/// The instances of this kind that declarations make.
pub fn instances_of<'a>(
    alloc: Global,
    globals: &Globals<'_>,
    kind: Kind<'_, '_>,
    decls: &'a [Decl],
) -> Result<Instances<'a>, NoMemory>
    requires { AreArrays globals.now (made kind globals.now) decls.now }
    ensures { IfOk result (λ r. r ≡ flat_map (made kind.entry globals.now) decls.now) }
{
    let mut instances = Instances::new(alloc);
    for decl in decls {
        instances = with_declaration(instances, globals, kind, decl)?;
    }
    Ok(instances)
}

/// The receive instances of a specification.
pub fn receive_instances<'a>(alloc: Global, checked: &'a Checked) -> Result<Instances<'a>, NoMemory>
    ensures { IfOk result (λ r. r ≡ map (λ x. x.receive) (interfaces.receives checked.now)) }
{
    let spec = checked.spec();
    let decls = spec.decls.as_slice();
    let globals = Globals::new(alloc, decls)?;
    let receives = instances_of(alloc, &globals, Kind::Receive, decls)?;
    Ok(receives)
}
