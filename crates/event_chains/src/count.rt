//! How many events there are.
ghost use Rattle.std.specs.Prelude.{◌≡◌, ◌≤◌, IfOk, flat_map, length};
ghost use Rattle.rsml_meaning.specs.Instances as instances;
ghost use Rattle.rsml_meaning.specs.Instances.{events};

use rsml_names::Globals;
use rsml_syntax::{Checked, Decl, NoMemory};
use std::alloc::Global;

/// How many event instances a specification has.
pub fn event_count(alloc: Global, checked: &Checked) -> Result<u32, NoMemory>
    ensures count { IfOk result (λ n. n ≡ length (events checked.now)) }
    ensures few { length (events checked.now) ≤ 1024 }
{
    let decls = checked.spec().decls.as_slice();
    let globals = Globals::new(alloc, decls)?;
    Ok(declared(&globals, decls) as u32)
}

// How many event instances declarations make.
fn declared(globals: &Globals<'_>, decls: &[Decl]) -> u64
    requires { length (flat_map (instances.events_of globals.now) decls.now) ≤ 1024 }
    ensures { result ≡ length (flat_map (instances.events_of globals.now) decls.now) }
{
    let mut count = 0;
    for decl in decls {
        count += made(globals, decl);
    }
    count
}

// How many event instances a declaration makes.
fn made(globals: &Globals<'_>, decl: &Decl) -> u64
    ensures { result ≡ length (instances.events_of globals.now decl.now) }
{
    match decl {
        Decl::Event { size, .. } => globals.many(size.as_ref()),
        _ => 0,
    }
}
