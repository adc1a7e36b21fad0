ghost use Rattle.std.specs.Prelude.{◌≡◌, ◌+◌, IfOk, IfSome, length, flat_map};
ghost use Rattle.rsml_meaning.specs.Instances.{events, events_of};

use rsml_names::Globals;
use rsml_syntax::{Checked, Decl, NoMemory};
use std::alloc::Global;

/// How many events there are. NoMemory also where they are more than a `u32` counts.
pub fn event_count(alloc: Global, checked: &Checked) -> Result<u32, NoMemory>
    ensures { IfOk result (λ count. count ≡ length (events checked.now)) }
{
    let decls = checked.spec().decls.as_slice();
    let globals = Globals::new(alloc, decls)?;
    counted(&globals, decls)
}

// How many events declarations make.
fn counted(globals: &Globals<'_>, decls: &[Decl]) -> Result<u32, NoMemory>
    ensures { IfOk result (λ count. count ≡ length (flat_map (events_of globals.now) decls.now)) }
{
    let mut count = 0u32;
    for decl in decls {
        match add(count, declared(globals, decl)) {
            Some(more) => count = more,
            None => return Err(NoMemory),
        }
    }
    Ok(count)
}

// How many events a declaration makes.
fn declared(globals: &Globals<'_>, decl: &Decl) -> u64
    ensures { result ≡ length (events_of globals.now decl.now) }
{
    match decl {
        Decl::Event { size, .. } => globals.many(size.as_ref()),
        _ => 0,
    }
}

// The sum, if a `u32` counts it.
fn add(count: u32, more: u64) -> Option<u32>
    ensures { IfSome result (λ sum. sum ≡ count + more) }
{
    u32::try_from(more)
        .ok()
        .and_then(|more| count.checked_add(more))
}

/// A count as a `u32`, or want of memory where it does not fit.
pub fn number_of(count: usize) -> Result<u32, NoMemory>
    ensures { IfOk result (λ number. number ≡ count) }
{
    match u32::try_from(count) {
        Ok(number) => Ok(number),
        Err(_) => Err(NoMemory),
    }
}
