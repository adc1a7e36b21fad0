//! The instances of one sort, listed with their declarations.
ghost use Rattle.std.specs.Prelude.{◌≡◌, ℕ, ◌≤◌, ◌++◌, IfOk, OnOk, Some, flat_map, map, slice_get};
ghost use Rattle.rsml_syntax.specs.declared.syntax.Decl as syntax;
ghost use Rattle.rsml_syntax.specs.rules.Globals.{indices, many, size_of, up_to};
ghost use Rattle.instance_texts.specs.Listing.{at_index, listed_by};

use crate::listed::Listed;
use crate::sorts::{Sort, is_of};
use rsml_names::{Globals, size_of};
use rsml_syntax::{Decl, NoMemory};
use std::alloc::Global;

// Adds the instances 1 to `count` of a declaration.
fn add_array<'a>(listed: &mut Vec<Listed<'a>>, decl: &'a Decl, count: u8) -> Result<(), NoMemory>
    ensures { OnOk result (listed.new.items
        ≡ listed.old.items ++ map (at_index decl.now) (up_to count)) }
{
    for before in 0..count {
        let index = before + 1;
        listed.push(Listed { decl, index })?;
    }
    Ok(())
}

// Adds the instances of a declaration.
fn add_instances<'a>(
    listed: &mut Vec<Listed<'a>>,
    globals: &Globals<'_>,
    decl: &'a Decl,
) -> Result<(), NoMemory>
    requires { many globals.now (size_of decl.now) ≤ 64 }
    ensures { OnOk result (listed.new.items
        ≡ listed.old.items ++ map (at_index decl.now) (indices globals.now (size_of decl.now))) }
{
    match size_of(decl) {
        None => {
            listed.push(Listed { decl, index: 0 })?;
            Ok(())
        }
        Some(size) => add_array(listed, decl, globals.many(Some(size)) as u8),
    }
}

// Adds the instances of a declaration, where it is one of the sort.
fn add_declared<'a>(
    listed: &mut Vec<Listed<'a>>,
    globals: &Globals<'_>,
    sort: Sort,
    decl: &'a Decl,
) -> Result<(), NoMemory>
    requires { many globals.now (size_of decl.now) ≤ 64 }
    ensures { OnOk result (listed.new.items
        ≡ listed.old.items ++ listed_by sort globals.now decl.now) }
{
    if is_of(sort, decl) {
        add_instances(listed, globals, decl)
    } else {
        Ok(())
    }
}

/// The instances of a sort that declarations make.
pub fn listing<'a>(
    alloc: Global,
    globals: &Globals<'_>,
    sort: Sort,
    decls: &'a [Decl],
) -> Result<Vec<Listed<'a>>, NoMemory>
    requires { (k : ℕ) (d : syntax.Decl) → slice_get decls.now k ≡ Some d
        → many globals.now (size_of d) ≤ 64 }
    ensures { IfOk result (λ v. v.items ≡ flat_map (listed_by sort globals.now) decls.now) }
{
    let mut listed = Vec::new(alloc);
    for decl in decls {
        add_declared(&mut listed, globals, sort, decl)?;
    }
    Ok(listed)
}
