ghost use Rattle.std.specs.Prelude.{◌≡◌, ℕ, ◌≤◌, ◌++◌, IfOk, OnOk, Some, flat_map, map, slice_get};
ghost use Rattle.std.specs.Option.{option_copied};
ghost use Rattle.rsml_syntax.specs.declared.syntax.Decl as declared_as;
ghost use Rattle.rsml_syntax.specs.rules.Globals.{many, up_to, indices, size_of};
ghost use Rattle.rsml_meaning.specs.Instances.{globals_of};
ghost use Rattle.rsml_meaning.specs.Interfaces.{definitions_of, definitions};
ghost use Rattle.phrase_builder.specs.Sources.{instance_of, all_defined_by};

use crate::lookup::Lookup;
use rsml_syntax::{Amount, Case, Decl, NoMemory, Row, Text};
use std::alloc::Global;

/// What is declared under a name: a macro's table, or a function's cases.
#[derive(Clone, Copy)]
pub enum Content<'a> {
    Table(&'a [Row]),
    Cases(&'a [Case]),
}

/// An instance of a macro or of a function, as it is written.
#[derive(Clone, Copy)]
pub struct Source<'a> {
    pub name: &'a Text,
    pub index: u8,
    pub content: Content<'a>,
}

// Adds the instances 1 to `count` of a name.
fn add_array<'a>(
    sources: &mut Vec<Source<'a>>,
    name: &'a Text,
    count: u8,
    content: Content<'a>,
) -> Result<(), NoMemory>
    ensures { OnOk result (all_defined_by sources.new.items
        ≡ all_defined_by sources.old.items ++ map (instance_of name.now content.entry) (up_to count)) }
{
    for before in 0..count {
        sources.push(Source {
            name,
            index: before + 1,
            content,
        })?;
    }
    Ok(())
}

// Adds the instances of a name that is declared with this size.
fn add_instances<'a>(
    lookup: &Lookup<'_, '_>,
    sources: &mut Vec<Source<'a>>,
    name: &'a Text,
    size: Option<&Amount>,
    content: Content<'a>,
) -> Result<(), NoMemory>
    requires { many (globals_of lookup.now) (option_copied size) ≤ 64 }
    ensures { OnOk result (all_defined_by sources.new.items
        ≡ all_defined_by sources.old.items ++ map (instance_of name.now content.entry) (indices (globals_of lookup.now) (option_copied size.entry))) }
{
    match size {
        None => {
            sources.push(Source {
                name,
                index: 0,
                content,
            })?;
            Ok(())
        }
        Some(_) => add_array(sources, name, lookup.many(size) as u8, content),
    }
}

// Adds the instances of a declaration.
fn add_declared<'a>(
    lookup: &Lookup<'_, '_>,
    sources: &mut Vec<Source<'a>>,
    decl: &'a Decl,
) -> Result<(), NoMemory>
    requires { many (globals_of lookup.now) (size_of decl.now) ≤ 64 }
    ensures { OnOk result (all_defined_by sources.new.items
        ≡ all_defined_by sources.old.items ++ definitions_of (globals_of lookup.now) decl.now) }
{
    match decl {
        Decl::Macro { name, size, rows } => {
            let content = Content::Table(rows.as_slice());
            add_instances(lookup, sources, name, size.as_ref(), content)
        }
        Decl::Function { name, size, cases } => {
            let content = Content::Cases(cases.as_slice());
            add_instances(lookup, sources, name, size.as_ref(), content)
        }
        _ => Ok(()),
    }
}

// The instances of macros and functions that declarations make.
fn declared<'a>(
    alloc: Global,
    lookup: &Lookup<'_, '_>,
    decls: &'a [Decl],
) -> Result<Vec<Source<'a>>, NoMemory>
    requires { (k : ℕ) (d : declared_as.Decl) → slice_get decls.now k ≡ Some d → many (globals_of lookup.now) (size_of d) ≤ 64 }
    ensures { IfOk result (λ sources. all_defined_by sources.items ≡ flat_map (definitions_of (globals_of lookup.now)) decls.now) }
{
    let mut sources = Vec::new(alloc);
    for decl in decls {
        add_declared(lookup, &mut sources, decl)?;
    }
    Ok(sources)
}

/// The instances of macros and functions, in order.
#[tactic(auto, using(crate::proofs::Declared::sizes_few))]
pub fn sources<'a>(alloc: Global, lookup: &Lookup<'a, '_>) -> Result<Vec<Source<'a>>, NoMemory>
    ensures { IfOk result (λ sources. all_defined_by sources.items ≡ definitions lookup.now) }
{
    declared(alloc, lookup, lookup.spec().decls.as_slice())
}
