//! Columns of macros and cases of functions.
use crate::columns::Columns;
use elaborate::Machine;
use ground_groups::Member;
use rsml_base::NoMemory;
use rsml_ground::Definition;
use rsml_names::size_of;
use rsml_syntax::Decl;
use std::alloc::Global;
use table_notes::{cell_place, rows_of};
use written_members::{Scene, Written, definition_of, width, written_at};

/// A column of a macro instance, or a case of a function instance: whether some round asked for it, and whether it was true in one that did.
#[derive(Clone, Copy)]
pub struct Part<'m> {
    pub definition: u32,
    pub place: u32,
    pub columns: Columns<'m>,
    pub was_asked: bool,
    pub was_true: bool,
}

impl<'m> Part<'m> {
    /// As it is written, if it is of the first instance of its declaration.
    pub fn heading<'a>(self, scene: &Scene<'_, 'a>) -> Option<Heading<'m, 'a>> {
        let number = u64::from(self.definition);
        let mut first: u64 = 0;
        for decl in scene.decls {
            if let Decl::Macro { .. } | Decl::Function { .. } = decl {
                let end = first.saturating_add(scene.globals.many(size_of(decl)));
                if first == number && number < end {
                    let part = self;
                    return Some(Heading { decl, part, end });
                }
                first = end;
            }
        }
        None
    }
}

/// A column of a macro, or a case of a function, as it is written: that of the first instance of its declaration, and the number behind
/// the last one.
#[derive(Clone, Copy)]
pub struct Heading<'m, 'a> {
    pub decl: &'a Decl,
    pub part: Part<'m>,
    end: u64,
}

impl Heading<'_, '_> {
    /// Whether a part is written here.
    pub fn has(self, part: Part<'_>) -> bool {
        part.place == self.part.place
            && self.part.definition <= part.definition
            && u64::from(part.definition) < self.end
    }

    /// Where it is written: its cell in the first row, or its case; and an offset behind which its table is the first.
    pub fn written_at(self, scene: &Scene<'_, '_>) -> Option<Written> {
        let (function, place) = (self.part.definition, self.part.place);
        if let Decl::Macro { name, .. } = self.decl {
            let table = name.at() as usize;
            let at = cell_place(scene.source.text(), table, place as usize);
            return Some(Written { at, table });
        }
        written_at(scene, Member::FunctionCase { function, place })
    }
}

/// The column at a place of a macro, or those of the case at a place of a function.
fn columns_at(definition: &Definition, place: usize) -> Option<Columns<'_>> {
    match definition {
        Definition::Macro(table) => {
            if place < width(table) {
                Some(Columns::one(table.rows.as_slice(), None, place))
            } else {
                None
            }
        }
        Definition::Function(cases) => Some(Columns::all(rows_of(&cases.get(place)?.guard))),
    }
}

/// Adds those of the macro or function instance of a number, none of which was asked for yet.
fn add_parts<'m>(
    parts: &mut Vec<Part<'m>>,
    number: u32,
    definition: &'m Definition,
) -> Result<(), NoMemory> {
    for place in 0..u32::MAX {
        let Some(columns) = columns_at(definition, place as usize) else {
            break;
        };
        parts.push(Part {
            definition: number,
            place,
            columns,
            was_asked: false,
            was_true: false,
        })?;
    }
    Ok(())
}

/// Those of a machine.
pub fn parts_of<'m>(alloc: Global, machine: &'m Machine<'_>) -> Result<Vec<Part<'m>>, NoMemory> {
    let mut parts = Vec::new(alloc);
    for number in 0..u32::MAX {
        let Some(definition) = definition_of(machine, number) else {
            break;
        };
        add_parts(&mut parts, number, definition)?;
    }
    Ok(parts)
}
