ghost use Rattle.std.specs.Prelude.{◌≡◌, IfOk, IfSome, Some, slice_get};
ghost use Rattle.std.specs.Option.{option_map};
ghost use Rattle.rsml_meaning.specs.Words.{Each};
ghost use Rattle.event_lines.specs.helpers.Declared.{declared_by};
ghost use Rattle.event_lines.specs.helpers.Kept.{IsKnown};

use crate::known::{Known, MOST, kept};
use crate::owners::Owners;
use rsml_syntax::{Decl, NoMemory};
use std::alloc::Global;
use std::marker::Model;

/// The declaration of each global name, those of the first receives at hand. Contracts see the declarations.
pub struct Receives<'a> {
    owners: Owners<'a>,
    first: Vec<Known<'a>>,
}

impl Drop for Receives<'_> {
    fn drop(self) {
        let Self {
            owners: _,
            first: _,
        } = self;
    }
}

impl<'a> Model for Receives<'a> {
    ghost use Rattle.std.specs.Prelude.{List};
    ghost use Rattle.std.specs.Coded.{codes};
    ghost use Rattle.rsml_syntax.specs.declared.syntax.Decl.{Decl};
    ghost use Rattle.rsml_meaning.specs.Words.{Each};
    ghost use Rattle.event_lines.specs.helpers.Kept.{IsKnown};

    ghost Value = { List Decl };

    ghost view = { λ r. r.owners };

    ghost invariant = { λ r. Each (IsKnown r.owners) r.first.items };
}

/// The name and the number of a receive.
fn known<'a>(owners: &Owners<'a>, decl: &'a Decl) -> Option<Known<'a>>
    ensures { IfSome result (λ k. IsKnown owners.now k) }
{
    match decl {
        Decl::Receive { name, .. } => {
            let name = name.bytes();
            let number = owners.number(name)?;
            Some(Known { name, number })
        }
        _ => None,
    }
}

/// Those of the first receives.
fn first_of<'a>(
    alloc: Global,
    owners: &Owners<'a>,
    decls: &'a [Decl],
) -> Result<Vec<Known<'a>>, NoMemory>
    ensures { IfOk result (λ first. Each (IsKnown owners.now) first.items) }
{
    let mut first = Vec::new(alloc);
    for decl in decls {
        if first.len() == MOST {
            break;
        }
        if let Some(known) = known(owners, decl) {
            first.push(known)?;
        }
    }
    Ok(first)
}

impl<'a> Receives<'a> {
    /// Those of declarations.
    pub fn new(
        alloc: Global,
        owners: Owners<'a>,
        decls: &'a [Decl],
    ) -> Result<Receives<'a>, NoMemory>
        ensures { IfOk result (λ receives. receives ≡ owners.entry) }
    {
        let first = first_of(alloc, &owners, decls)?;
        Ok(Receives { owners, first })
    }

    /// The number of the declaration of a global name.
    pub fn number(&self, name: &[u8]) -> Option<usize>
        ensures { option_map (λ n. slice_get self.now n) result
            ≡ option_map (λ d. Some d) (declared_by self.now name.now) }
    {
        match kept(self.first.as_slice(), name) {
            Some(number) => Some(number),
            None => self.owners.number(name),
        }
    }
}
