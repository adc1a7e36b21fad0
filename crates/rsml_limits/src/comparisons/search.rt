ghost use Rattle.std.specs.Prelude.{◌≡◌, IfOk, OnOk, OnErr, [], ◌∷◌, map, flat_map};
ghost use Rattle.rsml_syntax.specs.limits.Comparisons as terms;
ghost use Rattle.rsml_syntax.specs.grammar.Parts as parts;
ghost use Rattle.rsml_limits.specs.comparisons.Asks.{ask_comparisons};
ghost use Rattle.rsml_limits.specs.comparisons.Searched.{searched};
ghost use Rattle.rsml_limits.specs.comparisons.Shown.{shown_ask};

use crate::comparisons::ask::Ask;
use crate::comparisons::declarations::declaration;
use crate::comparisons::states::{inside, state};
use rsml_names::Globals;
use rsml_syntax::{Decl, NoMemory, Spec};
use std::alloc::Global;
use std::marker::Model;

/// A search through the comparisons of a specification: what was asked so far, in the order of the
/// ground rows.
#[derive(Drop)]
pub struct Search<'g, 'a> {
    globals: &'g Globals<'a>,
    asks: Vec<Ask<'a>>,
}

impl<'g, 'a> Model for Search<'g, 'a> {
    ghost use Rattle.std.specs.Prelude.{map, flat_map};
    ghost use Rattle.rsml_limits.specs.comparisons.Asks.{ask_comparisons};
    ghost use Rattle.rsml_limits.specs.comparisons.Searched.{Searched};
    ghost use Rattle.rsml_limits.specs.comparisons.Shown.{shown_ask};

    ghost Value = { Searched };

    ghost view = { λ s. record { globals = s.globals.now; found = flat_map (ask_comparisons s.globals.now) (map shown_ask s.asks.items) } };
}

impl<'g, 'a> Search<'g, 'a> {
    /// All comparisons of a specification, by these global names.
    pub fn through(
        alloc: Global,
        globals: &'g Globals<'a>,
        spec: &'a Spec,
    ) -> Result<Search<'g, 'a>, NoMemory>
        ensures { IfOk result (λ search. search ≡ record {
          globals = globals.now;
          found = flat_map (terms.comparisons globals.now) (parts.parts spec.now);
        }) }
    {
        let mut search = Search {
            globals,
            asks: Vec::new(alloc),
        };
        comparisons(&mut search, alloc, spec)?;
        Ok(search)
    }

    /// The global names.
    pub fn globals(&self) -> &'g Globals<'a>
        ensures { result.now ≡ self.now.globals }
    {
        self.globals
    }

    /// What was asked.
    pub fn asks(&self) -> &[Ask<'a>]
        ensures { flat_map (ask_comparisons self.now.globals) (map shown_ask result.now) ≡ self.now.found }
    {
        self.asks.as_slice()
    }

    /// Puts an ask last. Out of memory, what was asked stays as it was.
    pub(crate) fn ask(&mut self, ask: Ask<'a>) -> Result<(), NoMemory>
        ensures ok { OnOk result (self.new
            ≡ searched self.old (λ g. ask_comparisons g (shown_ask ask.entry))) }
        ensures err { OnErr result (self.new ≡ self.old) }
    {
        self.asks.push(ask)?;
        Ok(())
    }
}

// All comparisons.
fn comparisons<'a>(
    search: &mut Search<'_, 'a>,
    alloc: Global,
    spec: &'a Spec,
) -> Result<(), NoMemory>
    ensures { OnOk result (search.new
        ≡ searched search.old (λ g. flat_map (terms.comparisons g) (parts.parts spec.now))) }
{
    each_declaration(alloc, search, spec.decls.as_slice())?;
    inside(alloc, search, None, &spec.body)?;
    state(alloc, search, None, &spec.body)
}

// The comparisons of declarations.
fn each_declaration<'a>(
    alloc: Global,
    search: &mut Search<'_, 'a>,
    decls: &'a [Decl],
) -> Result<(), NoMemory>
    ensures { OnOk result (search.new
        ≡ searched search.old (λ g. flat_map (λ d. terms.comparisons g
        (parts.Declared 0 d)) decls.now)) }
{
    for decl in decls {
        declaration(alloc, search, decl)?;
    }
    Ok(())
}
