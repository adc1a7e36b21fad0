ghost use Rattle.std.specs.Prelude.{◌≡◌, [], ◌∷◌, IfOk, OnOk, map};
ghost use Rattle.std.specs.List.{IsDistinct};
ghost use Rattle.rsml_limits.specs.comparisons.Asks.{left_sums};
ghost use Rattle.rsml_limits.specs.comparisons.Shown.{shown_sum, shown_left, shown_ask};
ghost use Rattle.rsml_limits.specs.keys.Classes.{linear};
ghost use Rattle.rsml_limits.specs.keys.Numbered.{same_ordered, Grows, IsList, IsBlock};
ghost use Rattle.rsml_limits.specs.keys.Shown.{shown_order, named_sums};

use crate::comparisons::{Ask, GroundTerm, Left, case_sums};
use crate::keys::class::Class;
use crate::keys::order::Order;
use crate::keys::sum_lists::SumLists;
use indexmap::IndexMap;
use pair_counts::Block;
use rsml_names::Globals;
use rsml_syntax::{NoMemory, Text};
use std::alloc::Global;
use std::marker::Model;

/// What decides the list of a function: the instance, the relation of the keys, and the class of the
/// sum that it is compared with.
#[derive(Clone, Copy, PartialEq, Eq, Hash)]
pub struct ListName<'a> {
    pub function: &'a Text,
    pub at: u64,
    pub order: Order,
    pub class: Class,
}

/// The blocks of asks, over lists of numbers; the list of a function is made once for each name.
pub struct AskBlocks<'a, 'b> {
    globals: &'b Globals<'a>,
    lists: SumLists<'a>,
    known: IndexMap<ListName<'a>, u32>,
}

impl Drop for AskBlocks<'_, '_> {
    fn drop(self) {
        let Self {
            globals: _,
            lists: _,
            known: _,
        } = self;
    }
}

impl<'a, 'b> Model for AskBlocks<'a, 'b> {
    ghost use Rattle.std.specs.List.{All};
    ghost use Rattle.rsml_limits.specs.keys.Numbered as spec;
    ghost use Rattle.rsml_limits.specs.keys.Shown.{IsNamedList};

    ghost Value = { spec.AskBlocks };

    ghost view = { λ l. record { globals = l.globals.now; numbered = l.lists } };

    ghost invariant = { λ l. All (λ e. IsNamedList l.globals.now l.lists e.0 e.1) l.known.entries };
}

impl<'a, 'b> AskBlocks<'a, 'b> {
    /// No list yet.
    pub fn new(alloc: Global, globals: &'b Globals<'a>) -> AskBlocks<'a, 'b>
        ensures { result ≡ record {
          globals = globals.now;
          numbered = record { sums = []; lists = [] };
        } }
    {
        AskBlocks {
            globals,
            lists: SumLists::new(alloc),
            known: IndexMap::new(alloc),
        }
    }

    /// The lists.
    pub fn lists(&self) -> &[Vec<u32>]
        ensures { map (λ v. v.items) result.now ≡ self.now.numbered.lists }
    {
        self.lists.all()
    }

    /// The block of an ask.
    pub fn block(&mut self, alloc: Global, ask: &Ask<'a>) -> Result<Block, NoMemory>
        ensures block { IfOk result (λ block.
            IsBlock self.old.globals self.new.numbered (shown_ask ask.now) block) }
        ensures same { self.new.globals ≡ self.old.globals }
        ensures grows { Grows self.old.numbered self.new.numbered }
        ensures differ { OnOk result (IsDistinct same_ordered self.new.numbered.sums) }
    {
        let order = Order::new(ask.relation);
        let class = Class::new(ask.right.as_slice());
        let list = self.list(alloc, order, class, &ask.left)?;
        let right = Vec::from_slice(alloc, ask.right.as_slice())?;
        let fixed = self.lists.number(order, right)?;
        Ok(Block { fixed, list })
    }

    // The place of the list of a left side, without the sums that are tight with one of this class.
    fn list(
        &mut self,
        alloc: Global,
        order: Order,
        class: Class,
        left: &Left<'a>,
    ) -> Result<u32, NoMemory>
        ensures list { IfOk result (λ place. IsList self.new.numbered place (shown_order order)
            (linear class (left_sums self.old.globals (shown_left left.now)))) }
        ensures same { self.new.globals ≡ self.old.globals }
        ensures grows { Grows self.old.numbered self.new.numbered }
    {
        match left {
            Left::Sum(terms) => self.sum_list(alloc, order, class, terms.as_slice()),
            Left::Function { name, at } => self.function_list(
                alloc,
                ListName {
                    function: *name,
                    at: *at,
                    order,
                    class,
                },
            ),
        }
    }

    // The place of the list of one sum.
    fn sum_list(
        &mut self,
        alloc: Global,
        order: Order,
        class: Class,
        terms: &[GroundTerm<'a>],
    ) -> Result<u32, NoMemory>
        ensures list { IfOk result (λ place. IsList self.new.numbered place (shown_order order)
            (linear class (shown_sum terms.now ∷ []))) }
        ensures same { self.new.globals ≡ self.old.globals }
        ensures grows { Grows self.old.numbered self.new.numbered }
    {
        let sums = vec![in alloc; Vec::from_slice(alloc, terms)?]?;
        self.lists.put(alloc, order, class, sums)
    }

    // The place of the list of a function.
    fn function_list(&mut self, alloc: Global, name: ListName<'a>) -> Result<u32, NoMemory>
        ensures list { IfOk result (λ place. IsList self.new.numbered place
            (shown_order name.entry.order) (named_sums self.old.globals name.entry)) }
        ensures same { self.new.globals ≡ self.old.globals }
        ensures grows { Grows self.old.numbered self.new.numbered }
    {
        if let Some(place) = self.known.get(&name) {
            return Ok(*place);
        }
        let sums = case_sums(alloc, self.globals, name.function, name.at)?;
        let place = self.lists.put(alloc, name.order, name.class, sums)?;
        self.known.insert(name, place)?;
        Ok(place)
    }
}
