ghost use Rattle.std.specs.Prelude.{◌≡◌, [], Some, IfOk, OnOk, map, slice_get};
ghost use Rattle.std.specs.List.{IsDistinct};
ghost use Rattle.rsml_limits.specs.comparisons.Shown.{shown_sum};
ghost use Rattle.rsml_limits.specs.keys.Classes.{linear};
ghost use Rattle.rsml_limits.specs.keys.Numbered.{ordered, same_ordered, Grows, IsList};
ghost use Rattle.rsml_limits.specs.keys.Shown.{shown_order};

use crate::comparisons::GroundTerm;
use crate::keys::class::Class;
use crate::keys::order::Order;
use crate::keys::sums::Sums;
use crate::places::number_of;
use indexmap::IndexSet;
use rsml_syntax::NoMemory;
use std::alloc::Global;
use std::marker::Model;

/// Lists of the numbers of sums, each once.
pub struct SumLists<'a> {
    sums: Sums<'a>,
    lists: IndexSet<Vec<u32>>,
}

impl Drop for SumLists<'_> {
    fn drop(self) {
        let Self { sums: _, lists: _ } = self;
    }
}

impl<'a> Model for SumLists<'a> {
    ghost use Rattle.std.specs.Prelude.{map};
    ghost use Rattle.rsml_limits.specs.keys.Numbered.{Numbered};

    ghost Value = { Numbered };

    ghost view = { λ l. record { sums = l.sums; lists = map (λ v. v.items) l.lists.keys } };
}

impl<'a> SumLists<'a> {
    /// No list yet.
    pub fn new(alloc: Global) -> SumLists<'a>
        ensures { result ≡ record { sums = []; lists = [] } }
    {
        SumLists {
            sums: Sums::new(alloc),
            lists: IndexSet::new(alloc),
        }
    }

    /// All lists.
    pub fn all(&self) -> &[Vec<u32>]
        ensures { map (λ v. v.items) result.now ≡ self.now.lists }
    {
        self.lists.as_slice()
    }

    /// The number of a sum.
    pub fn number(&mut self, order: Order, terms: Vec<GroundTerm<'a>>) -> Result<u32, NoMemory>
        ensures number { IfOk result (λ number. slice_get self.new.sums number
            ≡ Some (ordered (shown_order order) (shown_sum terms.entry.items))) }
        ensures grows { Grows self.old self.new }
        ensures differ { OnOk result (IsDistinct same_ordered self.new.sums) }
    {
        self.sums.number(order, terms)
    }

    /// The place of the list of those sums that are not tight with one of this class.
    pub fn put(
        &mut self,
        alloc: Global,
        order: Order,
        class: Class,
        sums: Vec<Vec<GroundTerm<'a>>>,
    ) -> Result<u32, NoMemory>
        ensures list { IfOk result (λ place. IsList self.new place (shown_order order)
            (linear class (map (λ terms. shown_sum terms.items) sums.entry.items))) }
        ensures grows { Grows self.old self.new }
    {
        let numbers = self.sums.numbers(alloc, order, class, sums)?;
        let (place, _) = self.lists.insert_full(numbers)?;
        number_of(place)
    }
}
