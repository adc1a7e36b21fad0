ghost use Rattle.std.specs.Prelude.{◌≡◌, [], Some, IfOk, OnOk, map, slice_get};
ghost use Rattle.std.specs.List.{IsDistinct};
ghost use Rattle.rsml_limits.specs.comparisons.Shown.{shown_sum};
ghost use Rattle.rsml_limits.specs.keys.Classes.{linear};
ghost use Rattle.rsml_limits.specs.keys.Numbered.{ordered, same_ordered, Extends, AreNumbers};
ghost use Rattle.rsml_limits.specs.keys.Shown.{shown_order};

use crate::comparisons::GroundTerm;
use crate::keys::class::Class;
use crate::keys::order::Order;
use crate::places::number_of;
use indexmap::IndexSet;
use rsml_syntax::NoMemory;
use std::alloc::Global;
use std::marker::Model;

/// A sum, with the relation of the keys that it is a side of.
#[derive(PartialEq, Eq, Hash)]
pub struct Ordered<'a> {
    pub order: Order,
    pub terms: Vec<GroundTerm<'a>>,
}

impl Drop for Ordered<'_> {
    fn drop(self) {
        let Self { order: _, terms: _ } = self;
    }
}

/// Sums that have numbers: the places where they stand.
#[derive(Drop)]
pub struct Sums<'a> {
    sums: IndexSet<Ordered<'a>>,
}

impl<'a> Model for Sums<'a> {
    ghost use Rattle.std.specs.Prelude.{List, map};
    ghost use Rattle.rsml_limits.specs.keys.Numbered as spec;
    ghost use Rattle.rsml_limits.specs.keys.Shown.{shown_ordered};

    ghost Value = { List spec.Ordered };

    ghost view = { λ s. map shown_ordered s.sums.keys };
}

impl<'a> Sums<'a> {
    /// No sum has a number yet.
    pub fn new(alloc: Global) -> Sums<'a>
        ensures { result ≡ [] }
    {
        Sums {
            sums: IndexSet::new(alloc),
        }
    }

    /// The number of a sum.
    pub fn number(&mut self, order: Order, terms: Vec<GroundTerm<'a>>) -> Result<u32, NoMemory>
        ensures number { IfOk result (λ number. slice_get self.new number
            ≡ Some (ordered (shown_order order) (shown_sum terms.entry.items))) }
        ensures grows { Extends self.old self.new }
        ensures differ { OnOk result (IsDistinct same_ordered self.new) }
    {
        let (place, _) = self.sums.insert_full(Ordered { order, terms })?;
        number_of(place)
    }

    /// The numbers of those sums that are not tight with one of this class.
    pub fn numbers(
        &mut self,
        alloc: Global,
        order: Order,
        class: Class,
        sums: Vec<Vec<GroundTerm<'a>>>,
    ) -> Result<Vec<u32>, NoMemory>
        ensures numbers { IfOk result (λ numbers. AreNumbers self.new numbers.items (shown_order order)
            (linear class (map (λ terms. shown_sum terms.items) sums.entry.items))) }
        ensures grows { Extends self.old self.new }
    {
        let mut numbers = Vec::new(alloc);
        for terms in sums {
            if !Class::new(terms.as_slice()).is_tight(class) {
                numbers.push(self.number(order, terms)?)?;
            }
        }
        Ok(numbers)
    }
}
