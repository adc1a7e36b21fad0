ghost use Rattle.std.specs.Prelude.{◌≡◌, [], ◌∷◌, ◌++◌, IfOk, IfSome, List, map, slice_get, Some, length};
ghost use Rattle.std.specs.Option.{option_copied, option_map};
ghost use Rattle.rsml_syntax.specs.declared.syntax.StateDecl.{StateDecl as State};
ghost use Rattle.rsml_syntax.specs.grammar.Parts as parts;
ghost use Rattle.rsml_syntax.specs.text.Names.{place_of};
ghost use Rattle.rsml_syntax.specs.rules.Uses.{child_named};
ghost use Rattle.rsml_names.specs.Kin.{Holds, HoldsSome, Fits, IsChild, Grown, child_of};

use crate::bodies::children_of;
use crate::name_list::NameList;
use rsml_syntax::{Body, NoMemory, StateDecl};
use std::alloc::Global;
use std::marker::Model;

/// The children of one state with their names, and the number of each child's own family.
struct Family<'a> {
    children: &'a [StateDecl],
    names: NameList<'a>,
    below: Vec<usize>,
}

impl Drop for Family<'_> {
    fn drop(self) {
        let Self {
            children: _,
            names: _,
            below: _,
        } = self;
    }
}

impl<'a> Model for Family<'a> {
    ghost use Rattle.rsml_names.specs.Kin as spec;
    ghost use Rattle.rsml_syntax.specs.contracts.syntax.StateDecl as states;
    ghost use Rattle.std.specs.Coded.{codes};

    ghost Value = { spec.Family };

    ghost coded = { Prim.hlevel (codes, states.the_row.coded) };

    ghost view = { λ f.
        record { children = f.children.now; names = f.names; below = f.below.items } };
}

impl<'a> Family<'a> {
    /// The child at the first place of a name.
    fn child(&self, name: &[u8]) -> Option<Child<'a>>
        ensures { result ≡ child_of self.now name.now }
    {
        let place = self.names.find(name)?;
        let state = self.children.get(place)?;
        let family = self.below(place)?;
        Some(Child { state, family })
    }

    /// The number of the family of the child at a place.
    fn below(&self, place: usize) -> Option<usize>
        ensures { result ≡ slice_get self.now.below place }
    {
        self.below.get(place).copied()
    }
}

/// A child, and the number of the family of its own children.
#[derive(Drop)]
pub struct Child<'a> {
    pub state: &'a StateDecl,
    pub family: usize,
}

impl<'a> Model for Child<'a> {
    ghost use Rattle.rsml_names.specs.Kin as spec;
    ghost use Rattle.rsml_syntax.specs.contracts.syntax.StateDecl as states;
    ghost use Rattle.std.specs.Coded.{codes};

    ghost Value = { spec.Child };

    ghost coded = { Prim.hlevel (codes, states.the_row.coded) };

    ghost view = { λ c. record { state = c.state.now; family = c.family } };
}

/// The children of all states, by families: a child is found by its name at once.
#[derive(Drop)]
pub struct Families<'a> {
    all: Vec<Family<'a>>,
}

impl<'a> Model for Families<'a> {
    ghost use Rattle.std.specs.Prelude.{List};
    ghost use Rattle.rsml_names.specs.Kin as spec;
    ghost use Rattle.rsml_syntax.specs.contracts.syntax.StateDecl as states;
    ghost use Rattle.std.specs.Coded.{codes};

    ghost Value = { List spec.Family };

    ghost coded = { Prim.hlevel (codes, states.the_row.coded) };

    ghost view = { λ f. f.all.items };

    ghost invariant = { λ f. spec.AreFamilies f.all.items };
}

impl<'a> Families<'a> {
    /// The families of a state and of all that is in it, and the number of its own.
    pub fn new(alloc: Global, body: &'a Body) -> Result<(Families<'a>, usize), NoMemory>
        ensures { IfOk result (λ r. Holds r.0 r.1 (parts.children_of body.now)) }
    {
        let none = Families {
            all: Vec::new(alloc),
        };
        none.with(alloc, body)
    }

    /// These families with those of a state and of all that is in it, and the number of its own.
    #[cycle(families)]
    fn with(self, alloc: Global, body: &'a Body) -> Result<(Families<'a>, usize), NoMemory>
        ensures { IfOk result
            (λ r. Grown self.entry r.0 × Holds r.0 r.1 (parts.children_of body.now)) }
    {
        match body {
            Body::Basic => self.with_children(alloc, &[]),
            Body::One { children, .. } | Body::All { children } => {
                self.with_children(alloc, children.as_slice())
            }
        }
    }

    /// These families with those of children, and the number of theirs.
    #[cycle(families)]
    fn with_children(
        self,
        alloc: Global,
        children: &'a [StateDecl],
    ) -> Result<(Families<'a>, usize), NoMemory>
        ensures { IfOk result (λ r. Grown self.entry r.0 × Holds r.0 r.1 children.now) }
    {
        let mut families = self;
        let mut names = NameList::new(alloc);
        let mut below = Vec::new(alloc);
        for child in children {
            names.add(child.name.bytes())?;
            let (grown, number) = families.with(alloc, &child.body)?;
            families = grown;
            below.push(number)?;
        }
        families.put(Family {
            children,
            names,
            below,
        })
    }

    /// These families with one more that fits, and its number.
    fn put(self, family: Family<'a>) -> Result<(Families<'a>, usize), NoMemory>
        requires { Fits self family }
        ensures { IfOk result
            (λ r. (r.0 ≡ self.entry ++ family.entry ∷ []) × (r.1 ≡ length self.entry)) }
    {
        let Families { mut all } = self;
        let number = all.len();
        all.push(family)?;
        Ok((Families { all }, number))
    }

    /// The family of a number.
    fn family(&self, number: usize) -> Option<&Family<'a>>
        ensures at { option_copied result ≡ slice_get self.now number }
        ensures fits { IfSome result (λ f. Fits self.now f.now) }
    {
        self.all.get(number)
    }

    /// A child of a family, by its name.
    pub fn child(&self, family: usize, name: &[u8]) -> Option<Child<'a>>
        ensures { (children : List State) → Holds self.now family children
            → IsChild self.now (child_named name.now children) result }
    {
        self.family(family)?.child(name)
    }

    /// The names of the children of a family.
    pub fn names(&self, family: usize) -> Option<&NameList<'a>>
        ensures { (children : List State) → Holds self.now family children
            → option_copied result ≡ Some (map (λ c. c.name) children) }
    {
        match self.family(family) {
            Some(family) => Some(&family.names),
            None => None,
        }
    }

    /// The number of the family of a child, by the child's place.
    pub fn below(&self, family: usize, place: usize) -> Option<usize>
        ensures { (children : List State) (child : State) → Holds self.now family children
            → slice_get children place ≡ Some child → HoldsSome self.now result (parts.children_of child.body) }
    {
        self.family(family)?.below(place)
    }
}
