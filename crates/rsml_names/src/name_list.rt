ghost use Rattle.std.specs.Prelude.{◌≡◌, [], ◌∷◌, ◌++◌, IfOk, OnErr, OnOk, length};
ghost use Rattle.rsml_syntax.specs.text.Names.{place_of, is_in};

use rsml_syntax::NoMemory;
use std::alloc::Global;
use std::collections::BTreeMap;
use std::marker::Model;

/// Names in the order in which they were put in, with the first place of each. They are looked up by a tree in
/// the order of their bytes: no text can make that slow, as names of one hash value would.
pub struct NameList<'a> {
    all: Vec<&'a [u8]>,
    first: BTreeMap<&'a [u8], usize>,
}

impl Drop for NameList<'_> {
    fn drop(self) {
        let Self { all: _, first: _ } = self;
    }
}

impl<'a> Model for NameList<'a> {
    ghost use Rattle.std.specs.Prelude.{◌≡◌, List, ℕ, map};
    ghost use Rattle.std.specs.BTreeMap.{get_by};
    ghost use Rattle.std.specs.Cmp.Lexicographic.{slice_cmp};
    ghost use Rattle.std.specs.Ordering.{nat_cmp};
    ghost use Rattle.rsml_syntax.specs.text.Names.{place_of};

    ghost Value = { List (List ℕ) };

    ghost view = { λ n. map (λ x. x.now) n.all.items };

    ghost invariant = { λ n. (k : List ℕ) → get_by (λ x. slice_cmp nat_cmp k x.now) n.first
        ≡ place_of k (map (λ x. x.now) n.all.items) };
}

impl<'a> NameList<'a> {
    /// No names.
    pub fn new(alloc: Global) -> NameList<'a>
        ensures { result ≡ [] }
    {
        NameList {
            all: Vec::new(alloc),
            first: BTreeMap::new(alloc),
        }
    }

    /// How many names there are.
    #[tactic(auto, using(crate::proofs::NamesLemmas::lent_many))]
    pub fn count(&self) -> usize
        ensures { result ≡ length self.now }
    {
        self.all.len()
    }

    /// The first place of a name.
    pub fn find(&self, name: &[u8]) -> Option<usize>
        ensures { result ≡ place_of name.now self.now }
    {
        self.first.get(name).copied()
    }

    /// Whether a name is among them.
    pub fn has(&self, name: &[u8]) -> bool
        ensures { result ≡ is_in name.now self.now }
    {
        self.find(name).is_some()
    }

    /// The names with one more at the end, and whether it was among them before.
    pub fn put(self, name: &'a [u8]) -> Result<(NameList<'a>, bool), NoMemory>
        ensures { IfOk result (λ r. (r.0 ≡ self.entry ++ name.now ∷ []) × (r.1 ≡ is_in name.now self.entry)) }
    {
        let NameList { mut all, mut first } = self;
        let again = first.contains_key(name);
        if !again {
            first.insert(name, all.len())?;
        }
        all.push(name)?;
        Ok((NameList { all, first }, again))
    }

    /// Puts a name at the end, and says whether it was among them before.
    pub fn add(&mut self, name: &'a [u8]) -> Result<bool, NoMemory>
        ensures put { OnOk result (self.new ≡ self.old ++ name.now ∷ []) }
        ensures again { IfOk result (λ again. again ≡ is_in name.now self.old) }
        ensures err { OnErr result (self.new ≡ self.old) }
    {
        let again = self.first.contains_key(name);
        let place = self.all.len();
        self.all.push(name)?;
        if !again {
            if let Err(error) = self.first.insert(name, place) {
                self.all.pop();
                return Err(error.into());
            }
        }
        Ok(again)
    }
}
