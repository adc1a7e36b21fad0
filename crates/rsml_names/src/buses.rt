ghost use Rattle.std.specs.Prelude.{◌≡◌, IfOk, find};
ghost use Rattle.std.specs.Option.{option_copied};
ghost use Rattle.rsml_syntax.specs.text.Names.{same};

use crate::name_list::NameList;
use rsml_syntax::{Bus, NoMemory, Text};
use std::alloc::Global;
use std::marker::Model;

/// The buses of a state, found by their names.
#[derive(Drop)]
pub struct Buses<'a> {
    names: NameList<'a>,
    all: &'a [Bus],
}

impl<'a> Model for Buses<'a> {
    ghost use Rattle.std.specs.Prelude.{◌≡◌, List, map};
    ghost use Rattle.rsml_syntax.specs.declared.syntax.Bus as syntax;

    ghost Value = { List syntax.Bus };

    ghost view = { λ b. b.all.now };

    ghost invariant = { λ b. b.names ≡ map (λ bus. bus.name) b.all.now };
}

impl<'a> Buses<'a> {
    /// These buses.
    pub fn new(alloc: Global, buses: &'a [Bus]) -> Result<Buses<'a>, NoMemory>
        ensures { IfOk result (λ b. b ≡ buses.now) }
    {
        let mut names = NameList::new(alloc);
        for bus in buses {
            names.add(bus.name.bytes())?;
        }
        Ok(Buses { names, all: buses })
    }

    /// The first bus of this name.
    pub fn bus(&self, name: &Text) -> Option<&'a Bus>
        ensures { option_copied result ≡ find (λ b. same name.now b.name) self.now }
    {
        match self.names.find(name.bytes()) {
            Some(place) => self.all.get(place),
            None => None,
        }
    }
}
