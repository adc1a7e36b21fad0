ghost use Rattle.std.specs.Prelude.{◌≡◌, IfOk};
ghost use Rattle.reactions.specs.Lines.{AreParts};

use crate::part::Part;
use crate::part_texts::PartTexts;
use elaborate::Machine;
use instance_texts::Texts;
use rsml_syntax::NoMemory;
use std::alloc::Global;

/// The texts of each part of lines, for the instances of a machine.
pub struct LineParts {
    pub receives: PartTexts,
    pub events: PartTexts,
    pub firsts: PartTexts,
    pub sends: PartTexts,
}

impl Drop for LineParts {
    fn drop(self) {
        let Self {
            receives: _,
            events: _,
            firsts: _,
            sends: _,
        } = self;
    }
}

impl LineParts {
    /// Those of a machine, as long as there is room for them. A send that is not there is in no line, and there are
    /// no more sends with lines than cases.
    pub fn new(
        alloc: Global,
        texts: &Texts<'_>,
        machine: &Machine<'_>,
    ) -> Result<LineParts, NoMemory>
        ensures { IfOk result (λ parts. AreParts texts.now parts) }
    {
        let receives = machine.interfaces().receives();
        let receives = PartTexts::new(alloc, texts, Part::Receive, receives)?;
        let events = PartTexts::new(alloc, texts, Part::Event, machine.events())?;
        let firsts = PartTexts::new(alloc, texts, Part::First, machine.events())?;
        let sends = PartTexts::new(alloc, texts, Part::Send, machine.send_cases())?;
        Ok(LineParts {
            receives,
            events,
            firsts,
            sends,
        })
    }
}
