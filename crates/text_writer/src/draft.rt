ghost use Rattle.std.specs.Prelude.{◌≡◌, ◌↔◌, true, IfOk, IsOk};
ghost use Rattle.text_writer.specs.DraftState.{empty};

use crate::writer::Writer;
use rsml_base::NoMemory;
use std::alloc::Global;
use std::marker::Model;

/// A text that is written into memory. It is refused where there is no more memory.
#[derive(Drop)]
pub struct Draft {
    text: Vec<u8>,
    whole: bool,
}

impl Model for Draft {
    ghost use Rattle.text_writer.specs.DraftState.{DraftState};

    ghost Value = { DraftState };

    ghost view = { λ d. record { text = d.text.items; whole = d.whole } };
}

impl Draft {
    /// An empty draft, which takes no memory.
    pub fn new(alloc: Global) -> Draft
        ensures { result ≡ empty }
    {
        Draft {
            text: Vec::new(alloc),
            whole: true,
        }
    }

    /// What was written. NoMemory exactly where some of it was refused.
    pub fn finish(self) -> Result<Vec<u8>, NoMemory>
        ensures ok { IsOk result ↔ (self.whole ≡ true) }
        ensures text { IfOk result (λ v. v.items ≡ self.text) }
    {
        let Draft { text, whole } = self;
        if whole { Ok(text) } else { Err(NoMemory) }
    }
}

impl Writer for Draft {
    ghost use Rattle.std.specs.Prelude.{Some};
    ghost use Rattle.text_writer.specs.DraftState.{writer_state};

    ghost text = { λ draft. Some draft.text };

    ghost state = { λ draft. writer_state draft };

    fn put(&mut self, bytes: &[u8]) {
        if self.whole && self.text.extend_from_slice(bytes).is_err() {
            self.whole = false;
        }
    }
}
