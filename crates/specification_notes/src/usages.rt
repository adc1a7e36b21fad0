//! How often global names are used.

use rsml_base::{NoMemory, Text};
use rsml_names::{Globals, values_of};
use rsml_syntax::{Decl, Index, Mention, SendCase, Transition};
use source_survey::{Survey, index_of};
use std::alloc::Global;

/// How often a global name is used.
#[derive(Clone, Copy)]
pub struct Usage {
    /// At all.
    pub uses: usize,
    /// In the list of a receive.
    pub written: usize,
    /// As what a receive or a transition raises.
    pub raised: usize,
    /// As what a receive raises that writes inputs.
    pub telling: usize,
    /// As the trigger of a transition or of a case of a send.
    pub awaited: usize,
}

/// A name that is not used.
const UNUSED: Usage = Usage {
    uses: 0,
    written: 0,
    raised: 0,
    telling: 0,
    awaited: 0,
};

/// How a name is used.
#[derive(Clone, Copy)]
enum Manner {
    AtAll,
    Written,
    Raised,
    Telling,
    Awaited,
}

impl Usage {
    /// Once more.
    fn and(self, manner: Manner) -> Usage {
        let mut usage = self;
        match manner {
            Manner::AtAll => usage.uses = self.uses.saturating_add(1),
            Manner::Written => usage.written = self.written.saturating_add(1),
            Manner::Raised => usage.raised = self.raised.saturating_add(1),
            Manner::Telling => usage.telling = self.telling.saturating_add(1),
            Manner::Awaited => usage.awaited = self.awaited.saturating_add(1),
        }
        usage
    }
}

/// How often each global name is used.
#[derive(Drop)]
pub struct Usages<'s, 'a> {
    globals: &'s Globals<'a>,
    all: Vec<Usage>,
}

impl<'s, 'a> Usages<'s, 'a> {
    /// None so far.
    pub fn new(alloc: Global, globals: &'s Globals<'a>) -> Result<Usages<'s, 'a>, NoMemory> {
        Ok(Usages {
            globals,
            all: vec![in alloc; UNUSED; globals.count()]?,
        })
    }

    /// Counts the uses in a specification.
    pub fn count(&mut self, decls: &[Decl], survey: &Survey<'_>) {
        for used in survey.uses.as_slice() {
            self.add(used.name, Manner::AtAll);
            if let Some(mention) = used.mention {
                self.index(mention);
            }
        }
        // The steps of a path name no global names, but their indices may.
        for path in survey.paths.as_slice() {
            self.each_index(path.steps);
        }
        for decl in decls {
            self.declaration(decl);
        }
        for at in survey.transitions.as_slice() {
            self.transition(at.transition);
        }
    }

    /// How often a name is used.
    pub fn of(&self, name: &Text) -> Usage {
        match self.globals.place(name) {
            Some(place) => match self.all.get(place) {
                Some(usage) => *usage,
                None => UNUSED,
            },
            None => UNUSED,
        }
    }

    /// Whether a value that a declaration declares is used.
    pub fn has_used_value(&self, decl: &Decl) -> bool {
        for value in values_of(decl) {
            if self.of(value).uses > 0 {
                return true;
            }
        }
        false
    }

    fn add(&mut self, name: &Text, manner: Manner) {
        if let Some(place) = self.globals.place(name) {
            if place < self.all.len() {
                self.all[place] = self.all[place].and(manner);
            }
        }
    }

    /// A constant in an index.
    fn index(&mut self, mention: &Mention) {
        if let Some(Index::Name(name)) = index_of(mention) {
            self.add(name, Manner::AtAll);
        }
    }

    fn each_index(&mut self, steps: &[Mention]) {
        for step in steps {
            self.index(step);
        }
    }

    fn each_named(&mut self, mentions: &[Mention], manner: Manner) {
        for mention in mentions {
            self.add(&mention.name, manner);
        }
    }

    fn each_trigger(&mut self, cases: &[SendCase]) {
        for case in cases {
            self.add(&case.trigger.name, Manner::Awaited);
        }
    }

    fn declaration(&mut self, decl: &Decl) {
        match decl {
            Decl::Receive { inputs, raised, .. } => {
                self.each_named(inputs.as_slice(), Manner::Written);
                self.add(&raised.name, Manner::Raised);
                if !inputs.is_empty() {
                    self.add(&raised.name, Manner::Telling);
                }
            }
            Decl::Send { cases, .. } => self.each_trigger(cases.as_slice()),
            _ => {}
        }
    }

    fn transition(&mut self, transition: &Transition) {
        self.add(&transition.trigger.name, Manner::Awaited);
        self.each_named(transition.raises.as_slice(), Manner::Raised);
    }
}
