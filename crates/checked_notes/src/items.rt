//! Guards as they are written.

use rsml_base::Text;
use rsml_syntax::{Decl, Transition};

/// A guard as it is written; a case by its place among the others, a transition by its place in its component.
#[derive(Clone, Copy)]
pub enum Item<'a> {
    Macro { name: &'a Text },
    FunctionCase { function: &'a Text, place: usize },
    SendCase { send: &'a Text, trigger: &'a Text },
    Transition { source: &'a Text, place: usize },
}

impl<'a> Item<'a> {
    /// The name at which it is told.
    pub fn name(self) -> &'a Text {
        match self {
            Item::Macro { name } => name,
            Item::FunctionCase { function, .. } => function,
            Item::SendCase { trigger, .. } => trigger,
            Item::Transition { source, .. } => source,
        }
    }
}

/// How many guards a declaration has.
pub fn guard_count(decl: &Decl) -> usize {
    match decl {
        Decl::Macro { .. } => 1,
        Decl::Function { cases, .. } => cases.len(),
        Decl::Send { cases, .. } => cases.len(),
        _ => 0,
    }
}

/// The guard at a place of a declaration.
pub fn item_in(decl: &Decl, place: usize) -> Option<Item<'_>> {
    match decl {
        Decl::Macro { name, .. } => Some(Item::Macro { name }),
        Decl::Function { name, .. } => Some(Item::FunctionCase {
            function: name,
            place,
        }),
        Decl::Send { name, cases, .. } => Some(Item::SendCase {
            send: name,
            trigger: &cases.get(place)?.trigger.name,
        }),
        _ => None,
    }
}

/// The guard of the transition at a place of its component.
pub fn item_of(transition: &Transition, place: usize) -> Item<'_> {
    Item::Transition {
        source: &transition.source,
        place,
    }
}
