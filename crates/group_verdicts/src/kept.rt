//! What is kept of transitions.
ghost use Rattle.std.specs.Prelude.{◌≡◌, IfOk, None, replicate};
ghost use Rattle.group_verdicts.specs.Kept.{IsKept, IsThere, known_of};

use bdd_core::Ref;
use ground_groups::Member;
use rsml_base::NoMemory;
use std::alloc::Global;

/// A function for each transition, where it is known.
#[derive(Drop)]
pub(crate) struct Kept {
    functions: Vec<Option<Ref>>,
}

impl Kept {
    /// A place for each of so many transitions, of which nothing is known.
    pub(crate) fn new(alloc: Global, transitions: usize) -> Result<Kept, NoMemory>
        ensures { IfOk result (λ kept. kept.functions.items ≡ replicate transitions None) }
    {
        let functions = vec![in alloc; None; transitions]?;
        Ok(Kept { functions })
    }

    /// What is known of a member. Of cases nothing is kept.
    pub(crate) fn get(&self, member: Member) -> Option<Ref>
        ensures { result ≡ known_of self.now member }
    {
        match member {
            Member::Transition(number) => match self.functions.get(number as usize) {
                Some(function) => *function,
                None => None,
            },
            Member::SendCase(_) | Member::FunctionCase { .. } => None,
        }
    }

    /// Keeps what is known of a member, if it is a transition.
    pub(crate) fn keep(&mut self, member: Member, function: Ref)
        requires { IsThere self.old member }
        ensures { IsKept self.old self.new member function }
    {
        if let Member::Transition(number) = member {
            self.functions[number as usize] = Some(function);
        }
    }
}
