ghost use Rattle.std.specs.Prelude.{◌≡◌, ◌<◌, ◌≤◌, IfOk, Some, length, slice_get};
ghost use Rattle.rsml_meaning.specs.Words.{Instance};
ghost use Rattle.rsml_meaning.specs.Chains.{is_external};
ghost use Rattle.rsml_meaning.specs.Instances as instances;
ghost use Rattle.rsml_meaning.specs.Cells.{cells};
ghost use Rattle.rsml_meaning.specs.Runs.{first_world};
ghost use Rattle.rsml_meaning.specs.Worlds.{IsWorld};
ghost use Rattle.rsml_ground.specs.Grounded.{IsShort};
ghost use Rattle.macros.specs.Guards.{GuardBelow};
ghost use Rattle.ground_members.specs.declared.transitions.GroundTransition.{GroundTransition as Transition};
ghost use Rattle.ground_members.specs.declared.send_cases.GroundSendCase.{GroundSendCase as SendCase};
ghost use Rattle.elaborate.specs.Machine.{StandsFor};
ghost use Rattle.elaborate.specs.OnEvents as spec;

use crate::behaviour::Behaviour;
use crate::count::event_count;
use crate::instances::Instances;
use crate::receives::Receives;
use ground_groups::Groups;
use ground_members::{SharedSendCase, SharedTransition};
use interfaces::Interfaces;
use macros::{FastGuard, Macros};
use rsml_syntax::{Checked, NoMemory, World};
use state_arrays::Names;
use state_tree::Tree;
use std::alloc::Global;
use std::marker::Model;
use worlds::Worlds;

/// A checked specification over numbers: its states, components, events, cells, receives, sends, macros and functions,
/// transitions, cases of sends and groups are named by their places in the lists of the definitions. Only `elaborate`
/// and `initial` take memory.
pub struct Machine<'a> {
    instances: Instances<'a>,
    receives: Receives<'a>,
    behaviour: Behaviour<'a>,
}

impl Drop for Machine<'_> {
    fn drop(self) {
        let Self {
            instances: _,
            receives: _,
            behaviour: _,
        } = self;
    }
}

impl<'a> Model for Machine<'a> {
    ghost use Rattle.std.specs.Prelude.{◌≡◌};
    ghost use Rattle.std.specs.Coded.{codes};
    ghost use Rattle.rsml_syntax.specs.contracts.syntax.Body as bodies;
    ghost use Rattle.elaborate.specs.Machine.{GroundMachine};

    ghost Value = { GroundMachine };

    ghost coded = { Prim.hlevel (codes, bodies.the_row.coded) };

    ghost view = { λ m. m.behaviour };

    ghost invariant = { λ m. (m.instances ≡ m.behaviour.base.spec) × (m.receives ≡ m.behaviour.base.spec) };
}

/// The receives of a specification with so many events, and how it behaves.
fn parts<'a>(
    alloc: Global,
    checked: &'a Checked,
    numbers: &Instances<'_>,
    events: u32,
) -> Result<(Receives<'a>, Behaviour<'a>), NoMemory>
    requires numbers { numbers.now ≡ checked.now }
    requires short { IsShort checked.now }
    requires events { events ≡ length (instances.events checked.now) }
    ensures receives { IfOk result (λ p. p.0 ≡ checked.now) }
    ensures behaviour { IfOk result (λ p. p.1.base.spec ≡ checked.now) }
{
    let receives = Receives::new(alloc, checked, numbers.names(), events)?;
    let behaviour = Behaviour::new(alloc, checked, numbers, events)?;
    Ok((receives, behaviour))
}

/// The machine of a checked specification of at most 2,097,152 tokens.
pub fn elaborate<'a>(alloc: Global, checked: &'a Checked) -> Result<Machine<'a>, NoMemory>
    requires { IsShort checked.now }
    ensures { IfOk result (λ m. m.base.spec ≡ checked.now) }
{
    let events = event_count(alloc, checked)?;
    let instances = Instances::new(alloc, checked)?;
    let (receives, behaviour) = parts(alloc, checked, &instances, events)?;
    Ok(Machine {
        instances,
        receives,
        behaviour,
    })
}

impl<'a> Machine<'a> {
    /// The law of a machine, which a call of this function tells its caller: it stands for its specification.
    pub fn law(&self)
        ensures { StandsFor self.now }
    {
        let _ = self.behaviour.members().macros();
    }

    /// The tree of its states.
    pub fn tree(&self) -> &Tree<'a>
        ensures { result.now ≡ self.now.base.spec }
    {
        let _ = &self.behaviour;
        self.instances.worlds().tree()
    }

    /// Its worlds.
    pub fn worlds(&self) -> &Worlds<'a>
        ensures { result.now ≡ self.now.base.spec }
    {
        let _ = &self.behaviour;
        self.instances.worlds()
    }

    /// The numbers of its instances.
    pub fn names(&self) -> &Names<'a>
        ensures { result.now ≡ self.now.base.spec }
    {
        let _ = &self.behaviour;
        self.instances.names()
    }

    /// The first world: each component at its default child, each cell at its input's initial number. It takes memory.
    pub fn initial(&self, alloc: Global) -> Result<World, NoMemory>
        ensures first { IfOk result (λ w. w ≡ first_world self.now.base.spec) }
        ensures world { IfOk result (λ w. IsWorld self.now.base.spec w) }
    {
        self.worlds().first(alloc)
    }

    /// The name of the specification.
    pub fn name(&self) -> &[u8]
        ensures { result.now ≡ self.now.base.spec.name }
    {
        self.names().spec().name.bytes()
    }

    /// How many cells there are, previous cells counted.
    pub fn cells(&self) -> usize
        ensures { result ≡ length (cells self.now.base.spec) }
    {
        self.worlds().cells()
    }

    /// Its phrases, and its macro and function instances.
    pub fn macros(&self) -> &Macros<'a>
        ensures { result.now ≡ self.now.base }
    {
        self.behaviour.members().macros()
    }

    /// Its receives.
    pub fn interfaces(&self) -> &Interfaces<'a>
        ensures { result.now ≡ self.now.base.spec }
    {
        let _ = &self.behaviour;
        self.receives.interfaces()
    }

    /// Its groups.
    pub fn groups(&self) -> &Groups<'a>
        ensures { result.now ≡ self.now.base.spec }
    {
        self.behaviour.groups()
    }

    /// How many events there are, at most 1,024.
    pub fn events(&self) -> u32
        ensures count { result ≡ length (instances.events self.now.base.spec) }
        ensures few { result ≤ 1024 }
    {
        self.law();
        self.receives.events()
    }

    /// Whether an event is external: some receive instance raises it.
    pub fn external(&self, event: u32) -> bool
        requires { event < length (instances.events self.now.base.spec) }
        ensures { (e : Instance) → slice_get (instances.events self.now.base.spec) event ≡ Some e
            → result ≡ is_external self.now.base.spec e }
    {
        let _ = &self.behaviour;
        self.receives.external(event)
    }

    /// How many transitions there are.
    pub fn transitions(&self) -> u32
        ensures { result ≡ length self.now.transitions }
    {
        self.behaviour.members().count()
    }

    /// The transitions, each at the place of its number.
    pub fn all_transitions(&self) -> &[SharedTransition]
        ensures { result.now ≡ self.now.transitions }
    {
        self.behaviour.members().transitions()
    }

    /// A transition.
    pub fn transition(&self, number: u32) -> &SharedTransition
        requires { number < length self.now.transitions }
        ensures { slice_get self.now.transitions number ≡ Some result.now }
    {
        &self.behaviour.members().transitions()[number as usize]
    }

    /// The guard of a transition, prepared to be asked.
    pub fn guard(&self, transition: u32) -> &FastGuard
        requires { transition < length self.now.transitions }
        ensures is { (x : Transition) → slice_get self.now.transitions transition ≡ Some x
            → result.now ≡ x.guard }
        ensures below { GuardBelow (length self.now.base.phrases) result.now }
    {
        self.behaviour.members().guard(transition)
    }

    /// The numbers of the transitions on an event, rising.
    pub fn transitions_on(&self, event: u32) -> &[u32]
        requires { event < length (instances.events self.now.base.spec) }
        ensures { result.now ≡ spec.transitions_on self.now event }
    {
        self.behaviour.members().transitions_on(event)
    }

    /// How many cases of sends there are.
    pub fn send_cases(&self) -> u32
        ensures { result ≡ length self.now.send_cases }
    {
        self.behaviour.members().case_count()
    }

    /// The cases of sends, each at the place of its number.
    pub fn all_send_cases(&self) -> &[SharedSendCase]
        ensures { result.now ≡ self.now.send_cases }
    {
        self.behaviour.members().send_cases()
    }

    /// A case of a send.
    pub fn send_case(&self, number: u32) -> &SharedSendCase
        requires { number < length self.now.send_cases }
        ensures { slice_get self.now.send_cases number ≡ Some result.now }
    {
        &self.behaviour.members().send_cases()[number as usize]
    }

    /// The guard of a case of a send, prepared to be asked.
    pub fn case_guard(&self, case: u32) -> &FastGuard
        requires { case < length self.now.send_cases }
        ensures is { (x : SendCase) → slice_get self.now.send_cases case ≡ Some x
            → result.now ≡ x.guard }
        ensures below { GuardBelow (length self.now.base.phrases) result.now }
    {
        self.behaviour.members().case_guard(case)
    }

    /// The numbers of the cases of sends on an event, rising.
    pub fn cases_on(&self, event: u32) -> &[u32]
        requires { event < length (instances.events self.now.base.spec) }
        ensures { result.now ≡ spec.cases_on self.now event }
    {
        self.behaviour.members().cases_on(event)
    }
}
