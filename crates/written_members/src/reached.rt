//! Events to which chains lead.

use elaborate::Machine;
use rsml_base::NoMemory;
use std::alloc::Global;

/// An event, and the round in which it is raised, from 0. The event with which chains begin is in round 0.
#[derive(Clone, Copy)]
pub struct Raised {
    pub round: u32,
    pub event: u32,
}

/// A transition on one event that raises another, and how many steps of the chain stand before it.
#[derive(Clone, Copy)]
pub struct Step {
    pub on: Raised,
    pub transition: u32,
    pub to: Raised,
    pub before: u32,
}

/// The step that first leads to an event, and to what the next one leads.
#[derive(Clone, Copy)]
struct Entry {
    step: Option<Step>,
    next: Option<Raised>,
}

/// An event to which no step leads.
const UNREACHED: Entry = Entry {
    step: None,
    next: None,
};

/// To what chains from an event lead, each by the last step of a shortest chain. Events are told apart by their rounds, of
/// which the last stands for all later ones too: with one round for each event alone.
pub struct Reached {
    entries: Vec<Entry>,
    events: u32,
    rounds: u32,
    last: Raised,
}

impl Drop for Reached {
    fn drop(self) {
        let Self {
            entries: _,
            events: _,
            rounds: _,
            last: _,
        } = self;
    }
}

/// The transitions on an event.
pub fn transitions_on<'m>(machine: &'m Machine<'_>, event: u32) -> &'m [u32] {
    if event < machine.events() {
        machine.transitions_on(event)
    } else {
        &[]
    }
}

/// The events that a transition raises.
fn raised_by<'m>(machine: &'m Machine<'_>, transition: u32) -> &'m [u32] {
    match machine.all_transitions().get(transition as usize) {
        Some(transition) => transition.raises(),
        None => &[],
    }
}

impl Reached {
    /// All to which chains from an event lead, in so many rounds.
    pub fn from_event(
        alloc: Global,
        machine: &Machine<'_>,
        event: u32,
        rounds: u32,
    ) -> Result<Reached, NoMemory> {
        let events = machine.events();
        let size = (events as usize).saturating_mul(rounds as usize);
        let mut reached = Reached {
            entries: Vec::from_elem(alloc, UNREACHED, size)?,
            events,
            rounds,
            last: Raised { round: 0, event },
        };
        reached.search(machine);
        Ok(reached)
    }

    /// The place of an event among the entries.
    fn place(&self, raised: Raised) -> usize {
        (self.events as usize)
            .saturating_mul(raised.round as usize)
            .saturating_add(raised.event as usize)
    }

    fn entry(&self, raised: Raised) -> Entry {
        match self.entries.get(self.place(raised)) {
            Some(entry) => *entry,
            None => UNREACHED,
        }
    }

    fn set(&mut self, raised: Raised, entry: Entry) {
        let place = self.place(raised);
        if place < self.entries.len() {
            self.entries[place] = entry;
        }
    }

    /// Adds that to which a step leads, where no other does.
    fn add(&mut self, step: Step) {
        let entry = self.entry(step.to);
        if entry.step.is_some() {
            return;
        }
        self.set(
            step.to,
            Entry {
                step: Some(step),
                next: entry.next,
            },
        );
        let last = self.entry(self.last);
        self.set(
            self.last,
            Entry {
                step: last.step,
                next: Some(step.to),
            },
        );
        self.last = step.to;
    }

    /// Adds the events that a transition raises, behind so many steps.
    fn add_raised(&mut self, machine: &Machine<'_>, on: Raised, transition: u32, before: u32) {
        let round = on
            .round
            .saturating_add(1)
            .min(self.rounds.saturating_sub(1));
        for event in raised_by(machine, transition) {
            self.add(Step {
                on,
                transition,
                to: Raised {
                    round,
                    event: *event,
                },
                before,
            });
        }
    }

    /// Adds the events that the transitions on an event raise.
    fn add_from(&mut self, machine: &Machine<'_>, on: Raised) {
        let before = self.steps_to(on);
        for transition in transitions_on(machine, on.event) {
            self.add_raised(machine, on, *transition, before);
        }
    }

    /// Adds what the events raise from the last one on, up to the end, or to where that one is reached itself.
    fn search(&mut self, machine: &Machine<'_>) {
        let start = self.last;
        let mut at = start;
        for _ in 0..self.entries.len() {
            self.add_from(machine, at);
            if self.step_to(start).is_some() {
                return;
            }
            match self.entry(at).next {
                Some(next) => at = next,
                None => return,
            }
        }
    }

    /// The step that leads to an event.
    pub fn step_to(&self, raised: Raised) -> Option<Step> {
        self.entry(raised).step
    }

    /// How many steps lead to an event.
    pub fn steps_to(&self, raised: Raised) -> u32 {
        match self.step_to(raised) {
            Some(step) => step.before.saturating_add(1),
            None => 0,
        }
    }

    /// The step of the chain to an event that has so many before it.
    pub fn step_behind(&self, raised: Raised, before: u32) -> Option<Step> {
        let mut step = self.step_to(raised)?;
        for _ in before..step.before {
            step = self.step_to(step.on)?;
        }
        Some(step)
    }
}
