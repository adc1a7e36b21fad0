//! What is read together.
use crate::neighbours::Neighbours;
use crate::parts::Parts;
use crate::reading::reads;
use crate::reads::Reads;
use crate::sequences::Sequences;
use crate::sets::{MOST_PARTS, PartSet};
use elaborate::Machine;
use ground_groups::GroupKind;
use rsml_base::NoMemory;
use std::alloc::Global;

/// How many parts a support has at most that tells of neighbours.
const SMALL: usize = 16;

/// Supports: parts that are read together, in the order in which they are read. Those of more than 64 parts are left out.
#[derive(Drop)]
pub struct Supports {
    /// At each place the supports of so many parts, one behind another.
    by_size: Vec<Vec<u32>>,
}

impl Supports {
    /// The supports of a machine: of its transitions, cases of sends, phrases and definitions, and groups of states.
    pub fn new(
        alloc: Global,
        machine: &Machine<'_>,
        parts: &Parts<'_>,
    ) -> Result<Supports, NoMemory> {
        let mut supports = Supports::empty(alloc)?;
        supports.add_machine(alloc, machine, parts)?;
        supports.without_shared(alloc, parts.count())
    }

    /// The supports of two machines with the same parts: those of the first before those of the second.
    pub fn of_two(
        alloc: Global,
        one: &Machine<'_>,
        parts: &Parts<'_>,
        two: &Machine<'_>,
        others: &Parts<'_>,
    ) -> Result<Supports, NoMemory> {
        let mut supports = Supports::empty(alloc)?;
        supports.add_machine(alloc, one, parts)?;
        supports.add_machine(alloc, two, others)?;
        supports.without_shared(alloc, parts.count())
    }

    /// Adds the supports of a machine.
    fn add_machine(
        &mut self,
        alloc: Global,
        machine: &Machine<'_>,
        parts: &Parts<'_>,
    ) -> Result<(), NoMemory> {
        let mut set = PartSet::new(alloc, parts.count())?;
        let reads = reads(alloc, machine, parts, &mut set)?;
        self.add_all(machine, &reads, &mut set)
    }

    /// Adds the supports of transitions, cases of sends, phrases and definitions, and groups of states.
    fn add_all(
        &mut self,
        machine: &Machine<'_>,
        reads: &Reads,
        set: &mut PartSet,
    ) -> Result<(), NoMemory> {
        self.add_transitions(machine, reads, set)?;
        self.add_send_cases(machine, reads, set)?;
        self.add_lists(reads)?;
        self.add_groups(machine, reads, set)
    }

    /// The same without the parts that very many others are read with: such a part would draw together what else stands apart. It
    /// becomes a support of its own.
    fn without_shared(&self, alloc: Global, count: u32) -> Result<Supports, NoMemory> {
        let neighbours = self.neighbours(alloc, count)?;
        let mut supports = Supports::empty(alloc)?;
        supports.add_each_kept(alloc, self, &neighbours)?;
        Ok(supports)
    }

    /// Adds what is not shared of other supports, and each shared part by itself.
    fn add_each_kept(
        &mut self,
        alloc: Global,
        others: &Supports,
        neighbours: &Neighbours,
    ) -> Result<(), NoMemory> {
        let mut kept = Vec::new(alloc);
        for (size, listed) in others.by_size.iter().enumerate() {
            if size > 0 {
                for support in listed.as_slice().chunks(size) {
                    self.add_kept(neighbours, support, &mut kept)?;
                }
            }
        }
        Ok(())
    }

    /// The parts that are read with each, in small supports.
    fn neighbours(&self, alloc: Global, count: u32) -> Result<Neighbours, NoMemory> {
        let mut neighbours = Neighbours::new(alloc, count)?;
        for (size, listed) in self.by_size.iter().enumerate() {
            if size > 0 && size <= SMALL {
                for support in listed.as_slice().chunks(size) {
                    neighbours.add(support)?;
                }
            }
        }
        Ok(neighbours)
    }

    /// Adds what is not shared of a support, which is put together in `kept`, and each shared part by itself.
    fn add_kept(
        &mut self,
        neighbours: &Neighbours,
        support: &[u32],
        kept: &mut Vec<u32>,
    ) -> Result<(), NoMemory> {
        kept.clear();
        for part in support {
            if neighbours.are_many(*part) {
                self.add(&[*part])?;
            } else {
                kept.push(*part)?;
            }
        }
        self.add(kept.as_slice())
    }

    /// No supports.
    fn empty(alloc: Global) -> Result<Supports, NoMemory> {
        let mut by_size = Vec::new(alloc);
        for _size in 0..MOST_PARTS + 1 {
            by_size.push(Vec::new(alloc))?;
        }
        Ok(Supports { by_size })
    }

    /// Joins what stands in each support: the smallest first, and those of one size in the order in which they were added.
    pub fn join(&self, sequences: &mut Sequences) {
        for (size, supports) in self.by_size.iter().enumerate() {
            if size > 0 {
                for support in supports.as_slice().chunks(size) {
                    sequences.join(support);
                }
            }
        }
    }

    /// Adds a support, unless it has too many parts.
    fn add(&mut self, support: &[u32]) -> Result<(), NoMemory> {
        let size = support.len();
        if size < self.by_size.len() {
            self.by_size[size].extend_from_slice(support)?;
        }
        Ok(())
    }

    /// Adds for each transition the components around its source, and what its guard reads.
    fn add_transitions(
        &mut self,
        machine: &Machine<'_>,
        reads: &Reads,
        set: &mut PartSet,
    ) -> Result<(), NoMemory> {
        for transition in machine.all_transitions() {
            set.clear();
            set.add_all(reads.line(transition.source()))?;
            reads.put_guard(transition.guard(), set)?;
            self.add(set.as_slice())?;
        }
        Ok(())
    }

    /// Adds what the guard of each case of a send reads.
    fn add_send_cases(
        &mut self,
        machine: &Machine<'_>,
        reads: &Reads,
        set: &mut PartSet,
    ) -> Result<(), NoMemory> {
        for case in machine.all_send_cases() {
            set.clear();
            reads.put_guard(case.guard(), set)?;
            self.add(set.as_slice())?;
        }
        Ok(())
    }

    /// Adds what each phrase and each definition reads.
    fn add_lists(&mut self, reads: &Reads) -> Result<(), NoMemory> {
        for number in 0..reads.lists().len() {
            self.add(reads.lists().get(number))?;
        }
        Ok(())
    }

    /// Adds for each group of a state the components around the state, and around those below that react too.
    fn add_groups(
        &mut self,
        machine: &Machine<'_>,
        reads: &Reads,
        set: &mut PartSet,
    ) -> Result<(), NoMemory> {
        let groups = machine.groups();
        for group in 0..groups.count() {
            if let GroupKind::State { state, .. } = groups.kind(group) {
                set.clear();
                set.add_all(reads.line(state))?;
                for below in groups.below(group) {
                    set.add_all(reads.line(*below))?;
                }
                self.add(set.as_slice())?;
            }
        }
        Ok(())
    }
}
