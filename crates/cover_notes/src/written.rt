use crate::columns::Columns;
use coverage::{Counts, Tally};
use elaborate::Machine;
use ground_groups::Member;
use rsml_base::NoMemory;
use std::alloc::Global;
use table_notes::rows_of;
use written_members::{Scene, guard_of, written_at};

/// Where something begins in the text, and its number: of transitions and cases of sends, those of cases come behind those of transitions.
pub type Instance = (usize, u32);

/// The transition or the case of a send of a number.
fn member_of(machine: &Machine<'_>, number: u32) -> Member {
    if number < machine.transitions() {
        Member::Transition(number)
    } else {
        Member::SendCase(number.saturating_sub(machine.transitions()))
    }
}

/// The transitions and cases of sends of a machine, in the order of the text.
pub fn instances(alloc: Global, scene: &Scene<'_, '_>) -> Result<Vec<Instance>, NoMemory> {
    let machine = scene.machine;
    let count = machine.transitions().saturating_add(machine.send_cases());
    let mut instances = Vec::new(alloc);
    for number in 0..count {
        if let Some(written) = written_at(scene, member_of(machine, number)) {
            instances.push((written.at, number))?;
        }
    }
    instances.sort_unstable();
    Ok(instances)
}

/// How many stand at the front that begin at this offset.
fn count_at(instances: &[Instance], at: usize) -> usize {
    let mut count: usize = 0;
    for instance in instances {
        if instance.0 != at {
            break;
        }
        count = count.saturating_add(1);
    }
    count
}

/// The instances of one that is written, if they begin at this place.
pub fn alike_from(instances: &[Instance], place: usize) -> Option<&[Instance]> {
    let rest = instances.get(place..)?;
    let at = rest.first()?.0;
    if place > 0 && instances.get(place.saturating_sub(1))?.0 == at {
        return None;
    }
    rest.get(..count_at(rest, at))
}

/// What an instance is one by: the element of an array that it is of, or the member of a bus from which it comes.
#[derive(Clone, Copy, PartialEq, Eq)]
pub enum By {
    Element,
    Source,
}

/// A transition or a case of a send as it is written: its instances, and what was counted of them.
#[derive(Clone, Copy)]
pub struct Written<'w, 'm, 'a, 'c, 'd> {
    pub machine: &'m Machine<'a>,
    pub counts: &'w Counts<'c, 'd>,
    pub instances: &'w [Instance],
}

impl<'w, 'm, 'a, 'c, 'd> Written<'w, 'm, 'a, 'c, 'd> {
    /// The instance at a place.
    pub fn member(self, place: usize) -> Option<Member> {
        Some(member_of(self.machine, self.instances.get(place)?.1))
    }

    /// The source of the instance at a place, of a transition.
    fn source(self, place: usize) -> Option<u32> {
        let Member::Transition(number) = self.member(place)? else {
            return None;
        };
        let transition = self.machine.all_transitions().get(number as usize)?;
        Some(transition.source())
    }

    /// The column at a place of the tables of all instances.
    pub fn columns(self, alloc: Global, column: usize) -> Result<Vec<Columns<'m>>, NoMemory> {
        let mut all = Vec::new(alloc);
        for place in 0..self.instances.len() {
            if let Some(member) = self.member(place)
                && let Some(guard) = guard_of(self.machine, member)
            {
                all.push(Columns::one(rows_of(guard), self.source(place), column))?;
            }
        }
        Ok(all)
    }

    /// What was counted of the instance at a place.
    pub fn tally(self, place: usize) -> Option<&'w Tally> {
        match self.member(place)? {
            Member::Transition(number) => self.counts.transition(number),
            Member::SendCase(number) => self.counts.send_case(number),
            Member::FunctionCase { .. } => None,
        }
    }

    /// Whether the instance at a place reacted, or where a column is told, whether it was true then.
    fn is_tried(self, place: usize, column: Option<usize>) -> bool {
        let Some(tally) = self.tally(place) else {
            return false;
        };
        match column {
            Some(column) => match tally.columns().get(column) {
                Some(count) => *count > 0,
                None => false,
            },
            None => tally.count() > 0,
        }
    }

    /// For how many instances this is so.
    pub fn tried(self, column: Option<usize>) -> usize {
        let mut count: usize = 0;
        for place in 0..self.instances.len() {
            count = count.saturating_add(usize::from(self.is_tried(place, column)));
        }
        count
    }

    /// The first instance that reacted, or else the first one.
    pub fn first(self) -> Option<Member> {
        for place in 0..self.instances.len() {
            if self.is_tried(place, None) {
                return self.member(place);
            }
        }
        self.member(0)
    }

    /// A number that is the same for the instances of one element, or from one member of a bus.
    fn key(self, place: usize, by: By) -> Option<u32> {
        let Some(source) = self.source(place) else {
            return match self.member(place)? {
                Member::SendCase(number) if by == By::Element => {
                    Some(self.machine.all_send_cases().get(number as usize)?.send())
                }
                _ => None,
            };
        };
        let component = self.machine.tree().states().parent(source)?;
        Some(match by {
            By::Element => component,
            By::Source => source.saturating_sub(component),
        })
    }

    /// Whether the instance at a place is the first of its element, or of its member of a bus, and none of these reacted.
    pub fn is_first_untried(self, place: usize, by: By) -> bool {
        let key = self.key(place, by);
        for other in 0..self.instances.len() {
            if self.key(other, by) == key && (other < place || self.is_tried(other, None)) {
                return false;
            }
        }
        key.is_some()
    }
}
