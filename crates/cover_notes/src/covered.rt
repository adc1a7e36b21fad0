//! What the run of an event file does not cover.
use crate::parts::{Heading, Part};
use crate::telling::{put_of, tell_untried, tell_untrue_column, tell_untrue_part};
use crate::written::{Written, alike_from, instances};
use coverage::Counts;
use guard_encode::Encoder;
use level_order::plan_of;
use rsml_base::NoMemory;
use source_notes::Notes;
use table_notes::NODES;
use text_writer::{Draft, Writer, put_number};
use written_members::Scene;

/// How many notes are told at most.
const MOST_NOTES: usize = 50;

/// How many of so many are covered: as they are written, and in all their instances.
#[derive(Clone, Copy)]
struct Sum {
    written: usize,
    of_written: usize,
    instances: usize,
    of_instances: usize,
}

impl Sum {
    const NONE: Sum = Sum {
        written: 0,
        of_written: 0,
        instances: 0,
        of_instances: 0,
    };

    /// One more that is written, of whose instances so many are covered.
    fn add(&mut self, covered: usize, instances: usize) {
        self.written = self.written.saturating_add(usize::from(covered > 0));
        self.of_written = self.of_written.saturating_add(1);
        self.instances = self.instances.saturating_add(covered);
        self.of_instances = self.of_instances.saturating_add(instances);
    }
}

/// How many notes there are so far, with those that are left out, and what is covered so far.
#[derive(Drop)]
struct Told {
    notes: usize,
    members: Sum,
    columns: Sum,
    parts: Sum,
}

impl Told {
    /// Counts one note more. Whether it is to be told.
    fn is_next(&mut self) -> bool {
        self.notes = self.notes.saturating_add(1);
        self.notes <= MOST_NOTES
    }
}

/// Tells what is not covered of a transition or a case of a send as it is written.
fn tell_written(
    notes: &mut Notes<'_>,
    scene: &Scene<'_, '_>,
    encoder: &mut Encoder<'_, '_>,
    written: Written<'_, '_, '_, '_, '_>,
    told: &mut Told,
) -> Result<(), NoMemory> {
    let all = written.instances.len();
    let tried = written.tried(None);
    told.members.add(tried, all);
    if tried < all && told.is_next() {
        tell_untried(notes, scene, written, tried);
    }
    let columns = match written.tally(0) {
        Some(tally) => tally.columns().len(),
        None => 0,
    };
    for column in 0..columns {
        let shown = written.tried(Some(column));
        told.columns.add(shown, all);
        if tried > 0 && shown == 0 && told.is_next() {
            tell_untrue_column(notes, scene, encoder, written, column)?;
        }
    }
    Ok(())
}

/// Tells whether a column of a macro, or a case of a function, was never true where it was asked for, if it was.
fn tell_part(
    notes: &mut Notes<'_>,
    scene: &Scene<'_, '_>,
    encoder: &mut Encoder<'_, '_>,
    heading: Heading<'_, '_>,
    parts: &[Part<'_>],
    told: &mut Told,
) -> Result<(), NoMemory> {
    let mut instances = Vec::new(notes.alloc());
    let mut shown: usize = 0;
    for part in parts {
        if part.was_asked && heading.has(*part) {
            instances.push(part.columns)?;
            shown = shown.saturating_add(usize::from(part.was_true));
        }
    }
    if !instances.is_empty() {
        told.parts.add(shown, instances.len());
        if shown == 0 && told.is_next() {
            tell_untrue_part(notes, scene, encoder, heading, instances.as_slice())?;
        }
    }
    Ok(())
}

/// Tells a sum.
fn tell_sum(notes: &mut Notes<'_>, sum: Sum, words: &[u8]) {
    let mut line = notes.line("");
    put_of(&mut line, sum.written, sum.of_written);
    line.put(words);
    if sum.of_written < sum.of_instances {
        line.put(b" as they are written, ");
        put_of(&mut line, sum.instances, sum.of_instances);
        line.put(b" in all instances");
    }
    notes.keep(line);
}

/// Tells the sums, behind how many notes are left out.
fn tell_sums(notes: &mut Notes<'_>, told: &Told) {
    if told.notes > MOST_NOTES {
        let mut line = notes.line("and ");
        put_number(&mut line, told.notes.saturating_sub(MOST_NOTES) as u64);
        line.put(b" more");
        notes.keep(line);
    }
    tell_sum(
        notes,
        told.members,
        b" transitions and cases of sends were tried",
    );
    tell_sum(notes, told.columns, b" columns were true");
    if told.parts.of_written > 0 {
        tell_sum(
            notes,
            told.parts,
            b" columns of macros and cases of functions that were asked for were true",
        );
    }
}

/// Tells what is not covered of transitions and cases of sends, and then of macros and functions, each in the order of the text; and how
/// much is.
pub fn tell_covered(
    notes: &mut Notes<'_>,
    scene: &Scene<'_, '_>,
    counts: &Counts<'_, '_>,
    parts: &[Part<'_>],
) -> Result<(), NoMemory> {
    let plan = plan_of(notes.alloc(), scene.machine)?;
    let mut encoder = Encoder::with(notes.alloc(), scene.machine, plan, 0)?;
    encoder.limit(NODES);
    let all = instances(notes.alloc(), scene)?;
    let mut told = Told {
        notes: 0,
        members: Sum::NONE,
        columns: Sum::NONE,
        parts: Sum::NONE,
    };
    for place in 0..all.len() {
        if let Some(instances) = alike_from(all.as_slice(), place) {
            let written = Written {
                machine: scene.machine,
                counts,
                instances,
            };
            tell_written(notes, scene, &mut encoder, written, &mut told)?;
        }
    }
    for part in parts {
        if let Some(heading) = part.heading(scene) {
            tell_part(notes, scene, &mut encoder, heading, parts, &mut told)?;
        }
    }
    tell_sums(notes, &told);
    Ok(())
}
