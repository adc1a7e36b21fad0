use crate::drawing::tell_member;
use crate::finding::Finding;
use crate::heads::tell_head;
use crate::mending::tell_mends;
use crate::shown::{first_two, next, shown_count};
use crate::truths::{filled, is_world};
use finding_texts::Verdict;
use guard_encode::Encoder;
use rsml_base::NoMemory;
use rsml_syntax::World;
use source_notes::{Notes, Piece};
use table_notes::{Reads, read_group, tell_world};
use written_members::Scene;

/// How many members of a group are drawn at most.
const MOST_DRAWN: usize = 8;

/// Tells what the condition and the members of a group read of the world.
fn tell_read(
    notes: &mut Notes<'_>,
    scene: &Scene<'_, '_>,
    finding: Finding<'_>,
) -> Result<(), NoMemory> {
    let mut reads = Reads::new(notes.alloc(), scene.machine)?;
    read_group(&mut reads, scene.machine, finding.group);
    tell_world(notes, scene, "where", &reads, finding.world)
}

/// Tells the first members that are shown.
fn tell_first(
    notes: &mut Notes<'_>,
    scene: &Scene<'_, '_>,
    finding: Finding<'_>,
) -> Result<(), NoMemory> {
    let mut last = None;
    for _ in 0..MOST_DRAWN {
        let Some(ranked) = next(scene.machine, finding, last) else {
            break;
        };
        tell_member(notes, scene, ranked.member, finding.truths)?;
        last = Some(ranked);
    }
    Ok(())
}

/// Tells the first members that are shown, of so many, and how many more there are.
fn tell_members(
    notes: &mut Notes<'_>,
    scene: &Scene<'_, '_>,
    finding: Finding<'_>,
    count: usize,
) -> Result<(), NoMemory> {
    tell_first(notes, scene, finding)?;
    if count > MOST_DRAWN {
        let rest = count.saturating_sub(MOST_DRAWN);
        notes.say_one("and {} more", Piece::Count(rest));
    }
    Ok(())
}

/// Tells rows that mend a group, where two members are enabled; where that would take too long, that they are not told.
fn tell_mended(
    notes: &mut Notes<'_>,
    scene: &Scene<'_, '_>,
    encoder: &mut Encoder<'_, '_>,
    finding: Finding<'_>,
) -> Result<(), NoMemory> {
    let Some((one, two)) = first_two(scene.machine, finding) else {
        return Ok(());
    };
    let told = tell_mends(notes, scene, encoder, finding, one, two);
    if told.is_err() && encoder.is_spent() {
        notes.say("whether a row would mend this is not told: it would take too long");
        return Ok(());
    }
    told
}

/// Tells what is found of a group.
fn tell_finding(
    notes: &mut Notes<'_>,
    scene: &Scene<'_, '_>,
    encoder: &mut Encoder<'_, '_>,
    finding: Finding<'_>,
) -> Result<(), NoMemory> {
    let count = shown_count(scene.machine, finding);
    tell_head(notes, scene, finding, count);
    tell_read(notes, scene, finding)?;
    tell_members(notes, scene, finding, count)?;
    if finding.is_double && count == 2 {
        tell_mended(notes, scene, encoder, finding)?;
    }
    Ok(())
}

/// The world in which a group is not sound.
fn world_of(verdict: &Verdict) -> Option<&World> {
    match verdict {
        Verdict::Sound => None,
        Verdict::Missing(world) => Some(world),
        Verdict::Double(world) => Some(world),
    }
}

/// Tells what is found of a group by its verdict, if the world of this is one of the specification.
fn tell_verdict(
    notes: &mut Notes<'_>,
    scene: &Scene<'_, '_>,
    encoder: &mut Encoder<'_, '_>,
    verdicts: &[Verdict],
    group: u32,
    verdict: &Verdict,
) -> Result<(), NoMemory> {
    let Some(world) = world_of(verdict) else {
        return Ok(());
    };
    if !is_world(scene.machine, world) {
        return Ok(());
    }
    let truths = filled(notes.alloc(), scene.machine, world)?;
    let finding = Finding {
        group,
        is_double: matches!(verdict, Verdict::Double(_)),
        world,
        truths: &truths,
        verdicts,
    };
    tell_finding(notes, scene, encoder, finding)
}

/// Tells what is found of each group that is not sound, by the verdicts on all groups in order.
pub fn tell_findings(
    notes: &mut Notes<'_>,
    scene: &Scene<'_, '_>,
    encoder: &mut Encoder<'_, '_>,
    verdicts: &[Verdict],
) -> Result<(), NoMemory> {
    let mut group: u32 = 0;
    for verdict in verdicts {
        tell_verdict(notes, scene, encoder, verdicts, group, verdict)?;
        group = group.saturating_add(1);
    }
    Ok(())
}
