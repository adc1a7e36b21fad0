//! Events that clash.

use crate::meetings::{Meeting, send_of, where_met};
use crate::reached::{Raised, Reached};
use crate::scene::Scene;
use crate::steps::{put_event, put_place, put_placed, say_all, tell_steps};
use event_chains::Clash;
use ground_groups::Member;
use rsml_base::NoMemory;
use source_notes::Notes;
use text_writer::{Draft, Writer, put_number};

/// What a clash is, and how it is mended.
const LINES: [&str; 3] = [
    "both may be present in one round, since guards play no part in chains, and both would be reacted to here",
    "to mend a clash, raise one event in place of both, and tell apart in guards on it what is to be done",
    "an event that several transitions raise is present once, and guards on it see the states they lead to",
];

/// The last round of which chains are told.
const LAST_ROUND: u32 = 64;

/// Tells the chain to an event.
fn tell_chain(notes: &mut Notes<'_>, scene: &Scene<'_, '_>, reached: &Reached, raised: Raised) {
    let mut line = notes.line("");
    put_event(&mut line, scene, "  a chain to ", raised.event);
    notes.keep(line);
    tell_steps(notes, scene, reached, raised);
}

/// Tells the chains to the events of a clash.
fn tell_both(notes: &mut Notes<'_>, scene: &Scene<'_, '_>, reached: &Reached, clash: &Clash) {
    let round = clash.round.saturating_sub(1);
    let one = Raised {
        round,
        event: clash.one,
    };
    let two = Raised {
        round,
        event: clash.two,
    };
    tell_chain(notes, scene, reached, one);
    tell_chain(notes, scene, reached, two);
}

/// Tells a chain to each of the events of a clash.
fn tell_chains(
    notes: &mut Notes<'_>,
    scene: &Scene<'_, '_>,
    clash: &Clash,
) -> Result<(), NoMemory> {
    if clash.round > LAST_ROUND {
        return Ok(());
    }
    let reached = Reached::from_event(notes.alloc(), scene.machine, clash.start, clash.round)?;
    tell_both(notes, scene, &reached, clash);
    Ok(())
}

/// Puts the send of a member, if it is a case of one.
fn put_send(line: &mut Draft, scene: &Scene<'_, '_>, member: Member) {
    if let Member::SendCase(case) = member
        && let Some(send) = send_of(scene.machine, case)
    {
        line.put(b" of send ");
        scene.texts.put_send(line, send);
    }
}

/// Tells a member on an event.
fn tell_met(notes: &mut Notes<'_>, scene: &Scene<'_, '_>, member: Member, event: u32) {
    let mut line = notes.line("");
    put_placed(&mut line, scene, member);
    put_send(&mut line, scene, member);
    put_event(&mut line, scene, " on ", event);
    notes.keep(line);
}

/// Tells that the events of a clash meet in this member.
fn tell_head(notes: &mut Notes<'_>, scene: &Scene<'_, '_>, clash: &Clash, member: Member) {
    let mut line = notes.line("");
    put_place(&mut line, scene, member);
    put_event(&mut line, scene, "error: ", clash.one);
    put_event(&mut line, scene, " and ", clash.two);
    line.put(b" clash in round ");
    put_number(&mut line, u64::from(clash.round));
    put_event(&mut line, scene, " after ", clash.start);
    notes.keep(line);
}

/// Tells where the events of a clash meet.
fn tell_meeting(notes: &mut Notes<'_>, scene: &Scene<'_, '_>, clash: &Clash, meeting: Meeting) {
    tell_head(notes, scene, clash, meeting.one);
    tell_met(notes, scene, meeting.one, clash.one);
    tell_met(notes, scene, meeting.two, clash.two);
}

/// Tells a clash.
fn tell_clash(notes: &mut Notes<'_>, scene: &Scene<'_, '_>, clash: &Clash) -> Result<(), NoMemory> {
    let Some(meeting) = where_met(scene.machine, clash.one, clash.two) else {
        return Ok(());
    };
    tell_meeting(notes, scene, clash, meeting);
    tell_chains(notes, scene, clash)
}

/// Tells clashes, and behind the last one what a clash is and how it is mended.
pub fn tell_clashes(
    notes: &mut Notes<'_>,
    scene: &Scene<'_, '_>,
    clashes: &[Clash],
) -> Result<(), NoMemory> {
    if clashes.is_empty() {
        return Ok(());
    }
    for clash in clashes {
        tell_clash(notes, scene, clash)?;
    }
    say_all(notes, &LINES);
    Ok(())
}
