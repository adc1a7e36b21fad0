//! Events that loop.

use crate::reached::{Raised, Reached, Step};
use crate::scene::Scene;
use crate::steps::{put_event, put_place, say_all, tell_steps};
use ground_groups::Member;
use rsml_base::NoMemory;
use source_notes::Notes;
use text_writer::{Writer, put_number};

/// What a loop is made of, and how it is mended.
const LINES: [&str; 3] = [
    "guards play no part in loops, and there may be more than one chain round",
    "to mend a loop, leave out one of its raises, with the transition where that does nothing else,",
    "or raise there a new event from which no chain leads back",
];

/// Tells that a chain of so many steps, which begins with this one, raises its event again.
fn tell_head(notes: &mut Notes<'_>, scene: &Scene<'_, '_>, first: Step, count: u32) {
    let mut line = notes.line("");
    put_place(&mut line, scene, Member::Transition(first.transition));
    put_event(&mut line, scene, "error: ", first.on.event);
    line.put(b" is raised again by a chain of ");
    put_number(&mut line, u64::from(count));
    line.put(if count == 1 {
        b" transition"
    } else {
        b" transitions"
    });
    notes.keep(line);
}

/// Tells the chain to an event, which begins with it.
fn tell_ring(notes: &mut Notes<'_>, scene: &Scene<'_, '_>, reached: &Reached, raised: Raised) {
    if let Some(first) = reached.step_behind(raised, 0) {
        tell_head(notes, scene, first, reached.steps_to(raised));
        tell_steps(notes, scene, reached, raised);
    }
}

/// Tells a shortest chain from an event that loops to itself.
fn tell_loop(notes: &mut Notes<'_>, scene: &Scene<'_, '_>, event: u32) -> Result<(), NoMemory> {
    let reached = Reached::from_event(notes.alloc(), scene.machine, event, 1)?;
    tell_ring(notes, scene, &reached, Raised { round: 0, event });
    Ok(())
}

/// Tells the events that loop, and behind the last one how a loop is mended.
pub fn tell_loops(
    notes: &mut Notes<'_>,
    scene: &Scene<'_, '_>,
    events: &[u32],
) -> Result<(), NoMemory> {
    if events.is_empty() {
        return Ok(());
    }
    for event in events {
        tell_loop(notes, scene, *event)?;
    }
    say_all(notes, &LINES);
    Ok(())
}
