//! Chains of events, told transition by transition.

use crate::labels::put_member;
use crate::reached::{Raised, Reached, Step};
use crate::scene::Scene;
use crate::written::written_at;
use ground_groups::Member;
use source_notes::{Notes, Piece};
use text_writer::{Draft, Writer};

/// How many steps of a chain are told at most.
const MOST_STEPS: u32 = 16;

/// Puts where a member stands.
pub fn put_place(line: &mut Draft, scene: &Scene<'_, '_>, member: Member) {
    if let Some(at) = written_at(scene, member) {
        scene.source.put_place(line, at.at);
    }
}

/// Puts where a member stands, and what it is.
pub fn put_placed(line: &mut Draft, scene: &Scene<'_, '_>, member: Member) {
    put_place(line, scene, member);
    put_member(line, scene.machine, member);
}

/// Puts words and an event behind them.
pub fn put_event(line: &mut Draft, scene: &Scene<'_, '_>, words: &str, event: u32) {
    line.put(words.as_bytes());
    scene.texts.put_event(line, event);
}

/// Tells a step.
fn tell_step(notes: &mut Notes<'_>, scene: &Scene<'_, '_>, step: Step) {
    let mut line = notes.line("");
    put_placed(&mut line, scene, Member::Transition(step.transition));
    put_event(&mut line, scene, " on ", step.on.event);
    put_event(&mut line, scene, " raises ", step.to.event);
    notes.keep(line);
}

/// Tells the chain to an event.
pub fn tell_steps(notes: &mut Notes<'_>, scene: &Scene<'_, '_>, reached: &Reached, raised: Raised) {
    let count = reached.steps_to(raised);
    for before in 0..count.min(MOST_STEPS) {
        if let Some(step) = reached.step_behind(raised, before) {
            tell_step(notes, scene, step);
        }
    }
    if count > MOST_STEPS {
        let more = count.saturating_sub(MOST_STEPS);
        notes.say_one("and {} more", Piece::Count(more as usize));
    }
}

/// Says lines.
pub fn say_all(notes: &mut Notes<'_>, lines: &[&str]) {
    for line in lines {
        notes.say(*line);
    }
}
