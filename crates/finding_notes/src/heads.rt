//! What a finding is of.

use crate::finding::Finding;
use crate::shown::next;
use ground_groups::GroupKind;
use instance_texts::put_path;
use source_notes::Notes;
use text_writer::{Draft, Writer, put_number};
use written_members::{Scene, written_at};

/// Puts how many members are enabled.
fn put_count(line: &mut Draft, count: usize) {
    match count {
        0 => line.put(b"no"),
        2 => line.put(b"two"),
        3 => line.put(b"three"),
        _ => put_number(line, count as u64),
    }
}

/// Puts what is enabled, of which there are so many.
fn put_enabled(line: &mut Draft, count: usize, one: &[u8], many: &[u8]) {
    put_count(line, count);
    line.put(b" ");
    line.put(if count < 2 { one } else { many });
    line.put(b" enabled in ");
}

/// Puts the path of a state.
fn put_state(line: &mut Draft, scene: &Scene<'_, '_>, state: u32) {
    match scene.machine.tree().states().path(state) {
        Some(path) => put_path(line, path),
        None => {}
    }
}

/// Puts what a group is: a state or a send with an event, or a function.
pub fn put_group(line: &mut Draft, scene: &Scene<'_, '_>, kind: GroupKind) {
    match kind {
        GroupKind::State { state, event } => {
            put_state(line, scene, state);
            line.put(b" on ");
            scene.texts.put_event(line, event);
        }
        GroupKind::Send { send, event } => {
            line.put(b"send ");
            scene.texts.put_send(line, send);
            line.put(b" on ");
            scene.texts.put_event(line, event);
        }
        GroupKind::Function(function) => {
            line.put(b"function ");
            scene.texts.put_function(line, function);
        }
    }
}

/// Puts of which so many members are enabled.
fn put_kind(line: &mut Draft, scene: &Scene<'_, '_>, kind: GroupKind, count: usize) {
    match kind {
        GroupKind::State { .. } => put_enabled(line, count, b"transition is", b"transitions are"),
        _ => put_enabled(line, count, b"case is", b"cases are"),
    }
    put_group(line, scene, kind);
}

/// Puts where the first member that is shown stands.
fn put_first(line: &mut Draft, scene: &Scene<'_, '_>, finding: Finding<'_>) {
    if let Some(first) = next(scene.machine, finding, None)
        && let Some(at) = written_at(scene, first.member)
    {
        scene.source.put_place(line, at.at);
    }
}

/// Tells what is found of a group, of which so many members are shown, at the first of them.
pub fn tell_head(notes: &mut Notes<'_>, scene: &Scene<'_, '_>, finding: Finding<'_>, shown: usize) {
    let mut line = notes.line("");
    put_first(&mut line, scene, finding);
    line.put(b"error: ");
    let groups = scene.machine.groups();
    if finding.group < groups.count() {
        let count = if finding.is_double { shown } else { 0 };
        put_kind(&mut line, scene, groups.kind(finding.group), count);
    }
    notes.keep(line);
}
