//! How a group fails.

use crate::failing::Failing;
use crate::gaps::Gap;
use ground_groups::GroupKind;
use instance_texts::put_path;
use source_notes::Notes;
use text_writer::{Draft, Writer};
use written_members::Scene;

/// Puts a word, and what an event is.
fn put_on(line: &mut Draft, scene: &Scene<'_, '_>, event: u32) {
    line.put(b" on ");
    scene.texts.put_event(line, event);
}

/// Puts what a group is of.
fn put_kind(line: &mut Draft, scene: &Scene<'_, '_>, kind: GroupKind) {
    match kind {
        GroupKind::State { state, event } => {
            if let Some(path) = scene.machine.tree().states().path(state) {
                put_path(line, path);
            }
            put_on(line, scene, event);
        }
        GroupKind::Send { send, event } => {
            line.put(b"send ");
            scene.texts.put_send(line, send);
            put_on(line, scene, event);
        }
        GroupKind::Function(function) => {
            line.put(b"function ");
            scene.texts.put_function(line, function);
        }
    }
}

/// What is enabled in a group.
fn words(kind: GroupKind, failing: Failing) -> &'static [u8] {
    match (kind, failing) {
        (GroupKind::State { .. }, Failing::Missing) => b"error: no transition is enabled in ",
        (GroupKind::State { .. }, Failing::Double) => b"error: two transitions are enabled in ",
        (_, Failing::Missing) => b"error: no case is enabled in ",
        (_, Failing::Double) => b"error: two cases are enabled in ",
    }
}

/// Tells how a group fails.
pub fn tell_head(notes: &mut Notes<'_>, scene: &Scene<'_, '_>, gap: Gap) {
    let mut line = notes.line("");
    scene.source.put_place(&mut line, gap.last.at);
    line.put(words(gap.kind, gap.failing));
    put_kind(&mut line, scene, gap.kind);
    notes.keep(line);
}
