use crate::holdings::tell_world;
use crate::reads::{Reads, read_column};
use and_or_tables::GroundRow;
use rsml_base::NoMemory;
use rsml_syntax::World;
use source_notes::Notes;
use written_members::Scene;

/// Tells what a world, in which a column of rows is true, holds of all that the column asks for, and of the components around a state.
pub fn tell_example(
    notes: &mut Notes<'_>,
    scene: &Scene<'_, '_>,
    rows: &[GroundRow],
    column: usize,
    state: Option<u32>,
    world: &World,
) -> Result<(), NoMemory> {
    let mut reads = Reads::new(notes.alloc(), scene.machine)?;
    read_column(&mut reads, scene.machine, rows, column, state);
    tell_world(
        notes,
        scene,
        "it is true, for example, where",
        &reads,
        world,
    )
}
