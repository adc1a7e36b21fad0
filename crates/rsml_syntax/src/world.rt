use rsml_base::{List, Text};

/// One step of a path: a state's name, and the index of an array's element, or 0 for a plain state.
#[derive(Debug, Drop)]
pub struct Step {
    pub name: Text,
    pub index: u8,
}

/// The name of a state instance: the steps from the top state down to it.
#[derive(Debug, Drop)]
pub struct Path {
    pub steps: List<Step>,
}

/// What one situation is: for each component the place of its active child, counted from 0, and for each cell its
/// number, previous cells among them. Both stand in the order of instances.
#[derive(Debug)]
pub struct World {
    pub choices: List<u8>,
    pub cells: List<i64>,
}

impl Drop for World {
    fn drop(self) {
        let Self {
            choices: _,
            cells: _,
        } = self;
    }
}
