use crate::lookup::Lookup;
use rsml_ground::Definition;

/// Where phrases stand: what their names stand for, the definitions before them, and the index of the instance.
#[derive(Clone, Copy)]
pub struct Site<'s, 'a, 'n> {
    pub lookup: &'s Lookup<'a, 'n>,
    pub definitions: &'s [Definition],
    pub this: u8,
}
