use crate::source::Source;
use elaborate::Machine;
use instance_texts::Texts;
use rsml_names::Globals;
use rsml_syntax::Decl;

/// A machine, the names of its instances, and the text in which they are written.
#[derive(Drop)]
pub struct Scene<'s, 'a> {
    pub machine: &'s Machine<'a>,
    pub texts: &'s Texts<'a>,
    pub globals: &'s Globals<'a>,
    pub decls: &'a [Decl],
    pub source: &'s Source<'s>,
}
