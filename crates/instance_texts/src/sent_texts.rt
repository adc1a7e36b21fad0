ghost use Rattle.std.specs.Prelude.{◌≡◌, [], IfOk};
ghost use Rattle.std.specs.Option.{option_copied, option_map, option_map_or};
ghost use Rattle.rsml_meaning.specs.Instances.{globals_of};
ghost use Rattle.rsml_meaning.specs.Texts.{value_text};
ghost use Rattle.rsml_meaning.specs.Trace.{names_of_kind, value_kind};
ghost use Rattle.text_writer.specs.Writes.{Writes};
ghost use Rattle.instance_texts.specs.SentCases.{sent_value, sent_field};

use crate::answered::{Answered, answers};
use crate::listings::listing;
use crate::sorts::Sort;
use crate::values::put_value;
use rsml_names::Globals;
use rsml_syntax::{Checked, NoMemory, Spec, Text};
use std::alloc::Global;
use std::marker::Model;
use text_writer::Writer;

/// What the cases of the sends of a specification send, which is borrowed. Each case is found by its place in the list of
/// the definitions. Only `build` takes memory. Contracts see the specification.
#[derive(Drop)]
pub struct SentTexts<'a> {
    spec: &'a Spec,
    cases: Vec<Answered<'a>>,
}

impl<'a> Model for SentTexts<'a> {
    ghost use Rattle.rsml_syntax.specs.declared.syntax.Spec.{Spec};
    ghost use Rattle.rsml_syntax.specs.contracts.syntax.Body as bodies;
    ghost use Rattle.std.specs.Coded.{codes};
    ghost use Rattle.instance_texts.specs.SentCases.{AreSent};

    ghost Value = { Spec };

    ghost coded = { Prim.hlevel (codes, bodies.the_row.coded) };

    ghost view = { λ t. t.spec.now };

    ghost invariant = { λ t. AreSent t.spec.now t.cases.items };
}

impl<'a> SentTexts<'a> {
    /// For the sends of a specification.
    pub fn build(alloc: Global, checked: &'a Checked) -> Result<SentTexts<'a>, NoMemory>
        ensures { IfOk result (λ texts. texts ≡ checked.now) }
    {
        let spec = checked.spec();
        let globals = Globals::new(alloc, spec.decls.as_slice())?;
        let sends = listing(alloc, &globals, Sort::Send, spec.decls.as_slice())?;
        let cases = answers(alloc, &globals, &sends)?;
        Ok(SentTexts { spec, cases })
    }

    /// The name of the field at a place of the case of a number. None exactly where there is none.
    pub fn field_name(&self, case: u32, place: usize) -> Option<&'a Text>
        ensures { option_copied result ≡ sent_field self.now case place }
    {
        let _ = &self.spec;
        match self.cases.get(case as usize) {
            Some(answered) => answered.field(place),
            None => None,
        }
    }

    // The names of the value that the case of a number gives the field at a place.
    fn names(&self, case: u32, place: usize) -> Option<&'a [Text]>
        ensures { let g = globals_of self.now in option_copied result
            ≡ option_map (λ value. names_of_kind g (value_kind g value)) (sent_value self.now case place) }
    {
        let _ = &self.spec;
        match self.cases.get(case as usize) {
            Some(answered) => answered.names_at(place),
            None => None,
        }
    }

    /// Writes a number that the case of a number sends in the field at a place: by its name, where the value is one of an
    /// enumeration. Nothing where there is no such field.
    pub fn put_sent<W: Writer>(&self, writer: &mut W, case: u32, place: usize, number: i64)
        ensures { let g = globals_of self.now in Writes (W.state writer.old) (W.text writer.old)
            (option_map_or (λ value. value_text (names_of_kind g (value_kind g value)) number) (sent_value self.now case place) [])
            (W.state writer.new) (W.text writer.new) }
    {
        match self.names(case, place) {
            Some(names) => put_value(writer, names, number),
            None => {}
        }
    }
}
