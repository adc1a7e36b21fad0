ghost use Rattle.std.specs.Prelude.{◌≡◌, slice_get};
ghost use Rattle.std.specs.Option.{option_copied};
ghost use Rattle.rsml_meaning.specs.Texts.{instance_text};
ghost use Rattle.text_writer.specs.Writes.{Writes};
ghost use Rattle.instance_texts.specs.Listing.{instance_of};
ghost use Rattle.instance_texts.specs.Inputs.{input_names};

use crate::steps::put_instance;
use rsml_names::name_of;
use rsml_syntax::{Decl, Text};
use std::marker::Model;
use text_writer::Writer;

/// An instance of what is declared: its declaration, and its index there, or 0 where it has no size.
#[derive(Drop)]
pub struct Listed<'a> {
    pub decl: &'a Decl,
    pub index: u8,
}

impl<'a> Model for Listed<'a> {
    ghost use Rattle.instance_texts.specs.Listing as spec;

    ghost Value = { spec.Listed };

    ghost view = { λ x. record { decl = x.decl.now; index = x.index } };
}

impl<'a> Listed<'a> {
    /// Writes the instance.
    pub fn put<W: Writer>(&self, writer: &mut W)
        ensures { Writes (W.state writer.old) (W.text writer.old) (instance_text (instance_of self.now))
            (W.state writer.new) (W.text writer.new) }
    {
        put_instance(writer, name_of(self.decl).bytes(), self.index);
    }

    /// The name of the input at a place of a receive.
    pub fn input(&self, place: usize) -> Option<&'a Text>
        ensures { option_copied result ≡ slice_get (input_names self.now.decl) place }
    {
        match self.decl {
            Decl::Receive { inputs, .. } => Some(&inputs.get(place)?.name),
            _ => None,
        }
    }
}
