use rsml_syntax::{SendCase, Text};

/// A send, as it is written.
#[derive(Clone, Copy)]
pub struct WrittenSend<'a> {
    pub name: &'a Text,
    pub fields: &'a [Text],
    pub cases: &'a [SendCase],
}

/// A case of a send instance, as it is written.
#[derive(Clone, Copy)]
pub struct WrittenCase<'a> {
    pub name: &'a Text,
    pub fields: &'a [Text],
    pub index: u8,
    pub ordinal: u32,
    pub case: &'a SendCase,
}
