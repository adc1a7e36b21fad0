use rsml_syntax::Checked;

/// A specification of the two, with its text and the name of its file.
#[derive(Clone, Copy)]
pub struct Side<'t> {
    pub file: &'t [u8],
    pub text: &'t [u8],
    pub checked: &'t Checked,
}
