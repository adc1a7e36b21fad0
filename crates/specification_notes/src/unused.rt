use crate::declarations::tell_declarations;
use crate::states::tell_states;
use rsml_base::NoMemory;
use rsml_names::Globals;
use rsml_syntax::Spec;
use source_notes::Notes;
use source_survey::Survey;

/// Tells what is not used, entered or reacted to, by what stands in the specification.
fn tell_surveyed(
    notes: &mut Notes<'_>,
    spec: &Spec,
    globals: &Globals<'_>,
    survey: &Survey<'_>,
) -> Result<(), NoMemory> {
    tell_declarations(notes, spec.decls.as_slice(), globals, survey)?;
    tell_states(notes, globals, survey)
}

/// Tells what of a specification, which has these global names, is not used, entered or reacted to.
pub fn tell_unused(
    notes: &mut Notes<'_>,
    spec: &Spec,
    globals: &Globals<'_>,
) -> Result<(), NoMemory> {
    let survey = Survey::new(notes.alloc(), spec)?;
    tell_surveyed(notes, spec, globals, &survey)
}
