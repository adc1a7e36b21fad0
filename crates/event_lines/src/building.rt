ghost use Rattle.std.specs.Prelude.{◌≡◌, ◌+◌, ◌≤◌, IfOk, OnOk, Some, get_or, length, map, slice_get};
ghost use Rattle.std.specs.Option.{option_copied, option_map};
ghost use Rattle.rsml_syntax.specs.rules.Globals as rules;
ghost use Rattle.rsml_meaning.specs.Cells.{input_type, no_type};
ghost use Rattle.rsml_meaning.specs.Interfaces.{receives_of};
ghost use Rattle.rsml_meaning.specs.Words.{Each};
ghost use Rattle.event_lines.specs.helpers.Declared as declared;
ghost use Rattle.event_lines.specs.helpers.Forms as forms;

use crate::field::Field;
use crate::form::Form;
use crate::owners::Owners;
use crate::value_type::ValueType;
use rsml_names::Globals;
use rsml_syntax::{Amount, Decl, Mention, NoMemory, Text};
use std::alloc::Global;

/// The types of declarations, and at last that of what is no type.
pub fn value_types<'a>(alloc: Global, decls: &'a [Decl]) -> Result<Vec<ValueType<'a>>, NoMemory>
    ensures { IfOk result (λ types. types.items ≡ declared.types_of decls.now) }
{
    let mut types = Vec::new(alloc);
    for decl in decls {
        types.push(ValueType::new(alloc, decl)?)?;
    }
    types.push(ValueType::none(alloc))?;
    Ok(types)
}

/// The name of the type that a declaration of an input gives.
fn kind_of(decl: &Decl) -> Option<&Text>
    ensures { option_copied result ≡ declared.type_name_of decl.now }
{
    match decl {
        Decl::Input { kind, .. } => Some(kind),
        _ => None,
    }
}

/// The number of the declaration of the type that an input is declared with.
fn declared_type(owners: &Owners<'_>, input: &[u8]) -> Option<usize>
    ensures { option_map (λ n. slice_get owners.now n) result
        ≡ option_map (λ d. Some d) (declared.type_decl owners.now input.now) }
{
    let kind = kind_of(owners.decl(input)?)?;
    owners.number(kind.bytes())
}

/// The number of the type of an input.
fn type_number(owners: &Owners<'_>, input: &[u8]) -> usize
    ensures is { get_or (declared.types_of owners.now) result no_type
        ≡ input_type (rules.globals owners.now) input.now }
    ensures within { result ≤ length owners.now }
{
    declared_type(owners, input).unwrap_or(owners.count())
}

/// The fields of a receive that lists these inputs.
fn fields_of<'a>(
    alloc: Global,
    owners: &Owners<'_>,
    inputs: &'a [Mention],
) -> Result<Vec<Field<'a>>, NoMemory>
    ensures are { IfOk result (λ fields. map (forms.field_of (declared.types_of owners.now))
        fields.items ≡ map (forms.listed (rules.globals owners.now)) inputs.now) }
    ensures within { IfOk result (λ fields. forms.AreWithin (length owners.now + 1) fields.items) }
{
    let mut fields = Vec::new(alloc);
    for input in inputs {
        let name = input.name.bytes();
        fields.push(Field {
            name,
            kind: type_number(owners, name),
        })?;
    }
    Ok(fields)
}

/// The form of a receive, whose first instance has this number. NoMemory also where the numbers of
/// its instances do not fit a `u32`.
fn new_form<'a>(
    alloc: Global,
    globals: &Globals<'_>,
    owners: &Owners<'_>,
    first: u32,
    decl: &'a Decl,
) -> Result<Option<Form<'a>>, NoMemory>
    requires { globals.now ≡ rules.globals owners.now }
    ensures is { IfOk result (λ form. option_map (forms.written (declared.types_of owners.now)) form
        ≡ forms.declared globals.now first decl.now) }
    ensures within { IfOk result (λ form. forms.IsWithin (length owners.now + 1) form) }
{
    match decl {
        Decl::Receive { size, inputs, .. } => {
            let many = globals.many(size.as_ref());
            if many > u64::from(u32::MAX - first) {
                return Err(NoMemory);
            }
            Ok(Some(Form {
                first,
                many: many as u32,
                is_array: size.is_some(),
                fields: fields_of(alloc, owners, inputs.as_slice())?,
            }))
        }
        _ => Ok(None),
    }
}

/// The number of the first instance behind those of a form.
fn after(first: u32, form: Option<&Form<'_>>) -> u32
    ensures { result ≡ forms.after first (option_copied form.entry) }
{
    match form {
        Some(form) => form.first + form.many,
        None => first,
    }
}

/// The forms of declarations.
fn forms_by<'a>(
    alloc: Global,
    globals: &Globals<'_>,
    owners: &Owners<'_>,
    decls: &'a [Decl],
) -> Result<Vec<Option<Form<'a>>>, NoMemory>
    requires { globals.now ≡ rules.globals owners.now }
    ensures are { IfOk result (λ fs. map (option_map (forms.written (declared.types_of owners.now)))
        fs.items ≡ forms.declared_from globals.now 0 decls.now) }
    ensures within { IfOk result (λ fs. Each (forms.IsWithin (length owners.now + 1)) fs.items) }
{
    let mut forms = Vec::new(alloc);
    let mut first = 0;
    for decl in decls {
        let form = new_form(alloc, globals, owners, first, decl)?;
        first = after(first, form.as_ref());
        forms.push(form)?;
    }
    Ok(forms)
}

/// The forms of the declarations of global names.
pub fn forms_of<'a>(
    alloc: Global,
    owners: &Owners<'_>,
    decls: &'a [Decl],
) -> Result<Vec<Option<Form<'a>>>, NoMemory>
    requires { owners.now ≡ decls.now }
    ensures { IfOk result (λ fs. forms.AreForms decls.now (declared.types_of decls.now) fs.items) }
{
    let globals = Globals::new(alloc, decls)?;
    let forms = forms_by(alloc, &globals, owners, decls)?;
    Ok(forms)
}
