ghost use Rattle.std.specs.Prelude.{◌≡◌};
ghost use Rattle.spec_frames.specs.helpers.PreviousCells as spec;

use rsml_syntax::Decl;
use state_arrays::Names;

/// Whether the input that a declaration declares, if any, has a cell for its previous number.
fn has_previous(names: &Names<'_>, decl: &Decl) -> bool
    ensures { result ≡ spec.has_previous names.now decl.now }
{
    match decl {
        Decl::Input { name, size, .. } => {
            let first = u8::from(size.is_some());
            names.previous_of(name.bytes(), first).is_some()
        }
        _ => false,
    }
}

/// Whether the input of each declaration has such a cell in both or in neither.
pub fn previous_alike(one: &Names<'_>, two: &Names<'_>, decls: &[Decl]) -> bool
    ensures { result ≡ spec.previous_alike one.now two.now decls.now }
{
    decls
        .iter()
        .all(|decl| has_previous(one, decl) == has_previous(two, decl))
}
