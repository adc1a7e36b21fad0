ghost use Rattle.std.specs.Prelude.{◌≡◌, ◌↔◌, IsTrue};
ghost use Rattle.rsml_syntax.specs.limits.Checked.{IsChecked};
ghost use Rattle.spec_frames.specs.Frames.{frame, HaveSameFrame};
ghost use Rattle.spec_frames.specs.helpers.Sameness as spec;
ghost use Rattle.spec_frames.specs.helpers.PreviousCells.{alike};

use crate::declarations::same_declarations;
use crate::previous::previous_alike;
use crate::states::same_body;
use rsml_syntax::Spec;
use state_arrays::Names;

/// Whether top states and declarations are the same but for macros and guards, and then the bodies.
fn are_same(one: &Spec, two: &Spec) -> bool
    ensures { result ≡ spec.same_spec one.now two.now }
{
    one.top == two.top
        && same_declarations(one.decls.as_slice(), two.decls.as_slice())
        && same_body(&one.body, &two.body)
}

/// Whether two specifications are the same but for their names, macros and guards. It takes no memory.
pub fn same_syntax(one: &Spec, two: &Spec) -> bool
    ensures { IsTrue result ↔ (frame one.now ≡ frame two.now) }
{
    are_same(one, two)
}

/// Whether besides each input has a cell for its previous number in both or in neither.
fn are_alike(one: &Names<'_>, two: &Names<'_>) -> bool
    ensures { result ≡ alike one.now two.now }
{
    are_same(one.spec(), two.spec()) && previous_alike(one, two, one.spec().decls.as_slice())
}

/// Whether two checked specifications have the same frame. It takes no memory.
pub fn same_frame(one: &Names<'_>, two: &Names<'_>) -> bool
    requires one { IsChecked one.now }
    requires two { IsChecked two.now }
    ensures { IsTrue result ↔ HaveSameFrame one.now two.now }
{
    are_alike(one, two)
}
