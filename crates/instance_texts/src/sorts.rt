ghost use Rattle.std.specs.Prelude.{◌≡◌};
ghost use Rattle.instance_texts.specs.Listing.{is_of};

use rsml_syntax::Decl;

/// What instances are declared as. Macros and functions are of one sort.
#[derive(Clone, Copy)]
pub enum Sort {
    Event,
    Input,
    Definition,
    Receive,
    Send,
}

/// Whether a declaration is one of a sort.
pub fn is_of(sort: Sort, decl: &Decl) -> bool
    ensures { result ≡ is_of sort decl.now }
{
    match decl {
        Decl::Event { .. } => matches!(sort, Sort::Event),
        Decl::Input { .. } => matches!(sort, Sort::Input),
        Decl::Macro { .. } => matches!(sort, Sort::Definition),
        Decl::Function { .. } => matches!(sort, Sort::Definition),
        Decl::Receive { .. } => matches!(sort, Sort::Receive),
        Decl::Send { .. } => matches!(sort, Sort::Send),
        _ => false,
    }
}
