ghost use Rattle.std.specs.Prelude.{◌≡◌, [], if◌then◌else◌};
ghost use Rattle.rsml_syntax.specs.rules.Globals.{Globals, name_of, size_of};
ghost use Rattle.rsml_meaning.specs.Instances.{instances};
ghost use Rattle.state_arrays.specs.Kinds.{made};

use rsml_names::NameList;
use rsml_syntax::Decl;

/// What declarations make instances of.
#[derive(Clone, Copy)]
pub enum Kind<'k, 'n> {
    Event,
    Input,
    /// The inputs whose names are among these.
    Previous(&'k NameList<'n>),
    /// Macros and functions, in one list.
    Definition,
    Receive,
    Send,
}

impl Kind<'_, '_> {
    /// Whether a declaration makes instances of this kind.
    pub fn is_made_by(self, decl: &Decl) -> bool
        ensures { (g : Globals) → made self.entry g decl.now
            ≡ (if result then instances g (name_of decl.now) (size_of decl.now) else []) }
    {
        match self {
            Kind::Event => matches!(decl, Decl::Event { .. }),
            Kind::Input => matches!(decl, Decl::Input { .. }),
            Kind::Previous(names) => match decl {
                Decl::Input { name, .. } => names.has(name.bytes()),
                _ => false,
            },
            Kind::Definition => matches!(decl, Decl::Macro { .. } | Decl::Function { .. }),
            Kind::Receive => matches!(decl, Decl::Receive { .. }),
            Kind::Send => matches!(decl, Decl::Send { .. }),
        }
    }
}
