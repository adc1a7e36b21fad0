//! What is true of the definitions, whatever the code does.

ghost use Rattle.std.specs.Prelude.{◌≡◌, ◌↔◌, [], Some, None};
ghost use Rattle.rsml_syntax.specs.declared.syntax.Spec.{Spec};
ghost use Rattle.rsml_syntax.specs.rules.Breaches.{Breach, IsLowest};
ghost use Rattle.rsml_syntax.specs.rules.Rules.{breaches, broken_rule};

/// A specification has no broken rule exactly where it has no breach, and else the lowest rule that it breaks,
/// with the first name at which that one is broken.
pub fn broken_rule_is_lowest()
    ensures none { (s : Spec) → (broken_rule s ≡ None) ↔ (breaches s ≡ []) }
    ensures some { (s : Spec) (b : Breach) → (broken_rule s ≡ Some b) ↔ IsLowest (breaches s) b }
{}
