ghost use Rattle.rsml_meaning.specs.ScopeLaws.{RulesGiveScopes};

/// A specification that keeps the rules S1 to S16 is well scoped: each name in it stands for what is
/// declared.
pub fn rules_give_scopes()
    ensures { RulesGiveScopes }
{}
