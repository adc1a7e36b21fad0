ghost use Rattle.rsml_ground.specs.PhraseLaws.{RulesScopePhrases};

/// In a specification that keeps the rules and limits what each phrase names is there: states and cells by their
/// places, macros and functions by numbers before that of what names them.
pub fn rules_scope_phrases()
    ensures { RulesScopePhrases }
{}
