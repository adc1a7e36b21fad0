ghost use Rattle.rsml_lexer.specs.Laws.{AtMostOneTokenList, AtMostOneFirstFault, NeverBoth, AlwaysOne};

/// A text has at most one token list.
pub fn at_most_one_token_list()
    ensures { AtMostOneTokenList }
{}

/// A text has at most one first fault.
pub fn at_most_one_first_fault()
    ensures { AtMostOneFirstFault }
{}

/// No text has a token list and a first fault.
pub fn never_both()
    ensures { NeverBoth }
{}

/// Every text has a token list or a first fault.
pub fn always_one()
    ensures { AlwaysOne }
{}
