ghost use Rattle.rsml_parser.specs.Laws.{IsUnambiguous, AtMostOneSpecification, LayoutReadsAgain, HasOneAnswer, OpensInsideSixteen, ClaimsAreUnambiguous, JoinedIsWellFormed};

/// No specification has a second reading: its tokens are those of no other.
pub fn grammar_is_unambiguous()
    ensures { IsUnambiguous }
{}

/// A text reads as at most one specification.
pub fn at_most_one_specification()
    ensures { AtMostOneSpecification }
{}

/// The layout of a specification that nests at most 16 states reads as that specification.
pub fn layout_reads_again()
    ensures { LayoutReadsAgain }
{}

/// Each list of tokens is that of one specification, or has one fault of syntax, or one token that opens a state too many:
/// exactly one of these.
pub fn tokens_have_one_answer()
    ensures { HasOneAnswer }
{}

/// A token that opens a state too many is `state` or `array`, and 16 braces are open before it: those of 16 states.
pub fn deep_token_opens_inside_sixteen()
    ensures { OpensInsideSixteen }
{}

/// No claims have a second reading: their tokens are those of no others.
pub fn claims_are_unambiguous()
    ensures { ClaimsAreUnambiguous }
{}

/// A well-formed specification with well-formed claims after its declarations is well-formed.
pub fn joined_is_well_formed()
    ensures { JoinedIsWellFormed }
{}
