ghost use Rattle.proving.specs.Laws.{DoneIsProved, ProveIsOne};

use claims::{breaks_tell_inductive_claims, least_breaks_are_one, next_worlds_tell_breaks};
use rsml_lexer::{at_most_one_first_fault, at_most_one_token_list, never_both};
use rsml_meaning::a_report_is_one_text;
use rsml_parser::claims_are_unambiguous;

/// Where `prove` ends with `Done`, the specification is certified, and the claims are inductive and true in each world of each run.
pub fn done_is_proved()
    ensures { DoneIsProved }
{}

/// What `prove` answers and writes is one thing, by the specification and the text of claims.
pub fn what_prove_answers_is_one()
    ensures { ProveIsOne }
{
    at_most_one_first_fault();
    at_most_one_token_list();
    never_both();
    claims_are_unambiguous();
    a_report_is_one_text();
    breaks_tell_inductive_claims();
    least_breaks_are_one();
    next_worlds_tell_breaks();
}
