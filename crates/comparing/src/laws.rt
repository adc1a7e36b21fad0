ghost use Rattle.comparing.specs.Laws.{SameIsAlike, SameIsOne};

use equal_frames::{difference_is_one, equal_guards_trace_alike};
use rsml_lexer::{at_most_one_first_fault, at_most_one_token_list, never_both};
use rsml_meaning::a_report_is_one_text;
use rsml_parser::tokens_have_one_answer;

/// Where `same` ends with `Done`, both specifications are certified, and every event file has the same first fault and the same trace by
/// both.
pub fn same_texts_behave_alike()
    ensures { SameIsAlike }
{
    equal_guards_trace_alike();
}

/// What `same` answers and writes is one thing, by the first specification and the second text.
pub fn what_same_answers_is_one()
    ensures { SameIsOne }
{
    at_most_one_first_fault();
    at_most_one_token_list();
    never_both();
    tokens_have_one_answer();
    a_report_is_one_text();
    difference_is_one();
}
