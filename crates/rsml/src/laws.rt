ghost use Rattle.rsml.specs.Laws.{OutputIsOne};

use comparing::what_same_answers_is_one;
use proving::what_prove_answers_is_one;
use rsml_lexer::{at_most_one_first_fault, at_most_one_token_list, never_both};
use rsml_meaning::{
    a_first_fault_is_of_a_line, a_report_is_one_text, event_files_have_one_run,
    last_lines_tell_the_verdict, rules_give_scopes, well_formed_files_have_no_fault,
};
use rsml_parser::tokens_have_one_answer;
use world_columns::column_laws;

/// What a command answers and writes is one thing, by its words and what its files hold.
pub fn an_output_is_one()
    ensures { OutputIsOne }
{
    at_most_one_first_fault();
    at_most_one_token_list();
    never_both();
    tokens_have_one_answer();
    a_report_is_one_text();
    well_formed_files_have_no_fault();
    a_first_fault_is_of_a_line();
    rules_give_scopes();
    event_files_have_one_run();
    last_lines_tell_the_verdict();
    column_laws();
    what_prove_answers_is_one();
    what_same_answers_is_one();
}
