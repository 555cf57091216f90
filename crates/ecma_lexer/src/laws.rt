//! What holds of the grammar and of every run: each call does nothing, and its contract is the law.

pub use ecma_clean::laws::{
    canonical_is_read, canonical_is_shared, canonical_runs_alike, clean_runs_by_both_rules,
};
pub use ecma_joining::laws as joining;
pub use ecma_laws::laws::{
    answers_are_in_order, collecting_changes_nothing, comments_are_kept, comments_are_told,
    empty_tokens_stand_alone, expressions, gaps, going_back_undoes, kept_and_gaps_tile,
    nested_excursions_are_undone, no_gap_in_templates, nothing_behind_the_end, numbers,
    punctuators, reading_is_determined, reads_are_free, reads_end, strings, templates,
    tokens_are_few, tokens_are_in_order, tokens_run_out, words,
};
pub use ecma_pieces::laws::{replays_may_be_covered, runs_may_be_covered};
pub use ecma_resuming::laws::{
    rests_are_there, resuming_begins, steps_answer_over_the_rest, steps_go_on_over_the_rest,
};
pub use ecma_rewinding::laws::{refusal_is_undone, rewinding_undoes, steps_go_on};
pub use ecma_slashes::laws::{
    rereads_count_met, runs_by_rule_are_runs, runs_by_rule_end, texts_are_read_out,
    texts_are_read_plainly,
};
pub use ecma_tracked::laws as tracked;
