//! The laws of the definitions: what follows from what a text, a rule, a board and a run mean.
//!
//! Each law is the contract of a public function with an empty body; `specs/` states it. What proofs of the crates
//! above need of it stays public in `proofs/`.
#![tactic(auto)]

mod laws_of_boards;
mod laws_of_compiling;
mod laws_of_games;
mod laws_of_grids;
mod laws_of_rooms;
mod laws_of_rules;
mod laws_of_runs;
mod laws_of_sessions;
mod laws_of_sides;

pub use laws_of_boards::{chains_slide, places_lie_on_boards};
pub use laws_of_compiling::{
    cells_compile, compiled_programs_are_of_games, loose_properties_lie_on_one_layer,
    programs_compile, rules_compile,
};
pub use laws_of_games::{
    games_have_objects, grids_of_games, levels_are_of_games, names_are_bounded, rules_are_of_games,
    rules_have_whole_rows, turns_are_of_games,
};
pub use laws_of_grids::{
    attempts_keep_grids, game_turns_keep_grids, groups_keep_grids, inputs_keep_grids,
    loops_keep_grids, passes_keep_grids, programs_keep_grids, readings_are_of_games,
    rest_keeps_grids, rounds_keep_grids, rule_cells_keep_cells, rule_programs_keep_cells,
    rules_keep_cells, runs_keep_grids, sections_keep_grids, settling_keeps_grids,
    slides_keep_grids, turns_keep_grids,
};
pub use laws_of_rooms::{frames_of_whole_boards, rooms_in_sessions, rooms_show_players};
pub use laws_of_rules::{
    alike_programs, alike_rounds, cancelled_runs, equal_meanings, idle_rules, settling,
    turning_round,
};
pub use laws_of_runs::{
    answers_of_texts, ends_of_output, fronts_of_output, held_bytes, keys_in_pieces, one_game,
    readings_by_stages, runs_from_levels, runs_not_allowed,
};
pub use laws_of_sessions::{
    again_turns, alike_scripts, session_boards, session_steps, session_texts, solving_spots,
};
pub use laws_of_sides::{rules_keep_sides, turns_keep_sides};
