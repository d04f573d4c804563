//! Tests by public calls of what no output of a game shows. Of values: boards as a list of slots, on which no game is
//! played; which rows and columns a board of rows tells; how many passes a movement takes; how many rules are compiled;
//! which cell of a rule writes alone; and pieces of keys. Of runs and of what stands around them: runs with devices,
//! and with memory, of their own; a game that is traced; devices by themselves; checks of texts; texts too long to lie
//! in a file; levels that are solved; and command lines. Games of which a text, keys and an output say all are played
//! by `ps_cases`. They stand in one crate above those that they test. A crate with tests is proved twice, and each
//! check of one loads all that it stands on.
#![tactic(auto)]

#[cfg(test)]
mod boards;
#[cfg(test)]
mod checks;
#[cfg(test)]
mod command_lines;
#[cfg(test)]
mod compiling;
#[cfg(test)]
mod device_calls;
#[cfg(test)]
mod devices;
#[cfg(test)]
mod games;
#[cfg(test)]
mod keys;
#[cfg(test)]
mod list_board;
#[cfg(test)]
mod lists;
#[cfg(test)]
mod long_texts;
#[cfg(test)]
mod machine;
#[cfg(test)]
mod memory;
#[cfg(test)]
mod movement;
mod playable;
#[cfg(test)]
mod refusals;
#[cfg(test)]
mod refused_keys;
#[cfg(test)]
mod replays;
#[cfg(test)]
mod row_board;
#[cfg(test)]
mod row_scan;
#[cfg(test)]
mod rows;
#[cfg(test)]
mod searches;
#[cfg(test)]
mod searches_after;
#[cfg(test)]
mod solved_puzzles;
#[cfg(test)]
mod solving;
#[cfg(test)]
mod told_levels;
#[cfg(test)]
mod traces;
#[cfg(test)]
mod watched;
#[cfg(test)]
mod writers;
