//! The limits of a game and of a run. Whoever speaks of a limit, in code or in a definition, says its name.

/// The bytes of a text.
pub const TEXT_LIMIT: usize = 1048576;
/// The objects of a game.
pub const OBJECT_LIMIT: u32 = 512;
/// The collision layers of a game.
pub const LAYER_LIMIT: u32 = 128;
/// The columns of a board, and its rows.
pub const SIDE_LIMIT: u32 = 256;
/// The rules of a game.
pub const RULE_LIMIT: u32 = 1024;
/// The readings of one rule.
pub const RULE_READINGS_LIMIT: u32 = 4096;
/// The readings of all rules of a game.
pub const READINGS_LIMIT: u32 = 65536;
/// The ellipses of a row: they part it in three parts at most.
pub const ELLIPSIS_LIMIT: u32 = 2;
/// The entries of LEVELS: levels and messages.
pub const ENTRY_LIMIT: u32 = 999;
/// The rounds of a group.
pub const ROUND_LIMIT: u32 = 200;
/// The repeats of loop bodies, of all loops together, in one run of the rules of a part of a turn.
pub const REPEAT_LIMIT: u32 = 200;
/// The again turns of a key, or of the start of a level.
pub const AGAIN_LIMIT: u32 = 200;
/// The boards that are kept for undo.
pub const HISTORY_LIMIT: usize = 1000;
/// The calls by which a run reads keys.
pub const READ_LIMIT: u32 = 16777216;
/// The bytes that a run asks of its reader at each call.
pub const CALL_LIMIT: usize = 4096;
