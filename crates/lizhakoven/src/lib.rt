//! The engine for other programs: a static library with calls for C, which `include/lizhakoven.h` declares. A call
//! works on the memory that it is handed, and answers a status. Nothing is kept after it but open games and sessions.
#![tactic(auto)]

mod boxed;
mod cells;
mod checking;
mod compiled_game;
mod faults;
mod game_handle;
mod games;
mod handle;
mod held;
mod held_game;
mod keyed;
mod keys;
mod looking;
mod places;
mod played_keys;
mod playing;
mod room;
mod running;
mod seeing;
mod sessions;
mod sizes;
mod statuses;
mod telling;
mod version;

pub use cells::NOTHING;
pub use checking::{Finding, lzk_check};
pub use compiled_game::CompiledGame;
pub use faults::TextFault;
pub use game_handle::GameHandle;
pub use games::{lzk_close, lzk_object_name, lzk_open};
pub use handle::SessionHandle;
pub use held::HeldSession;
pub use held_game::HeldGame;
pub use places::Place;
pub use played_keys::PlayedKeys;
pub use playing::{Played, PlayedRun, play};
pub use running::{Outcome, lzk_run};
pub use seeing::Seen;
pub use sessions::{lzk_copy, lzk_end, lzk_keys, lzk_look, lzk_start, lzk_text};
pub use sizes::GameSize;
pub use statuses::Status;
pub use version::lzk_version;
