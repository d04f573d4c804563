//! The words of a command line.

ghost use Rattle.std.specs.Prelude.{◌≡◌};

use std::alloc::AllocError;
use std::env;
use std::env::FillError;
use std::io::ErrorKind;
use std::rt::Env;

/// How many bytes a word has at most that is looked at, to name one that isn't UTF-8.
const MOST_BYTES: usize = 4096;

/// Why there are no words to obey.
#[derive(Drop)]
pub enum NoWords {
    /// One of them isn't UTF-8: a word with U+FFFD in place of what isn't, if it can be named.
    NotText(String),
    /// Memory ran out as they were read.
    Memory,
}

impl From<AllocError> for NoWords {
    ghost use Rattle.ps_command.specs.declared.words.NoWords.TheVariants.{Memory};

    ghost from_gives = { λ _ why. why ≡ Memory };

    fn from(_error: AllocError) -> NoWords {
        NoWords::Memory
    }
}

/// The words of the command line, of which the first is the program's own name.
pub fn words_of<R: Env + AllocGlobal>(rt: &R) -> Result<Vec<String>, NoWords> {
    match env::args(rt) {
        Ok(words) => Ok(words.collect::<Vec<String>>(rt.alloc())?),
        Err(error) => {
            if error.kind() == ErrorKind::OutOfMemory {
                return Err(NoWords::Memory);
            }
            let odd = odd_word(rt)?;
            Err(NoWords::NotText(odd))
        }
    }
}

/// The first word that isn't UTF-8, with U+FFFD in place of what isn't; no text, where there is none of at most
/// `MOST_BYTES`.
fn odd_word<R: Env + AllocGlobal>(rt: &R) -> Result<String, AllocError> {
    let mut piece = [0u8; MOST_BYTES];
    for place in 0..usize::MAX {
        match rt.arg(place, &mut piece) {
            Ok(count) => {
                let bytes = &piece[..count];
                if std::str::from_utf8(bytes).is_err() {
                    return String::from_utf8_lossy(rt.alloc(), bytes);
                }
            }
            Err(FillError::NotPresent) => break,
            Err(FillError::TooLong) => {}
        }
    }
    Ok(String::new(rt.alloc()))
}
