//! A machine in memory, on which a command line is obeyed: it keeps which files were opened, and what was told.

ghost use Rattle.std.specs.Prelude.{IsErr};

use crate::games::{CUT_SHORT, PUSHING, THREE_LEVELS, TWO_LEVELS, WARNED};
use ps_model::TEXT_LIMIT;
use std::alloc::{Allocator, Global};
use std::cell::RefCell;
use std::env::FillError;
use std::fmt::Display;
use std::fs::{Metadata, OpenFile, OpenOptions};
use std::io;
use std::io::{ErrorKind, Read, Seek, SeekFrom, Write};
use std::rt::{Env, Files};
use std::time::{Clock, Duration};

/// The keys of each file of keys but `right.keys`.
const KEYS: &[u8] = b"q";

/// The key of `right.keys`.
const RIGHT: &[u8] = b"d";

/// The size of a terminal in each file of sizes.
const SIZE: &[u8] = b"10x20\n";

/// A machine with the words of a command line. Each file whose name ends with `.keys` has the same keys, but for
/// `right.keys`, and one with `.size` the same size. `cut.game` has a text that ends before its levels, `two.game` the
/// game [`TWO_LEVELS`], and `three.game` the game [`THREE_LEVELS`]. `warned.game` has the game [`WARNED`], and each
/// other one the game [`PUSHING`]. In `long.game` and `too-long.game` line feeds stand before it. With them it has as
/// many bytes as a text may have, and one more. There is neither a `lost.game` nor a `lost.keys` nor a `lost.size`, nor
/// a clock.
#[derive(Drop)]
pub struct Machine<'w> {
    alloc: Global,
    words: &'w [&'w str],
    opened: RefCell<String>,
    complained: RefCell<String>,
}

/// What has happened on a machine.
#[derive(Drop)]
pub struct Kept {
    /// The names of the files that were to be opened, each in a line.
    pub opened: String,
    /// What standard error got.
    pub complained: String,
}

impl<'w> Machine<'w> {
    /// Where nothing has happened yet.
    pub fn new(alloc: Global, words: &'w [&'w str]) -> Machine<'w> {
        Machine {
            alloc,
            words,
            opened: RefCell::new(String::new(alloc)),
            complained: RefCell::new(String::new(alloc)),
        }
    }

    /// What has happened.
    pub fn kept(self) -> Kept {
        Kept {
            opened: self.opened.into_inner(),
            complained: self.complained.into_inner(),
        }
    }

    /// Keeps the name of a file that is opened.
    fn keep_opened(&self, path: &str) -> io::Result<()> {
        let name = String::from_str(self.alloc, path)?;
        self.add(&self.opened, name, "\n")
    }

    /// Writes a value and an end after what a text has.
    fn add<D: Display + Drop>(
        &self,
        text: &RefCell<String>,
        value: D,
        end: &str,
    ) -> io::Result<()> {
        let written = value.to_string(self.alloc)?;
        let Ok(mut text) = text.try_borrow_mut() else {
            return unsupported();
        };
        text.push_str(written.as_str())?;
        text.push_str(end)?;
        Ok(())
    }
}

/// The answer of what this machine can't do.
fn unsupported<T>() -> io::Result<T>
    ensures { IsErr result }
{
    Err(io::Error::from(ErrorKind::Unsupported))
}

impl Alloc for Machine<'_> {
    type A = Global;

    fn alloc(&self) -> Global {
        self.alloc
    }
}

impl Eprint for Machine<'_> {
    fn eprint<D: Display + Drop>(&self, value: D) -> io::Result<()> {
        self.add(&self.complained, value, "")
    }

    fn eprintln<D: Display + Drop>(&self, value: D) -> io::Result<()> {
        self.add(&self.complained, value, "\n")
    }
}

impl Clock for Machine<'_> {
    fn monotonic(&self) -> io::Result<Duration> {
        unsupported()
    }

    fn since_1970(&self) -> io::Result<Duration> {
        unsupported()
    }
}

impl Env for Machine<'_> {
    fn arg(&self, i: usize, buf: &mut [u8]) -> Result<usize, FillError> {
        let Some(word) = self.words.get(i) else {
            return Err(FillError::NotPresent);
        };
        let bytes = word.as_bytes();
        if buf.len() < bytes.len() {
            return Err(FillError::TooLong);
        }
        buf[..bytes.len()].copy_from_slice(bytes);
        Ok(bytes.len())
    }

    fn var(&self, _name: &str, _buf: &mut [u8]) -> Result<usize, FillError> {
        Err(FillError::NotPresent)
    }

    fn var_at(&self, _i: usize, _buf: &mut [u8]) -> Result<usize, FillError> {
        Err(FillError::NotPresent)
    }
}

/// A file that is read from its front on, and of which nothing else can be had.
#[derive(Drop)]
pub struct OpenedFile {
    /// How many line feeds are still to come before the rest.
    feeds: usize,
    rest: &'static [u8],
}

impl Read for OpenedFile {
    fn read(&mut self, buf: &mut [u8]) -> io::Result<usize> {
        if self.feeds == 0 {
            return self.rest.read(buf);
        }
        let count = self.feeds.min(buf.len());
        buf[..count].fill(b'\n');
        self.feeds -= count;
        Ok(count)
    }
}

/// The file of that name, if there is one.
fn opened(name: &str) -> io::Result<OpenedFile> {
    if name.starts_with("lost.") {
        return Err(io::Error::from(ErrorKind::NotFound));
    }
    Ok(file_of(name))
}

/// What the file of that name has.
fn file_of(name: &str) -> OpenedFile {
    let room = TEXT_LIMIT.saturating_sub(PUSHING.len());
    let (feeds, rest) = match name {
        "cut.game" => (0, CUT_SHORT),
        "two.game" => (0, TWO_LEVELS),
        "three.game" => (0, THREE_LEVELS),
        "warned.game" => (0, WARNED),
        "long.game" => (room, PUSHING),
        "too-long.game" => (room.saturating_add(1), PUSHING),
        "right.keys" => (0, RIGHT),
        _ if name.ends_with(".keys") => (0, KEYS),
        _ if name.ends_with(".size") => (0, SIZE),
        _ => (0, PUSHING),
    };
    OpenedFile { feeds, rest }
}

impl Write for OpenedFile {
    fn write(&mut self, _buf: &[u8]) -> io::Result<usize> {
        unsupported()
    }

    fn flush(&mut self) -> io::Result<()> {
        unsupported()
    }
}

impl Seek for OpenedFile {
    fn seek(&mut self, _to: SeekFrom) -> io::Result<u64> {
        unsupported()
    }
}

impl OpenFile for OpenedFile {
    fn metadata(&self) -> io::Result<Metadata> {
        unsupported()
    }

    fn set_len(&self, _size: u64) -> io::Result<()> {
        unsupported()
    }

    fn sync_all(&self) -> io::Result<()> {
        unsupported()
    }

    fn sync_data(&self) -> io::Result<()> {
        unsupported()
    }
}

impl Files for Machine<'_> {
    type File = OpenedFile;

    type Dir = OpenedFile;

    fn open_file(&self, _how: &OpenOptions, path: &str) -> io::Result<OpenedFile> {
        match self.keep_opened(path) {
            Ok(()) => opened(path),
            Err(error) => Err(error),
        }
    }

    fn open_dir(&self, _path: &str) -> io::Result<OpenedFile> {
        unsupported()
    }

    fn metadata(&self, _path: &str) -> io::Result<Metadata> {
        unsupported()
    }

    fn symlink_metadata(&self, _path: &str) -> io::Result<Metadata> {
        unsupported()
    }

    fn copy(&self, _from: &str, _to: &str) -> io::Result<u64> {
        unsupported()
    }

    fn rename(&self, _from: &str, _to: &str) -> io::Result<()> {
        unsupported()
    }

    fn remove_file(&self, _path: &str) -> io::Result<()> {
        unsupported()
    }

    fn create_dir(&self, _path: &str) -> io::Result<()> {
        unsupported()
    }

    fn remove_dir(&self, _path: &str) -> io::Result<()> {
        unsupported()
    }

    fn remove_dir_all<B: Allocator>(&self, _alloc: B, _path: &str) -> io::Result<()> {
        unsupported()
    }
}
