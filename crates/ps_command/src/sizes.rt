//! The size of a terminal, as a word gives it, on a command line or in a file.

ghost use Rattle.std.specs.Prelude.{◌≡◌, None, is_none, true, IfSome};
ghost use Rattle.ps_command.specs.Given.{IsSizeIn};

use ps_view::{Size, SizeTeller};
use std::fs;
use std::io::Read;
use std::rt::Files;

/// How many bytes of a file are looked at: a size has fewer.
const MOST_BYTES: usize = 16;

/// The size that a word gives: how many rows, `x`, and how many columns, as in `24x80`.
#[tactic(auto, using(crate::proofs::NumbersRead::sizes_read))]
pub fn size_of(word: &str) -> Option<Size>
    ensures { IfSome result (IsSizeIn word.now) }
{
    let (rows, columns) = word.split_once('x')?;
    let (Ok(rows), Ok(columns)) = (rows.parse::<u16>(), columns.parse::<u16>()) else {
        return None;
    };
    Size::new(usize::from(rows), usize::from(columns))
}

/// The size that a file gives, which may end with a line feed.
fn size_in<R: Files>(rt: &R, path: &str) -> Option<Size> {
    let mut bytes = [0u8; MOST_BYTES];
    let mut file = fs::open(rt, path).ok()?;
    let count = file.read(&mut bytes).ok()?;
    let text = std::str::from_utf8(&bytes[..count]).ok()?;
    size_of(text.strip_suffix('\n').unwrap_or(text))
}

/// The size that a file gives, if one is named.
fn size_named<R: Files>(rt: &R, path: Option<&str>) -> Option<Size>
    ensures { is_none path.entry ≡ true → result ≡ None }
{
    let path = path?;
    size_in(rt, path)
}

/// Tells the size that a file gives, as often as it is asked; none where there is no file, or no size in it.
#[derive(Drop)]
pub struct FileSizes<'r, R: Files> {
    rt: &'r R,
    path: Option<&'r str>,
    told: Option<Size>,
}

impl<'r, R: Files> FileSizes<'r, R> {
    /// Tells the size that this file gives, if one is named.
    pub fn new(rt: &'r R, path: Option<&'r str>) -> FileSizes<'r, R>
        ensures { result.path ≡ path.entry }
    {
        FileSizes {
            rt,
            path,
            told: None,
        }
    }
}

impl<'r, R: Files> SizeTeller for FileSizes<'r, R> {
    ghost told = { λ teller. teller.told };

    ghost is_silent = { λ teller. is_none teller.path };

    fn size_now(&mut self) -> Option<Size> {
        self.told = size_named(self.rt, self.path);
        self.told
    }
}
