//! Reads small games, and says of each which fault it has, or plays it and says whether it writes what it must. The
//! names of the games come on standard input, a line each, as `odd/play-001`; of NAME the text is the file NAME.game,
//! the keys are NAME.keys, and what it must write is NAME.stdout, from where the program runs. What the games of
//! `data/` are, and who says what each must do, stands in `data/README.md`.
#![tactic(auto)]

mod difference;
mod playing;
mod verdict;

use playing::first_complaint;
use std::rt::Files;
use std::{fs, io};
use verdict::{Verdict, judge};

fn main(rt: HostRuntime) -> io::Result<()> {
    for name in rt.lines(rt.alloc()) {
        let line = told(&rt, name?.as_str())?;
        println!(rt; "{line}")?;
    }
    Ok(())
}

/// The line on the game of that name.
fn told<R: Files + AllocGlobal>(rt: &R, name: &str) -> io::Result<String> {
    let path = format!(in rt.alloc(); "{name}.game")?;
    let text = fs::read(rt, path.as_str())?;
    let verdict = judge(rt.alloc(), &text).map_err(|_| io::ErrorKind::OutOfMemory)?;
    let Verdict::Refused(fault) = verdict else {
        let said = played(rt, name, &text)?;
        return Ok(format!(in rt.alloc(); "{name}: {said}")?);
    };
    Ok(format!(in rt.alloc(); "{name}: {fault}")?)
}

/// Whether the game of that name writes what it must, and if not, in which line it doesn't.
fn played<R: Files + AllocGlobal>(rt: &R, name: &str, text: &[u8]) -> io::Result<String> {
    let path = format!(in rt.alloc(); "{name}.keys")?;
    let keys = fs::read(rt, path.as_str())?;
    let path = format!(in rt.alloc(); "{name}.stdout")?;
    let wanted = fs::read(rt, path.as_str())?;
    let complaint = first_complaint(rt.alloc(), text, &keys, &wanted).map_err(
        |_| io::ErrorKind::OutOfMemory,
    )?;
    match complaint {
        Some(said) => Ok(said),
        None => Ok(String::from_str(rt.alloc(), "played as it must be")?),
    }
}
