//! How far the search of a level is, as it goes on.

use crate::watching::LevelWatcher;
use ps_search::Watcher;
use std::fmt::{self, Display, Formatter};
use std::io::Eprint;
use std::path::Path;
use std::rt::Files;
use std::time::{Clock, Duration};

/// How many milliseconds a search goes on until it is told how far it is, and from then to the next time.
const PAUSE: u64 = 100;

/// How many places are looked at between two looks at the clock, which takes longer than most places do.
const PLACES: u32 = 64;

/// What wipes the line away on which it is told how far a search is.
const WIPED: &str = "\r\x1b[K";

/// What keeps a terminal from going on in the next row where the line is wider than it. So the whole line is wiped
/// away.
const CUT_OFF: &str = "\x1b[?7l";

/// What lets it go on there again.
const WRAPPED: &str = "\x1b[?7h";

/// A number below 10 ^ 9 with a comma before each three digits, as 1,284.
#[derive(Clone, Copy, Drop)]
struct Grouped(u128);

impl Display for Grouped {
    fn fmt<W: fmt::Write>(&self, f: &mut Formatter<W>) -> fmt::Result {
        let number = self.0;
        let millions = number / 1_000_000;
        let thousands = number / 1_000 % 1_000;
        let rest = number % 1_000;
        if millions > 0 {
            write!(f, "{millions},{thousands:03},{rest:03}")
        } else if thousands > 0 {
            write!(f, "{thousands},{rest:03}")
        } else {
            write!(f, "{rest}")
        }
    }
}

/// How far the search of a level is.
#[derive(Clone, Copy, Drop)]
struct Progress {
    /// Its number; none, where keys lead to it.
    level: Option<usize>,
    /// No list of at most this many keys leads past the level.
    depth: u32,
    states: u32,
    /// How many states were found in a second, on average.
    rate: u128,
}

impl Display for Progress {
    fn fmt<W: fmt::Write>(&self, f: &mut Formatter<W>) -> fmt::Result {
        let depth = Grouped(self.depth as u128);
        let states = Grouped(self.states as u128);
        let rate = Grouped(self.rate);
        match self.level {
            Some(level) => write!(
                f,
                "\r{CUT_OFF}level {level}: not in {depth} keys, {states} states, {rate} a second\x1b[K{WRAPPED}"
            ),
            None => write!(
                f,
                "\r{CUT_OFF}from here: not in {depth} keys, {states} states, {rate} a second\x1b[K{WRAPPED}"
            ),
        }
    }
}

/// How many states were found in a second, on average, where `states` of them were found in a time.
fn rate_of(states: u32, time: Duration) -> u128 {
    let milliseconds = time.as_millis();
    if milliseconds == 0 {
        return 0;
    }
    states as u128 * 1_000 / milliseconds
}

/// Watches the searches of levels: says on standard error how far each is, ten times a second, and stops them all
/// once a file is there.
///
/// What is said of a level stands on one line, and is wiped away when its search ends. Of a search that takes less
/// than a tenth of a second nothing is said. Without a clock nothing is said, and no file is looked for.
#[derive(Drop)]
pub struct SearchProgress<'r, R: Clock + Eprint + Files> {
    rt: &'r R,
    /// Whether it is said how far a search is.
    is_told: bool,
    /// The file that stops the searches, if there is one.
    stop_file: Option<&'r str>,
    is_stopped: bool,
    level: Option<usize>,
    /// How many places are looked at before the clock is.
    places: u32,
    /// When the search of the level began, and when it was told last how far it is, or looked whether it stops.
    begun: Duration,
    told: Duration,
    /// Whether a line on the level stands there.
    is_shown: bool,
}

impl<'r, R: Clock + Eprint + Files> SearchProgress<'r, R> {
    /// Says how far searches are where `is_told`, and stops them once `stop_file` is there.
    pub fn new(rt: &'r R, is_told: bool, stop_file: Option<&'r str>) -> SearchProgress<'r, R> {
        SearchProgress {
            rt,
            is_told,
            stop_file,
            is_stopped: false,
            level: None,
            places: 0,
            begun: Duration::ZERO,
            told: Duration::ZERO,
            is_shown: false,
        }
    }

    /// Says how far the search of the level is. Where standard error fails nothing is said.
    fn tell(&mut self, depth: u32, states: u32) {
        if !self.is_told {
            return;
        }
        let time = self.told.saturating_sub(self.begun);
        let progress = Progress {
            level: self.level,
            depth,
            states,
            rate: rate_of(states, time),
        };
        let _ = self.rt.eprint(progress);
        self.is_shown = true;
    }

    /// Whether the file that stops searches is there.
    fn is_stop_asked(&self) -> bool {
        match self.stop_file {
            Some(path) => Path::new(path).exists(self.rt),
            None => false,
        }
    }
}

impl<'r, R: Clock + Eprint + Files> Watcher for SearchProgress<'r, R> {
    fn goes_on(&mut self, depth: u32, states: u32) -> bool {
        if self.is_stopped {
            return false;
        }
        if self.places > 0 {
            self.places -= 1;
            return true;
        }
        self.places = PLACES;
        let Ok(now) = self.rt.monotonic() else {
            return true;
        };
        if now.saturating_sub(self.told) < Duration::from_millis(PAUSE) {
            return true;
        }
        self.told = now;
        self.tell(depth, states);
        self.is_stopped = self.is_stop_asked();
        !self.is_stopped
    }
}

impl<'r, R: Clock + Eprint + Files> LevelWatcher for SearchProgress<'r, R> {
    fn begins(&mut self, level: Option<usize>) {
        if !self.is_stopped {
            self.is_stopped = self.is_stop_asked();
        }
        self.level = level;
        self.places = 0;
        if let Ok(now) = self.rt.monotonic() {
            self.begun = now;
            self.told = now;
        }
    }

    fn ends(&mut self) {
        if self.is_shown {
            let _ = self.rt.eprint(WIPED);
            self.is_shown = false;
        }
    }
}
