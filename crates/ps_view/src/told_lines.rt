//! What is told beside the board.

ghost use Rattle.std.specs.Prelude.{◌≡◌, [], IfOk, IfSome, OnOk};
ghost use Rattle.ps_view.specs.Screens.{rows_below};
ghost use Rattle.ps_view.specs.ToldLines.{at_level, last_told, noted, nothing_told, titled};

use crate::heard_keys::HeardKeys;
use crate::lines::Line;
use crate::rows::copies;
use crate::screens::rows_below;
use crate::sizes::Size;
use crate::texts::Text;
use ps_model::Memory;
use std::alloc::Global;
use std::marker::Model;
use std::mem;

/// The rows below a frame that were made for a terminal of so many rows and columns.
#[derive(Drop)]
struct MadeRows {
    tall: usize,
    wide: usize,
    rows: Vec<Text>,
}

/// What is told beside the board. Each line is empty until it comes; that of the keys tells those that are heard. The
/// rows that were made of it last are kept until something else is told.
#[derive(Drop)]
pub struct ToldLines {
    title: Line,
    level: Line,
    note: Line,
    heard: HeardKeys,
    news: Line,
    made: Option<MadeRows>,
}

impl Model for ToldLines {
    ghost use Rattle.std.specs.Prelude.{◌≡◌, IfSome};
    ghost use Rattle.ps_view.specs.Screens.{LinesBelow, rows_below};

    ghost Value = { LinesBelow };

    ghost view = { λ told. record {
      title = told.title;
      level = told.level;
      note = told.note;
      heard = told.heard;
      news = told.news;
    } };

    ghost invariant = { λ told. IfSome told.made (λ made. made.rows.items ≡ rows_below made.tall made.wide (record {
      title = told.title;
      level = told.level;
      note = told.note;
      heard = told.heard;
      news = told.news;
    })) };
}

impl ToldLines {
    /// Nothing is told yet but the keys that are heard.
    pub fn new(alloc: Global, heard: HeardKeys) -> ToldLines
        ensures { result ≡ nothing_told heard }
    {
        ToldLines {
            title: Line::new(alloc),
            level: Line::new(alloc),
            note: Line::new(alloc),
            heard,
            news: Line::new(alloc),
            made: None,
        }
    }

    /// The line of the title.
    pub fn title(&self) -> &[u8]
        ensures { result.now ≡ self.now.title }
    {
        self.title.bytes()
    }

    /// The line of the level, without its note.
    pub fn level(&self) -> &[u8]
        ensures { result.now ≡ self.now.level }
    {
        self.level.bytes()
    }

    /// The note on the level.
    pub fn note(&self) -> &[u8]
        ensures { result.now ≡ self.now.note }
    {
        self.note.bytes()
    }

    /// The keys that are heard.
    pub fn heard(&self) -> HeardKeys
        ensures { result ≡ self.now.heard }
    {
        self.heard
    }

    /// What is told last.
    pub fn news(&self) -> &[u8]
        ensures { result.now ≡ self.now.news }
    {
        self.news.bytes()
    }

    /// Takes the line of another title, and leaves it empty.
    pub fn set_title(&mut self, line: &mut Line)
        ensures told { self.new ≡ titled self.old line.old }
        ensures line { line.new ≡ [] }
    {
        self.made = None;
        mem::swap(&mut self.title, line);
        line.clear();
    }

    /// Takes the line of another level, and leaves it empty.
    pub fn set_level(&mut self, line: &mut Line)
        ensures told { self.new ≡ at_level self.old line.old }
        ensures line { line.new ≡ [] }
    {
        self.made = None;
        mem::swap(&mut self.level, line);
        line.clear();
        self.note.clear();
        self.news.clear();
    }

    /// Keeps another note on the level.
    ///
    /// # Errors
    ///
    /// `Memory`, and no note is kept.
    pub fn set_note(&mut self, text: &[u8]) -> Result<(), Memory>
        ensures { OnOk result (self.new ≡ noted self.old text.now) }
    {
        self.made = None;
        self.note.clear();
        self.note.add(text)
    }

    /// Takes the line of what is told last, and leaves it empty.
    pub fn set_news(&mut self, line: &mut Line)
        ensures told { self.new ≡ last_told self.old line.old }
        ensures line { line.new ≡ [] }
    {
        self.made = None;
        mem::swap(&mut self.news, line);
        line.clear();
    }

    /// Keeps a text as what is told last.
    ///
    /// # Errors
    ///
    /// `Memory`, and nothing is told last.
    pub fn tell_last(&mut self, text: &[u8]) -> Result<(), Memory>
        ensures { OnOk result (self.new ≡ last_told self.old text.now) }
    {
        self.made = None;
        self.news.clear();
        self.news.add(text)
    }

    /// Tells nothing last.
    pub fn clear_news(&mut self)
        ensures { self.new ≡ last_told self.old [] }
    {
        if self.news.bytes().is_empty() {
            return;
        }
        self.made = None;
        self.news.clear();
    }

    /// The rows below a frame, if they are made for a terminal of that size.
    fn made_rows(&self, size: Size) -> Option<&[Text]>
        ensures { IfSome result (λ rows. rows.now ≡ rows_below size.rows size.columns self.now) }
    {
        let made = self.made.as_ref()?;
        if made.tall == size.rows() && made.wide == size.columns() {
            return Some(&made.rows);
        }
        None
    }

    /// The rows below a frame on a terminal of that size.
    ///
    /// # Errors
    ///
    /// `Memory`.
    pub fn rows(&mut self, alloc: Global, size: Size) -> Result<Vec<Text>, Memory>
        ensures rows { IfOk result (λ rows. rows.items ≡ rows_below size.rows size.columns self.old) }
        ensures same { self.new ≡ self.old }
    {
        if let Some(rows) = self.made_rows(size) {
            return copies(alloc, rows);
        }
        let rows = rows_below(alloc, size, self)?;
        let shown = copies(alloc, &rows)?;
        self.made = Some(MadeRows {
            tall: size.rows(),
            wide: size.columns(),
            rows,
        });
        Ok(shown)
    }
}
