//! The lines of a run's output, and those that may be put between them, told apart.

ghost use Rattle.std.specs.Prelude.{◌≡◌};
ghost use Rattle.ps_view.specs.LineKinds.{kind_of};

/// What a line of a run's output is, or of what may be put between its lines.
#[derive(Clone, Copy, PartialEq, Eq, Debug)]
pub enum LineKind {
    /// The title: `= ` and a text.
    Title,
    /// The line that opens a level: `# level ` and its number.
    Level,
    /// A message: `! ` and a text.
    Message,
    /// A note on the level: `~ ` and a text. No run writes one.
    Note,
    /// A question: `? ` and a text. No run writes one.
    Question,
    /// The line that closes a level: `* level `, its number and ` done`.
    LevelDone,
    /// The ending: `* ` and how the run ended.
    Ending,
    /// Without bytes: it ends a frame.
    Empty,
    /// A row of a frame: any other.
    Row,
}

/// What a line is that begins with a mark and a blank.
fn kind_of_marked(line: &[u8]) -> LineKind
    ensures { result ≡ kind_of line.now }
{
    if line.is_empty() {
        return LineKind::Empty;
    }
    if line.starts_with(b"= ") {
        return LineKind::Title;
    }
    if line.starts_with(b"# ") {
        return LineKind::Level;
    }
    if line.starts_with(b"! ") {
        return LineKind::Message;
    }
    if line.starts_with(b"~ ") {
        return LineKind::Note;
    }
    if line.starts_with(b"? ") {
        return LineKind::Question;
    }
    if line.starts_with(b"* level ") {
        return LineKind::LevelDone;
    }
    if line.starts_with(b"* ") {
        return LineKind::Ending;
    }
    LineKind::Row
}

/// What a line is. Rows of frames have no blank as their second byte, so most lines are told by that byte alone.
pub fn kind_of(line: &[u8]) -> LineKind
    ensures { result ≡ kind_of line.now }
{
    match line {
        [_, second, ..] if *second != b' ' => LineKind::Row,
        _ => kind_of_marked(line),
    }
}
