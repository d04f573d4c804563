//! What the marks of a cause stand below.

ghost use Rattle.std.specs.Prelude.{◌≡◌, ◌<◌, length, IfSome};
ghost use Rattle.ps_why.specs.Marked.{alone, below, character_place, mark_behind, mark_of_character, mark_of_word};
ghost use Rattle.ps_why.specs.Marked.{marked_in_loop, marked_in_object, marked_in_rule, marked_in_whole, marks_in_rule};
ghost use Rattle.ps_why.specs.Marked.{marks_in_whole, marks_of, marks_of_two};

use crate::lines::goes_on;
use crate::marks::{Mark, Marks};
use ps_causes::{Cause, LoopCause, ObjectCause, RuleCause, WholeCause};
use ps_text::Word;

/// A mark below a word.
fn below(word: Word<'_>) -> Mark
    ensures { result ≡ below word.entry }
{
    let span = word.span();
    Mark {
        from: span.start as usize,
        to: span.end as usize,
    }
}

/// A mark alone.
fn alone(mark: Mark) -> Option<Marks>
    ensures { result ≡ alone mark }
{
    Some(Marks { mark, other: None })
}

/// What stands below a word.
fn mark_of_word(word: Word<'_>) -> Option<Marks>
    ensures { result ≡ mark_of_word word.entry }
{
    alone(below(word))
}

/// What stands below a word and another one before it.
fn marks_of_two(word: Word<'_>, other: Word<'_>) -> Option<Marks>
    ensures { result ≡ marks_of_two word.entry other.entry }
{
    Some(Marks {
        mark: below(word),
        other: Some(below(other)),
    })
}

/// What stands below the blank after a word.
fn mark_behind(word: Word<'_>) -> Option<Marks>
    ensures { result ≡ mark_behind word.entry }
{
    let end = word.span().end as usize;
    alone(Mark {
        from: end,
        to: end + 1,
    })
}

/// The place of the first byte of a character, counted from 1, if there is that one.
fn character_place(bytes: &[u8], column: usize) -> Option<usize>
    ensures place { result ≡ character_place 0 column bytes.now }
    ensures within { IfSome result (λ at. at < length bytes.now) }
{
    let mut left = column;
    for at in 0..bytes.len() {
        if !goes_on(bytes[at]) {
            if left == 1 {
                return Some(at);
            }
            left = left.saturating_sub(1);
        }
    }
    None
}

/// What stands below a character of a word, counted from 1.
fn mark_of_character(word: Word<'_>, column: usize) -> Option<Marks>
    ensures { result ≡ mark_of_character word.entry column }
{
    let Some(at) = character_place(word.text().as_bytes(), column) else {
        return None;
    };
    let from = word.span().start as usize + at;
    alone(Mark { from, to: from + 1 })
}

/// What stands below words of a rule: of two names both, and of the two words of an arrow.
fn marks_in_rule(cause: RuleCause<'_>) -> Option<Marks>
    ensures { result ≡ marks_in_rule cause.entry }
{
    match cause {
        RuleCause::Pair { word, other, .. } | RuleCause::BrokenArrow { word, other } =>
            marks_of_two(word, other),
        _ => mark_of_word(marked_in_rule(cause)),
    }
}

/// The word of a rule that a mark stands below.
fn marked_in_rule<'a>(cause: RuleCause<'a>) -> Word<'a>
    ensures { result ≡ marked_in_rule cause.entry }
{
    match cause {
        RuleCause::Pair { word, .. }
        | RuleCause::Several { word, .. }
        | RuleCause::Unbound { word, .. }
        | RuleCause::BrokenArrow { word, .. }
        | RuleCause::GoesOn { word, .. } => word,
        RuleCause::Rows { arrow, .. } | RuleCause::Cells { arrow, .. } => arrow,
    }
}

/// The word of a loop line that a mark stands below.
fn marked_in_loop<'a>(cause: LoopCause<'a>) -> Word<'a>
    ensures { result ≡ marked_in_loop cause.entry }
{
    match cause {
        LoopCause::Nested { word, .. }
        | LoopCause::Unbegun { word, .. }
        | LoopCause::Unended { word } => word,
    }
}

/// The word of a line of LEGEND that a mark stands below.
fn marked_in_whole<'a>(cause: WholeCause<'a>) -> Word<'a>
    ensures { result ≡ marked_in_whole cause.entry }
{
    match cause {
        WholeCause::AllAtOnce { word, .. } | WholeCause::AnyOfThem { word, .. } => word,
        WholeCause::OnTwoLayers { other, .. } => other,
        WholeCause::OnOneLayer { word, .. } => word,
    }
}

/// What stands below words of a line of LEGEND: of two on one layer both.
fn marks_in_whole(cause: WholeCause<'_>) -> Option<Marks>
    ensures { result ≡ marks_in_whole cause.entry }
{
    match cause {
        WholeCause::OnOneLayer { word, other, .. } => marks_of_two(word, other),
        _ => mark_of_word(marked_in_whole(cause)),
    }
}

/// The word of an object's line that a mark stands below.
fn marked_in_object<'a>(cause: ObjectCause<'a>) -> Word<'a>
    ensures { result ≡ marked_in_object cause.entry }
{
    match cause {
        ObjectCause::RowName { word } => word,
        ObjectCause::Colourless { name, .. } | ObjectCause::ShortSprite { name, .. } => name,
    }
}

/// What the marks of a cause stand below.
pub fn marks_of(cause: Cause<'_>) -> Option<Marks>
    ensures { result ≡ marks_of cause.entry }
{
    match cause {
        Cause::Untold | Cause::MissingSection { .. } | Cause::Utf16(_) => None,
        Cause::Undeclared { word, .. }
        | Cause::Meaningless { word, .. }
        | Cause::Unlayered { word }
        | Cause::Twice { word, .. }
        | Cause::Slashes { word }
        | Cause::LikeHeader { word, .. }
        | Cause::BelowLike { word, .. }
        | Cause::Slip { word, .. } => mark_of_word(word),
        Cause::InRule(cause) => marks_in_rule(cause),
        Cause::InLoop(cause) => mark_of_word(marked_in_loop(cause)),
        Cause::InWhole(cause) => marks_in_whole(cause),
        Cause::InObject(cause) => mark_of_word(marked_in_object(cause)),
        Cause::OnlyCommas { place } | Cause::BrokenByte { place, .. } => alone(Mark {
            from: place.saturating_sub(1),
            to: place,
        }),
        Cause::LateHeader { header, .. } => mark_of_word(header),
        Cause::UnknownGlyph { row, column, .. } | Cause::OpenGlyph { row, column, .. } =>
            mark_of_character(row, column),
        Cause::BrokenRow { row, .. } => mark_behind(row),
    }
}
