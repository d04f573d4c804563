//! Slips in words: what stands before the word that has one, and what after it.

ghost use Rattle.std.specs.Prelude.{◌≡◌, IfOk, string_bytes};
ghost use Rattle.ps_why.specs.SlipWords.{shape_front, shape_back, rule_front, rule_back, form_front, form_back};
ghost use Rattle.ps_why.specs.SlipWords.{place_front, place_back};
ghost use Rattle.ps_why.specs.SlipWords.{slip_front, slip_back, slip_words};

use ps_facts::{FormSlip, PlaceSlip, RuleSlip, ShapeSlip, Slip};
use ps_model::Memory;
use std::alloc::Global;

/// What stands before a word with a wrong bracket, bar or arrow.
fn shape_front(slip: ShapeSlip) -> &'static str
    ensures { result.now ≡ shape_front slip }
{
    match slip {
        ShapeSlip::LikeArrow => "This line has no `->`: write it in place of `",
        ShapeSlip::LongArrow => "An arrow is just `->`: take out the `",
        ShapeSlip::LikeBracket => "The brackets of a rule are `[` and `]`: `",
        ShapeSlip::NoArrow => "This line has no `->` and ends after `",
        ShapeSlip::Nested => "Another `[` comes after this `",
        ShapeSlip::Unclosed => "No `]` closes this `",
        ShapeSlip::LoneClosing => "No `[` is open before this `",
        ShapeSlip::NothingLeft => "There are no brackets to the left of `",
        ShapeSlip::NothingRight => "Nothing comes after `",
        ShapeSlip::NoCells => "This rule has only `",
        ShapeSlip::SecondArrow
        | ShapeSlip::BarOutside
        | ShapeSlip::DirectionOutside
        | ShapeSlip::WordOutside => "`",
    }
}

/// What stands after it.
fn shape_back(slip: ShapeSlip) -> &'static str
    ensures { result.now ≡ shape_back slip }
{
    match slip {
        ShapeSlip::LikeArrow => "`.",
        ShapeSlip::LongArrow => "` before it.",
        ShapeSlip::LikeBracket => "` is neither.",
        ShapeSlip::NoArrow => "`: a rule has one, and is written on one line.",
        ShapeSlip::SecondArrow => "` appears a second time: a rule has only one.",
        ShapeSlip::Nested => "` before any `]`: brackets don't nest.",
        ShapeSlip::Unclosed => "` on its side of `->`.",
        ShapeSlip::LoneClosing => "` on its side of `->`.",
        ShapeSlip::NothingLeft => "`.",
        ShapeSlip::NothingRight => "`: a rule is written on one line.",
        ShapeSlip::NoCells => "`: its cells have to be in `[` and `]`, as `(` begins a comment.",
        ShapeSlip::BarOutside => "` is outside brackets: it separates the cells of a row.",
        ShapeSlip::DirectionOutside =>
            "` is after `->`: the directions of a rule come before the first `[`.",
        ShapeSlip::WordOutside => "` is outside brackets.",
    }
}

/// What stands before another word of a rule.
fn rule_front(slip: RuleSlip) -> &'static str
    ensures { result.now ≡ rule_front slip }
{
    match slip {
        RuleSlip::LateMove =>
            "A `late` rule runs after the movement, so its brackets can't have movement words: take out `",
        RuleSlip::RuleComment => "Comments are written between `(` and `)`: `",
        RuleSlip::LikeLoop =>
            "A loop begins with `startloop` and ends with `endloop`, each alone on its line: this line begins with `",
        RuleSlip::WinLine =>
            "A win condition belongs below the header WINCONDITIONS, but this line is in RULES: `",
        RuleSlip::LoopWords
        | RuleSlip::MessageAlone
        | RuleSlip::Chance
        | RuleSlip::Rigid
        | RuleSlip::TwiceInCell
        | RuleSlip::FirstEllipsis
        | RuleSlip::LastEllipsis
        | RuleSlip::EllipsisBeside
        | RuleSlip::EllipsisAgain => "`",
    }
}

/// What stands after it.
fn rule_back(slip: RuleSlip) -> &'static str
    ensures { result.now ≡ rule_back slip }
{
    match slip {
        RuleSlip::LoopWords => "` has to be alone on its line.",
        RuleSlip::MessageAlone =>
            "` is on a line without `->`: the message of a rule comes after `->`.",
        RuleSlip::LateMove => "`, or `late`.",
        RuleSlip::Chance =>
            "` isn't supported, as nothing here is random: a rule has to say which place and direction it means.",
        RuleSlip::Rigid =>
            "` isn't supported: a late rule with `cancel` can cancel a turn in which only a part has moved.",
        RuleSlip::TwiceInCell => "` is in this cell a second time.",
        RuleSlip::RuleComment => "` doesn't begin one.",
        RuleSlip::LikeLoop => "`.",
        RuleSlip::WinLine => "` begins one.",
        RuleSlip::FirstEllipsis => "` is first in its row: a cell has to come before it.",
        RuleSlip::LastEllipsis => "` is last in its row: a cell has to come after it.",
        RuleSlip::EllipsisBeside => "` has to be alone in its cell.",
        RuleSlip::EllipsisAgain =>
            "` is right before another one: a cell has to come between them.",
    }
}

/// What stands before a word that can't stand where it stands.
fn place_front(slip: PlaceSlip) -> &'static str
    ensures { result.now ≡ place_front slip }
{
    match slip {
        PlaceSlip::Nameless => "A name has to come right after `",
        PlaceSlip::Ahead
        | PlaceSlip::CommandInCell
        | PlaceSlip::KeyWordInCell
        | PlaceSlip::OutsideLeft
        | PlaceSlip::BeforeRow
        | PlaceSlip::NoCommand => "`",
    }
}

/// What stands after it.
fn place_back(slip: PlaceSlip) -> &'static str
    ensures { result.now ≡ place_back slip }
{
    match slip {
        PlaceSlip::Ahead =>
            "` is before the first `[`, where only `late` and directions may be, and `+` at the start.",
        PlaceSlip::CommandInCell =>
            "` is in brackets: commands come after the last `]` on the right.",
        PlaceSlip::KeyWordInCell =>
            "` is in brackets, where only names, movement words, `no` and `...` may be.",
        PlaceSlip::Nameless => "`.",
        PlaceSlip::OutsideLeft =>
            "` is outside brackets: on the left, nothing may be outside them after the first `[`.",
        PlaceSlip::BeforeRow => "` is before a `[` on the right: commands come after the last `]`.",
        PlaceSlip::NoCommand =>
            "` isn't a command: only commands come after the brackets on the right.",
    }
}

/// What stands before a word of another section.
fn form_front(slip: FormSlip) -> &'static str
    ensures { result.now ≡ form_front slip }
{
    match slip {
        FormSlip::NoEquals | FormSlip::NoJoiner | FormSlip::EqualsAsName =>
            "A line of LEGEND is `X = Y`, `X = Y and Z` or `X = Y or Z`: `",
        FormSlip::LegendEnds =>
            "A line of LEGEND is `X = Y`, `X = Y and Z` or `X = Y or Z`, and can't end after `",
        FormSlip::NoQuantifier | FormSlip::NoOn | FormSlip::FurtherWord =>
            "A win condition is `No X`, `Some X`, `Any X` or `All X`, or that with `on Y`: `",
        FormSlip::WinEnds =>
            "A win condition is `No X`, `Some X`, `Any X` or `All X`, or that with `on Y`, and can't end after `",
        FormSlip::SecondName | FormSlip::ThirdName =>
            "An object's line has its name, and perhaps a second one of one character: `",
        FormSlip::LegendLine =>
            "A line such as `X = Y` belongs below the header LEGEND, but this one is in OBJECTS: `",
        FormSlip::WinComment => "Comments are written between `(` and `)`: `",
        FormSlip::RoomSize =>
            "After `flickscreen` comes the size of a room in one word, such as `5x5`: here it is `",
        FormSlip::NoRoomSize => "The size of a room, such as `5x5`, has to come after `",
        FormSlip::LikeMessage =>
            "A message begins with the word `message` and a blank: this line begins with `",
        FormSlip::Caption => "A text that is to be shown begins with `message`, as `message ",
        FormSlip::RuleLine =>
            "A rule belongs below the header RULES, but this line is in COLLISIONLAYERS: `",
        FormSlip::NameAgain | FormSlip::RealTime => "`",
    }
}

/// What stands after it.
fn form_back(slip: FormSlip) -> &'static str
    ensures { result.now ≡ form_back slip }
{
    match slip {
        FormSlip::NoEquals => "` is where `=` has to be.",
        FormSlip::NoJoiner => "` is where `and` or `or` has to be.",
        FormSlip::EqualsAsName => "` is where a name has to be.",
        FormSlip::NoQuantifier => "` is where one of these four has to be.",
        FormSlip::NoOn => "` is where `on` has to be.",
        FormSlip::FurtherWord => "` is one word too many.",
        FormSlip::SecondName | FormSlip::LegendLine => "` is its second word.",
        FormSlip::ThirdName => "` is its third word.",
        FormSlip::LegendEnds
        | FormSlip::WinEnds
        | FormSlip::RoomSize
        | FormSlip::NoRoomSize
        | FormSlip::LikeMessage => "`.",
        FormSlip::Caption => " ..` does.",
        FormSlip::WinComment => "` doesn't begin one.",
        FormSlip::RuleLine => "` begins a row of a rule.",
        FormSlip::NameAgain =>
            "` is already a name on this line: upper and lower case are the same.",
        FormSlip::RealTime =>
            "` isn't supported, as everything here follows a key: a rule with `again` goes on by itself.",
    }
}

/// What stands before the word that has a slip.
fn slip_front(slip: Slip) -> &'static str
    ensures { result.now ≡ slip_front slip }
{
    match slip {
        Slip::Shape(slip) => shape_front(slip),
        Slip::Rule(slip) => rule_front(slip),
        Slip::Place(slip) => place_front(slip),
        Slip::Form(slip) => form_front(slip),
    }
}

/// What stands after it.
fn slip_back(slip: Slip) -> &'static str
    ensures { result.now ≡ slip_back slip }
{
    match slip {
        Slip::Shape(slip) => shape_back(slip),
        Slip::Rule(slip) => rule_back(slip),
        Slip::Place(slip) => place_back(slip),
        Slip::Form(slip) => form_back(slip),
    }
}

/// What is said about a word that has a slip.
pub fn slip_words(alloc: Global, slip: Slip, word: &str) -> Result<String, Memory>
    ensures { IfOk result (λ words. string_bytes words ≡ slip_words slip word.now) }
{
    let front = slip_front(slip);
    let back = slip_back(slip);
    let words = format!(in alloc; "{front}{word}{back}")?;
    Ok(words)
}
