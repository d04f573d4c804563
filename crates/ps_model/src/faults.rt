//! Why a text is refused.

ghost use Rattle.std.specs.Prelude.{◌≡◌, Some};
ghost use Rattle.ps_model.specs.text.Refusals.{words_of, fault_line};

use std::fmt;

/// A cause of refusal. The order is that of the codes, by which causes in one line are told.
#[derive(Clone, Copy, PartialEq, Eq, Debug)]
pub enum FaultKind {
    /// `TX1`: the text isn't UTF-8.
    NotUtf8,
    /// `TX2`: the text has more bytes than the limit.
    TooLong,
    /// `GM1`: a header repeats, or follows a later section's.
    SectionOrder,
    /// `GM2`: OBJECTS, COLLISIONLAYERS or LEVELS is missing.
    NoSection,
    /// `GM3`: a line of the prelude asks for real time.
    Realtime,
    /// `GM4`: the readings of a rule, or of the rules up to it, pass their limit.
    TooManyReadings,
    /// `GM5`: every reading of a rule is impossible.
    Impossible,
    /// `GM6`: a line of the prelude asks for rooms, but writes no size.
    BadFlickscreen,
    /// `NA1`: an object without a good name line, colours or sprite.
    BadObject,
    /// `NA2`: a name is declared again.
    Twice,
    /// `NA3`: `and` and `or` in one legend line.
    MixedAndOr,
    /// `NA4`: a legend or layer line names what isn't declared.
    UnknownName,
    /// `NA5`: a legend name stands for itself.
    Cycle,
    /// `NA6`: a property names an aggregate.
    AggregateInProperty,
    /// `NA7`: an aggregate names a property.
    PropertyInAggregate,
    /// `NA8`: a layer line names an aggregate.
    AggregateInLayer,
    /// `NA9`: an object lies on no layer.
    NoLayer,
    /// `NA10`: no name `Background`.
    NoBackground,
    /// `NA11`: no name `Player`.
    NoPlayer,
    /// `NA12`: `Background` is an aggregate, or its members lie on several layers.
    BadBackground,
    /// `NA13`: `Player` is an aggregate.
    BadPlayer,
    /// `NA14 TooMany`: an object or a layer over the limit.
    TooManyNames,
    /// `NA15`: two objects of an aggregate lie on one layer.
    SameLayerAggregate,
    /// `NA16`: a legend line of no form, or a layer line without a name.
    BadLine,
    /// `RU1`: brackets, arrows and bars that don't make a rule.
    BadBracket,
    /// `RU2`: a word that means nothing where it stands.
    UnknownWord,
    /// `RU3`: the right has rows, but not those of the left.
    RowsDiffer,
    /// `RU4`: neither rows nor commands on the right.
    NothingRight,
    /// `RU5`: a cell names one object, or one property, twice.
    NameTwice,
    /// `RU6`: `no` before an aggregate.
    NoAggregate,
    /// `RU7`: a property or movement word of the right that nothing of the left decides.
    Unbound,
    /// `RU8`: a movement word in a `late` rule.
    LateMove,
    /// `RU9`: `+` without a rule before it.
    PlusAlone,
    /// `RU10`: `+` joins a late and a plain rule.
    PlusLate,
    /// `RU11`: loops that nest, don't end or don't start.
    Loop,
    /// `RU12`: an ellipsis where none can stand.
    Ellipsis,
    /// `RU13`: `random`, `randomdir` or `rigid`.
    NotInProfile,
    /// `RU14 TooMany`: a rule over the limit.
    TooManyRules,
    /// `LV1`: a character that is no name of one character.
    UnknownGlyph,
    /// `LV2`: a character that is a property.
    PropertyGlyph,
    /// `LV3`: a level wider or higher than the limit.
    TooLarge,
    /// `LV4`: LEVELS has no level.
    NoLevel,
    /// `LV5 TooMany`: a level or message over the limit.
    TooManyEntries,
    /// `WN1`: a win condition of no form.
    BadWin,
    /// `WN2 UnknownName`: a win condition names what isn't declared.
    UnknownWinName,
}

/// A cause of refusal and the line that has it, counted from 1.
#[derive(Clone, Copy, PartialEq, Eq, Debug)]
pub struct Fault {
    pub kind: FaultKind,
    pub line: u32,
}

impl FaultKind {
    /// The code of the cause, a blank and its name, as `TX1 NotUtf8`.
    pub fn words(self) -> &'static str
        ensures { result.now ≡ words_of self }
    {
        match self {
            FaultKind::NotUtf8 => "TX1 NotUtf8",
            FaultKind::TooLong => "TX2 TooLong",
            FaultKind::SectionOrder => "GM1 SectionOrder",
            FaultKind::NoSection => "GM2 NoSection",
            FaultKind::Realtime => "GM3 Realtime",
            FaultKind::TooManyReadings => "GM4 TooManyReadings",
            FaultKind::Impossible => "GM5 Impossible",
            FaultKind::BadFlickscreen => "GM6 BadFlickscreen",
            FaultKind::BadObject => "NA1 BadObject",
            FaultKind::Twice => "NA2 Twice",
            FaultKind::MixedAndOr => "NA3 MixedAndOr",
            FaultKind::UnknownName => "NA4 UnknownName",
            FaultKind::Cycle => "NA5 Cycle",
            FaultKind::AggregateInProperty => "NA6 AggregateInProperty",
            FaultKind::PropertyInAggregate => "NA7 PropertyInAggregate",
            FaultKind::AggregateInLayer => "NA8 AggregateInLayer",
            FaultKind::NoLayer => "NA9 NoLayer",
            FaultKind::NoBackground => "NA10 NoBackground",
            FaultKind::NoPlayer => "NA11 NoPlayer",
            FaultKind::BadBackground => "NA12 BadBackground",
            FaultKind::BadPlayer => "NA13 BadPlayer",
            FaultKind::TooManyNames => "NA14 TooMany",
            FaultKind::SameLayerAggregate => "NA15 SameLayerAggregate",
            FaultKind::BadLine => "NA16 BadLine",
            FaultKind::BadBracket => "RU1 BadBracket",
            FaultKind::UnknownWord => "RU2 UnknownWord",
            FaultKind::RowsDiffer => "RU3 RowsDiffer",
            FaultKind::NothingRight => "RU4 NothingRight",
            FaultKind::NameTwice => "RU5 NameTwice",
            FaultKind::NoAggregate => "RU6 NoAggregate",
            FaultKind::Unbound => "RU7 Unbound",
            FaultKind::LateMove => "RU8 LateMove",
            FaultKind::PlusAlone => "RU9 PlusAlone",
            FaultKind::PlusLate => "RU10 PlusLate",
            FaultKind::Loop => "RU11 Loop",
            FaultKind::Ellipsis => "RU12 Ellipsis",
            FaultKind::NotInProfile => "RU13 NotInProfile",
            FaultKind::TooManyRules => "RU14 TooMany",
            FaultKind::UnknownGlyph => "LV1 UnknownGlyph",
            FaultKind::PropertyGlyph => "LV2 PropertyGlyph",
            FaultKind::TooLarge => "LV3 TooLarge",
            FaultKind::NoLevel => "LV4 NoLevel",
            FaultKind::TooManyEntries => "LV5 TooMany",
            FaultKind::BadWin => "WN1 BadWin",
            FaultKind::UnknownWinName => "WN2 UnknownName",
        }
    }
}

/// As `TX1 NotUtf8`.
impl fmt::Display for FaultKind {
    ghost output = { λ kind. Some (words_of kind) };

    fn fmt<W: fmt::Write>(&self, f: &mut fmt::Formatter<W>) -> fmt::Result {
        f.write_str(self.words())
    }
}

/// As `line 3: TX1 NotUtf8`.
impl fmt::Display for Fault {
    ghost output = { λ fault. Some (fault_line fault) };

    fn fmt<W: fmt::Write>(&self, f: &mut fmt::Formatter<W>) -> fmt::Result {
        write!(f, "line {}: {}", self.line, self.kind)
    }
}
