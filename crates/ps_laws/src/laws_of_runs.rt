//! Laws over the definitions of readings, of keys and of runs. Each function does nothing: its contract is a law that
//! the definitions keep.

ghost use Rattle.ps_laws.specs.Stages.{MovesOneByOne, MembersOneByOne, MovesInTwoStages, MembersInTwoStages};
ghost use Rattle.ps_laws.specs.Stages.{ReadByStages, ReadOneInOther, ReadingsCounted};
ghost use Rattle.ps_laws.specs.ReadingInPieces.{HeldAtEnd, HeldIsBegun, HeldIsSilent, KeysInPieces, ReadPieceByPiece};
ghost use Rattle.ps_laws.specs.ReadingInPieces.{ReadByteByByte, OneByteMore};
ghost use Rattle.ps_laws.specs.Fronts.{FrontGrows, FrontOfOutput, FrontInPieces, FrontOfMore, OutputOfEnded};
ghost use Rattle.ps_laws.specs.Fronts.{OutputOfUnended, OutputOnceEnded, EndIsQuiet, EndStays, EndsOtherwise};
ghost use Rattle.ps_laws.specs.Fronts.{WrittenByEnding};
ghost use Rattle.ps_laws.specs.RunsNotAllowed.{NoCallBehindEnding, NoReadFaultBehindEnding, NoWantBehindEnding};
ghost use Rattle.ps_laws.specs.RunsNotAllowed.{NoWantAtIgnoredKey, NoWantBehindAllKeys, NoWantWithoutKey};
ghost use Rattle.ps_laws.specs.RunsNotAllowed.{NoMoreCalls, NoLongCall, NoCallBehindEnd, ReadsWhatWasThere};
ghost use Rattle.ps_laws.specs.RunsNotAllowed.{NoOddSizedCall, NoSecondEmptyCall, NoCallBehindEmptyOne, NoEmptyWrite};
ghost use Rattle.ps_laws.specs.RunsNotAllowed.{ReadFaultIsTold, WriteFaultIsTold, NoReadFaultUnasked};
ghost use Rattle.ps_laws.specs.RunsNotAllowed.{NoWriteFaultUnfailed, NoRunOnFailedDevices, NoWritingUnasked};
ghost use Rattle.ps_laws.specs.RunsNotAllowed.{NoEndingUnwritten, NoWriteUncounted, NoTextInPieces};
ghost use Rattle.ps_laws.specs.RunsNotAllowed.{WritesFronts, AnswersAreTrueOfTexts};
ghost use Rattle.ps_laws.specs.OneGame.{AtMostOneGame, FaultBarsGame, FaultlessIsGame, GameIsFaultless, GameOrFault};
ghost use Rattle.ps_laws.specs.OneGame.{FirstIsFault, HiddenAreBehind};
ghost use Rattle.ps_laws.specs.LevelNumbers.{FoundLevelsAreNumbered, LackedLevelsAreBeyond, FirstLevelIsStart};
ghost use Rattle.ps_laws.specs.LevelNumbers.{AnswersFromStart, AnswersAreTrueOfLevels, NumberedLevelsAreFound};

/// The readings of a rule can be made stage by stage, by directions, by moves and by members. Each stage splits all
/// that is made so far by one occurrence after the other. They are the same, in the same order, and as many as are
/// counted.
pub fn readings_by_stages()
    ensures moves { MovesOneByOne }
    ensures members { MembersOneByOne }
    ensures moves_in_two { MovesInTwoStages }
    ensures members_in_two { MembersInTwoStages }
    ensures stages { ReadByStages }
    ensures one_in_other { ReadOneInOther }
    ensures counted { ReadingsCounted }
{}

/// The bytes at the end of a piece that may begin an arrow are held. They are nothing, ESC, or ESC and `[`, and bring
/// no key as yet.
pub fn held_bytes()
    ensures at_end { HeldAtEnd }
    ensures begun { HeldIsBegun }
    ensures silent { HeldIsSilent }
{}

/// Keys that come in pieces, or byte by byte: a reader needs nothing of the bytes before but what is held of them.
pub fn keys_in_pieces()
    ensures pieces { KeysInPieces }
    ensures piece_by_piece { ReadPieceByPiece }
    ensures byte_by_byte { ReadByteByByte }
    ensures one_byte_more { OneByteMore }
{}

/// What a run has written grows with each key, and each such front is a front of the whole output, whatever keys come
/// after them.
pub fn fronts_of_output()
    ensures grows { FrontGrows }
    ensures of_output { FrontOfOutput }
    ensures in_pieces { FrontInPieces }
    ensures of_more { FrontOfMore }
{}

/// The whole output is the front of all keys, where the run has ended; where the keys end first, a line that says so
/// stands after it. Keys after the end change nothing.
pub fn ends_of_output()
    ensures ended { OutputOfEnded }
    ensures unended { OutputOfUnended }
    ensures once_ended { OutputOnceEnded }
    ensures quiet { EndIsQuiet }
    ensures stays { EndStays }
    ensures otherwise { EndsOtherwise }
    ensures by_ending { WrittenByEnding }
{}

/// Runs that aren't allowed, whatever the game. There are calls of the reader after the ending or after its end, too
/// many or too long, or with another room. There are writes of nothing, or none where something is written. There are
/// more of them than texts, where the writer takes each whole. There are answers that tell of a failure that wasn't, or
/// don't tell of one that was. There is `Memory` where nothing was to be made, and writing what isn't to be written.
pub fn runs_not_allowed()
    ensures no_call_behind_ending { NoCallBehindEnding }
    ensures no_read_fault_behind_ending { NoReadFaultBehindEnding }
    ensures no_want_behind_ending { NoWantBehindEnding }
    ensures no_want_without_key { NoWantWithoutKey }
    ensures no_want_behind_all_keys { NoWantBehindAllKeys }
    ensures no_want_at_ignored_key { NoWantAtIgnoredKey }
    ensures no_more_calls { NoMoreCalls }
    ensures no_long_call { NoLongCall }
    ensures no_call_behind_end { NoCallBehindEnd }
    ensures no_odd_sized_call { NoOddSizedCall }
    ensures no_second_empty_call { NoSecondEmptyCall }
    ensures no_call_behind_empty_one { NoCallBehindEmptyOne }
    ensures no_empty_write { NoEmptyWrite }
    ensures no_ending_unwritten { NoEndingUnwritten }
    ensures no_write_uncounted { NoWriteUncounted }
    ensures no_text_in_pieces { NoTextInPieces }
    ensures reads_what_was_there { ReadsWhatWasThere }
    ensures read_fault_is_told { ReadFaultIsTold }
    ensures write_fault_is_told { WriteFaultIsTold }
    ensures no_read_fault_unasked { NoReadFaultUnasked }
    ensures no_write_fault_unfailed { NoWriteFaultUnfailed }
    ensures no_run_on_failed_devices { NoRunOnFailedDevices }
    ensures no_writing_unasked { NoWritingUnasked }
    ensures writes_fronts { WritesFronts }
{}

/// What a right answer says of the text is true, whatever the devices tell.
pub fn answers_of_texts()
    ensures { AnswersAreTrueOfTexts }
{}

/// A text has at most one game. It has one exactly where it has no fault.
pub fn one_game()
    ensures at_most { AtMostOneGame }
    ensures barred { FaultBarsGame }
    ensures faultless { FaultlessIsGame }
    ensures of_game { GameIsFaultless }
    ensures either { GameOrFault }
    ensures first { FirstIsFault }
    ensures hidden { HiddenAreBehind }
{}

/// Each level is found for its number and for no other, and none is found where there are fewer. A run from the first
/// level is a run from the start, where the game begins with that level.
pub fn runs_from_levels()
    ensures numbered { FoundLevelsAreNumbered }
    ensures found { NumberedLevelsAreFound }
    ensures lacked { LackedLevelsAreBeyond }
    ensures first { FirstLevelIsStart }
    ensures start { AnswersFromStart }
    ensures true_of_level { AnswersAreTrueOfLevels }
{}
