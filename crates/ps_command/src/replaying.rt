//! Streams of keys that are played again, to say how far they get.

ghost use Rattle.std.specs.Prelude.{◌≡◌, ◌≢◌, ◌⊎◌, Err, false, true, None, Bool, IfErr, IfOk, OnOk, codes, map};
ghost use Rattle.ps_model.specs.game.Games.{faults};
ghost use Rattle.ps_model.specs.text.Faults.{first_fault};
ghost use Rattle.ps_answers.specs.TellsLevels.{Tells};
ghost use Rattle.ps_devices.specs.Devices.{Grows};
ghost use Rattle.ps_records.specs.Forms.{told_in};
ghost use Rattle.ps_command.specs.Replayed.{AreLinesOn, AreLinesOnWon, AreLinesTold, IsLineOnGame, TellsOfGivenKeys};
ghost use Rattle.ps_command.specs.Replayed.{TellsOfStreams, TellsOfUnwon, TellsOfWon, form_of, how_refused, how_told};
ghost use Rattle.ps_command.specs.Searched.{IsRefused};
ghost use Rattle.ps_command.specs.Stops.{IsUnread, StopsReplay};
ghost use Rattle.ps_command.specs.Told.{TellsInOrder};
ghost use Rattle.ps_command.specs.declared.stops.Stop.TheVariants as Stop;

use crate::after_keys::{MOST_KEYS, read_key_file, read_keys_given};
use crate::files::{STANDARD_INPUT, read_text, tell_unread};
use crate::replay_options::ReplayStreams;
use crate::reporting::report_bytes;
use crate::stops::Stop;
use ps_check::first_fault;
use ps_devices::{ByteReader, ByteWriter, RunFault, write_whole};
use ps_records::{Form, Refusal, Replay, Replayer, told_in};
use ps_report::{Detail, Format, How};
use std::rt::Files;

/// In which form replays are told.
fn form_of(asked: &ReplayStreams<'_>) -> Form
    ensures { result ≡ form_of asked.now }
{
    if asked.is_data {
        return Form::Object;
    }
    if asked.streams.len() > 1 {
        Form::NamedLines
    } else {
        Form::Lines
    }
}

/// How a text is told that is no game: by its first fault, in this form.
fn how_told(format: Format, is_named: bool) -> How
    ensures { result ≡ how_told format is_named }
{
    How {
        format,
        is_named,
        detail: Detail::Line,
        most: 1,
        counts: false,
        warns: false,
        strict: false,
    }
}

/// The same, where replays are told in this form.
fn how_refused(form: Form) -> How
    ensures { result ≡ how_refused form }
{
    match form {
        Form::Lines => how_told(Format::Text, false),
        Form::NamedLines => how_told(Format::Text, true),
        Form::Object => how_told(Format::Json, false),
    }
}

/// Says on the screen how far the keys of each of several streams get in a game, in their order: in lines for people,
/// or in an object of JSON for each. It is well where each wins the game to its end. A text that is no game is told as
/// a check tells it. A stream that can't be read is told on standard error, and doesn't end the others.
///
/// # Errors
///
/// `NotAccepted` where a stream doesn't win the game, or can't be read, or the text is no game.
#[tactic(auto, using(crate::proofs::ReplaysTold::won_of_text, crate::proofs::ReplaysTold::unwon_of_text))]
pub fn replay_asked<R: Files + AllocGlobal + Eprint, Y: Replayer, I: ByteReader, O: ByteWriter>(
    rt: &R,
    replayer: &Y,
    asked: &ReplayStreams<'_>,
    input: &mut I,
    screen: &mut O,
) -> Result<(), Stop>
    requires heard { (I.state input.old).has_failed ≡ false }
    requires well { (O.state screen.old).has_failed ≡ false }
    ensures won { OnOk result (TellsOfWon asked.now (I.state input.old).remaining
        (O.state screen.old).contents (O.state screen.new).contents) }
    ensures unwon { result ≡ Err Stop.NotAccepted → TellsOfUnwon asked.now (I.state input.old).remaining
        (O.state screen.old).contents (O.state screen.new).contents }
    ensures stopped { IfErr result (StopsReplay (O.state screen.new).has_failed) }
{
    let text = read_text(rt, asked.game, input)?;
    let streams = Streams {
        rt,
        replayer,
        form: form_of(asked),
        game: asked.game,
        text: &text,
    };
    if streams.replay_all(&asked.streams, input, screen)? {
        Ok(())
    } else {
        Err(Stop::NotAccepted)
    }
}

/// What replays streams of keys in the game of a text, and tells it.
#[derive(Drop)]
struct Streams<'s, R: Files + AllocGlobal + Eprint, Y: Replayer> {
    rt: &'s R,
    replayer: &'s Y,
    form: Form,
    /// The name of the game's text.
    game: &'s str,
    text: &'s [u8],
}

impl<'s, R: Files + AllocGlobal + Eprint, Y: Replayer> Streams<'s, R, Y> {
    /// Says of streams how far their keys get, and answers whether all win the game; or says of a text that is no game
    /// which fault it has first.
    #[tactic(auto, using(crate::proofs::ReplaysTold::streams_told, crate::proofs::ReplaysTold::refusal_told))]
    fn replay_all<I: ByteReader, O: ByteWriter>(
        &self,
        paths: &[&str],
        input: &mut I,
        screen: &mut O,
    ) -> Result<bool, Stop>
        requires heard { (I.state input.old).has_failed ≡ false }
        requires well { (O.state screen.old).has_failed ≡ false }
        ensures won { IfOk result (λ won. won ≡ true
            → TellsInOrder (AreLinesOnWon self.now.form self.now.game.now self.now.text.now)
            (map (λ path. path.now) paths.now) (O.state screen.old).contents (O.state screen.new).contents) }
        ensures told { OnOk result (TellsOfStreams self.now.form self.now.game.now self.now.text.now
            (map (λ path. path.now) paths.now) (O.state screen.old).contents (O.state screen.new).contents) }
        ensures fault { IfErr result (λ stop. stop ≢ Stop.NotAccepted) }
        ensures stopped { IfErr result (StopsReplay (O.state screen.new).has_failed) }
    {
        match first_fault(self.rt.alloc(), self.text)? {
            None => self.replay_each(paths, input, screen),
            Some(_) => {
                self.tell_refused(screen)?;
                Ok(false)
            }
        }
    }

    /// Says of a text that is no game which fault it has first.
    #[tactic(auto, using(crate::proofs::ReplaysTold::report_refused))]
    fn tell_refused<O: ByteWriter>(&self, screen: &mut O) -> Result<(), Stop>
        requires well { (O.state screen.old).has_failed ≡ false }
        requires refused { IsRefused self.now.text.now }
        ensures told { OnOk result (Tells (IsLineOnGame self.now.form self.now.game.now self.now.text.now)
            (O.state screen.old).contents (O.state screen.new).contents) }
        ensures fault { IfErr result (λ stop. stop ≢ Stop.NotAccepted) }
        ensures stopped { IfErr result (StopsReplay (O.state screen.new).has_failed) }
    {
        let how = how_refused(self.form);
        let _ = report_bytes(self.rt.alloc(), self.game, self.text, how, screen)?;
        Ok(())
    }

    /// Says of streams how far their keys get in a game, and answers whether all win it.
    fn replay_each<I: ByteReader, O: ByteWriter>(
        &self,
        paths: &[&str],
        input: &mut I,
        screen: &mut O,
    ) -> Result<bool, Stop>
        requires heard { (I.state input.old).has_failed ≡ false }
        requires well { (O.state screen.old).has_failed ≡ false }
        requires game { first_fault (faults self.now.text.now) ≡ None }
        ensures won { IfOk result (λ won. won ≡ true
            → TellsInOrder (AreLinesOnWon self.now.form self.now.game.now self.now.text.now)
            (map (λ path. path.now) paths.now) (O.state screen.old).contents (O.state screen.new).contents) }
        ensures told { OnOk result (TellsInOrder (AreLinesTold self.now.form self.now.game.now self.now.text.now)
            (map (λ path. path.now) paths.now) (O.state screen.old).contents (O.state screen.new).contents) }
        ensures fault { IfErr result (λ stop. stop ≢ Stop.NotAccepted) }
        ensures stopped { IfErr result (StopsReplay (O.state screen.new).has_failed) }
    {
        let mut all_won = true;
        for path in paths {
            let won = self.replay_file(*path, input, screen)?;
            all_won = all_won && won;
        }
        Ok(all_won)
    }

    /// Says of a stream how far its keys get, and answers whether they win the game. Nothing is said on the screen of
    /// one that can't be read. Standard input that can't be read, or has more keys than are read, ends the replays.
    #[tactic(auto, using(crate::proofs::ReplaysTold::streams_read, crate::proofs::ReplaysTold::given_told))]
    fn replay_file<I: ByteReader, O: ByteWriter>(
        &self,
        path: &str,
        input: &mut I,
        screen: &mut O,
    ) -> Result<bool, Stop>
        requires heard { (I.state input.old).has_failed ≡ false }
        requires well { (O.state screen.old).has_failed ≡ false }
        requires game { first_fault (faults self.now.text.now) ≡ None }
        ensures heard { OnOk result ((I.state input.new).has_failed ≡ false) }
        ensures well { OnOk result ((O.state screen.new).has_failed ≡ false) }
        ensures won { IfOk result (λ won. won ≡ true
            → Tells (AreLinesOnWon self.now.form self.now.game.now self.now.text.now path.now)
            (O.state screen.old).contents (O.state screen.new).contents) }
        ensures told { OnOk result (Tells (AreLinesTold self.now.form self.now.game.now self.now.text.now path.now)
            (O.state screen.old).contents (O.state screen.new).contents) }
        ensures given { path.now ≡ codes "-" → OnOk result
            (TellsOfGivenKeys self.now.form self.now.game.now self.now.text.now path.now
            (I.state input.old).remaining (I.state input.new).remaining
            (O.state screen.old).contents (O.state screen.new).contents) }
        ensures fault { IfErr result (λ stop. stop ≢ Stop.NotAccepted) }
        ensures stopped { IfErr result (StopsReplay (O.state screen.new).has_failed) }
    {
        if path == STANDARD_INPUT {
            let keys = read_keys_given(self.rt.alloc(), input)?;
            return self.replay_keys(path, &keys, screen);
        }
        match read_key_file(self.rt, path) {
            Ok(keys) => self.replay_if_few(path, &keys, screen),
            Err(error) => {
                tell_unread(self.rt, path, error)?;
                Ok(false)
            }
        }
    }

    /// The same of keys that a file has, if they aren't more than are read.
    #[tactic(auto, using(crate::proofs::ReplaysTold::streams_read))]
    fn replay_if_few<O: ByteWriter>(
        &self,
        path: &str,
        keys: &[u8],
        screen: &mut O,
    ) -> Result<bool, Stop>
        requires well { (O.state screen.old).has_failed ≡ false }
        requires game { first_fault (faults self.now.text.now) ≡ None }
        ensures well { OnOk result ((O.state screen.new).has_failed ≡ false) }
        ensures won { IfOk result (λ won. won ≡ true
            → Tells (AreLinesOnWon self.now.form self.now.game.now self.now.text.now path.now)
            (O.state screen.old).contents (O.state screen.new).contents) }
        ensures told { OnOk result (Tells (AreLinesTold self.now.form self.now.game.now self.now.text.now path.now)
            (O.state screen.old).contents (O.state screen.new).contents) }
        ensures fault { IfErr result (λ stop. stop ≢ Stop.NotAccepted) }
        ensures stopped { IfErr result (StopsReplay (O.state screen.new).has_failed) }
    {
        if keys.len() > MOST_KEYS {
            self.tell_too_many(path)?;
            return Ok(false);
        }
        self.replay_keys(path, keys, screen)
    }

    /// Says how far keys get, and answers whether they win the game.
    #[tactic(auto, using(crate::proofs::ReplaysTold::lines_told))]
    fn replay_keys<O: ByteWriter>(
        &self,
        path: &str,
        keys: &[u8],
        screen: &mut O,
    ) -> Result<bool, Stop>
        requires well { (O.state screen.old).has_failed ≡ false }
        requires game { first_fault (faults self.now.text.now) ≡ None }
        ensures well { OnOk result ((O.state screen.new).has_failed ≡ false) }
        ensures told { IfOk result (λ won.
            Tells (AreLinesOn self.now.form self.now.game.now self.now.text.now won path.now keys.now)
            (O.state screen.old).contents (O.state screen.new).contents) }
        ensures fault { IfErr result (λ stop. stop ≢ Stop.NotAccepted) }
        ensures stopped { IfErr result (StopsReplay (O.state screen.new).has_failed) }
    {
        let replay = match self.replayer.replay(self.rt.alloc(), self.text, keys) {
            Ok(replay) => replay,
            Err(Refusal::Memory) => return Err(Stop::Run(RunFault::Memory)),
            // The text has no fault.
            Err(Refusal::Refused(_)) => unreachable!(),
        };
        self.tell_replay(path, &replay, screen)?;
        Ok(replay.is_won())
    }

    /// Tells a replay of the stream of that name.
    fn tell_replay<O: ByteWriter>(
        &self,
        path: &str,
        replay: &Replay,
        screen: &mut O,
    ) -> Result<(), Stop>
        requires well { (O.state screen.old).has_failed ≡ false }
        ensures well { OnOk result ((O.state screen.new).has_failed ≡ false) }
        ensures told { OnOk result (Grows (O.state screen.old).contents (O.state screen.new).contents
            (told_in self.now.form self.now.game.now path.now replay.now)) }
        ensures fault { IfErr result (λ stop. stop ≢ Stop.NotAccepted) }
        ensures stopped { IfErr result (StopsReplay (O.state screen.new).has_failed) }
    {
        let told = told_in(self.rt.alloc(), self.form, self.game, path, replay)?;
        match write_whole(told.as_bytes(), screen) {
            Ok(()) => Ok(()),
            Err(_) => Err(Stop::Run(RunFault::Write)),
        }
    }

    /// Tells on standard error that a stream has more keys than are read.
    fn tell_too_many(&self, path: &str) -> Result<(), Stop>
        ensures fault { IfErr result (λ stop. stop ≢ Stop.NotAccepted) }
        ensures unread { IfErr result IsUnread }
    {
        let line = format!(in self.rt.alloc(); "{path}: more keys than are read")?;
        let _ = self.rt.eprintln(line);
        Ok(())
    }
}
