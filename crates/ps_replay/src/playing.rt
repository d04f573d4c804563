//! Keys that are played, and what comes of each.

ghost use Rattle.std.specs.Prelude.{◌≡◌, IfOk, OnOk};
ghost use Rattle.ps_laws.specs.Fronts.{session_after};
ghost use Rattle.ps_model.specs.session.KeySteps.{key_step};
ghost use Rattle.ps_records.specs.Courses.{course_from, followed, place_of};
ghost use Rattle.ps_run.specs.GamesInPlay.{script_in};

use crate::places::place_of;
use ps_model::{Key, Memory};
use ps_records::Course;
use ps_run::GamePlay;
use ps_screen::OutputText;
use std::alloc::Global;

/// Plays the key of that number, and notes where it leads. What it writes is thrown away.
fn press(
    play: &mut GamePlay<'_>,
    key: Key,
    number: usize,
    course: &mut Course,
    output: &mut OutputText,
) -> Result<(), Memory>
    ensures script { script_in play.new ≡ script_in play.old }
    ensures session { OnOk result
        (play.new.session ≡ (key_step (script_in play.old) play.old.session key).session) }
    ensures course { OnOk result (course.new
        ≡ followed course.old number (place_of play.old.session) (place_of play.new.session)) }
{
    let before = place_of(play);
    output.clear();
    play.key(key, output)?;
    course.follow(number, before, place_of(play))?;
    Ok(())
}

/// Plays keys in a game in play, and answers what comes of them.
///
/// # Errors
///
/// `Memory`.
pub fn play_keys(
    alloc: Global,
    play: &mut GamePlay<'_>,
    keys: &[Key],
    output: &mut OutputText,
) -> Result<Course, Memory>
    ensures script { script_in play.new ≡ script_in play.old }
    ensures session { OnOk result
        (play.new.session ≡ session_after (script_in play.old) play.old.session keys.now) }
    ensures course { IfOk result (λ course.
        course ≡ course_from (script_in play.old) play.old.session keys.now) }
{
    let mut course = Course::new(alloc, place_of(play));
    for before in 0..keys.len() {
        press(play, keys[before], before + 1, &mut course, output)?;
    }
    Ok(course)
}
