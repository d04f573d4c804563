//! What clap matched in the words of a command line.

ghost use Rattle.std.specs.Prelude.{◌≡◌, option_map};
ghost use Rattle.clap.specs.Words.{all_of, first_of};
ghost use Rattle.ps_command.specs.Given.{is_given, rows_in, text_of, texts_of};

use clap::ArgMatches;

/// The value of an option, or of `GAME`.
pub fn value_given<'w>(matches: &ArgMatches<'w>, name: &str) -> Option<&'w str>
    ensures { text_of result ≡ first_of name.now (rows_in matches.now) }
{
    matches.get_str(name)
}

/// The values of an argument that may have several.
pub fn values_given<'m, 'w>(matches: &'m ArgMatches<'w>, name: &str) -> Option<&'m [&'w str]>
    ensures { option_map (λ words. texts_of words.now) result ≡ all_of name.now (rows_in matches.now) }
{
    matches.get_strs(name)
}

/// Whether a flag is given: clap keeps `true` for one that is, and `false` for one that isn't.
pub fn is_given(matches: &ArgMatches<'_>, name: &str) -> bool
    ensures { result ≡ is_given name.now (rows_in matches.now) }
{
    match value_given(matches, name) {
        Some(word) => word == "true",
        None => false,
    }
}
