//! What the parser found of options.

ghost use Rattle.std.specs.Prelude.{◌≡◌};
ghost use Rattle.clap.specs.Words.{found_of};
ghost use Rattle.afdx_command_words.specs.RecordingSaid.{is_said};
ghost use Rattle.afdx_command_words.specs.Said.{SaysFlag, SaysNumber};

use clap::ArgMatches;

/// The number of an option, if it is given.
pub(crate) fn number_of(matches: &ArgMatches<'_>, name: &str) -> Option<u64>
    ensures { SaysNumber (found_of matches.now) name.now result }
{
    matches.get_one::<u64>(name)
}

/// Whether an option is given that has no value.
pub(crate) fn is_given(matches: &ArgMatches<'_>, name: &str) -> bool
    ensures { SaysFlag (found_of matches.now) name.now result }
{
    matches.get_flag(name)
}

/// Whether an option has this word, if it is given.
pub(crate) fn is_word(matches: &ArgMatches<'_>, name: &str, word: &str) -> Option<bool>
    ensures { result ≡ is_said (found_of matches.now) name.now word.now }
{
    match matches.get_str(name) {
        Some(said) => Some(said == word),
        None => None,
    }
}
