//! Laws over the definitions.

ghost use Rattle.afdx_command_words.specs.PlacedLaws.{WordsArePlaces};
ghost use Rattle.afdx_command_words.specs.WordLaws.{OtherWords, SaysOneThing, SomeWords};

/// A word of `--interface` says one thing at most.
pub fn says_one_thing()
    ensures { SaysOneThing }
{}

/// What some words say.
pub fn words_say()
    ensures { SomeWords }
{}

/// Some words that say nothing.
pub fn others_say_nothing()
    ensures { OtherWords }
{}

/// Where words of `--interface` or `--left` are taken, the place of an interface is what its word
/// says, if that names no switch; one that no word names has none.
pub fn words_are_places()
    ensures { WordsArePlaces }
{}
