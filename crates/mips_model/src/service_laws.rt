//! Laws of the choices of places. A law does nothing: its contract is the statement, so that callers have it by a call.

ghost use Rattle.mips_model.specs.ServiceLaws.{ChoicesAreLegal, AnswersAreSmall, WordsStand};

/// The places of linear scan are a legal choice.
pub fn choices_are_legal()
    ensures { ChoicesAreLegal }
{}

/// No service answers more than there are words in the arena.
pub fn answers_are_small()
    ensures { AnswersAreSmall }
{}

/// The words of a function that is finished stand where they were written, and all other words are as they were.
pub fn words_stand()
    ensures { WordsStand }
{}
