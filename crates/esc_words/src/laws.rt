//! What holds of the words. The function states it, and does nothing.

ghost use Rattle.esc_words.specs.Words.{AskForOneThing};

/// Words ask for one thing at most, however they are taken for uses of options.
pub fn words_laws()
    ensures one { AskForOneThing }
{}
