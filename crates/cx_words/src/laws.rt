//! A law of words. The function does nothing: its contract is the law.
ghost use Rattle.cx_words.specs.Laws.{PlainWordsAreRead};

/// Words in the form `exec -o IMAGE [--steps N] [--semantic S] UNIT`, where no name begins with `-`, ask for what they
/// say: clap takes each of them for what it is there.
///
/// Source: this project's own.
pub fn plain_words_are_read()
    ensures { PlainWordsAreRead }
{}
