//! Laws of expansions. Each function does nothing: its contract is the law, so that callers have it by a call.

ghost use Rattle.icode_expand.specs.Laws.{TemplatesAreShort, LengthsAreFixed, WordsAreFew};

/// A template has at most 16 words.
pub fn templates_are_short()
    ensures { TemplatesAreShort }
{}

/// How many words a template has doesn't depend on the addresses of labels.
pub fn lengths_are_fixed()
    ensures { LengthsAreFixed }
{}

/// A function has at most 16 words an op and 64 besides.
pub fn words_are_few()
    ensures { WordsAreFew }
{}
