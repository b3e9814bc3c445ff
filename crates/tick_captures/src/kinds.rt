//! Which kind of capture a captured word is.

ghost use Rattle.std.specs.Prelude.{◌≡◌};
ghost use Rattle.tick_captures.specs.Kinds.{word_kind};

use typed_tree::{CaptureKind, CapturedWord};

/// The kind of a captured word.
pub(crate) fn kind_of(word: CapturedWord) -> CaptureKind
    ensures { result ≡ word_kind word }
{
    match word {
        CapturedWord::Dollar => CaptureKind::Dollar,
        CapturedWord::Address => CaptureKind::Address,
    }
}
