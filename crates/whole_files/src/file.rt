//! A whole file.
ghost use Rattle.std.specs.Prelude.{◌≡◌, ◌<◌, ◌^◌, ◌≢◌, true, Some, List, ℕ, IfOk};
ghost use Rattle.whole_files.specs.File.{IsLoaded, LoadCause};

use host_edge::{LoadFault, Store};
use std::alloc::{AllocError, Global};

/// What a load of a whole file gives.
#[derive(Drop)]
pub enum Loaded {
    /// Its bytes.
    Whole(Vec<u8>),
    /// It is longer than it may be.
    TooLongFile,
    /// The store failed.
    FailedFile,
}

/// The whole file, which may have so many bytes; of a longer one that byte more is read that tells it.
///
/// # Errors
/// Where memory is wanting.
pub fn load<S: Store>(
    alloc: Global,
    store: &mut S,
    file: &str,
    longest: usize,
) -> Result<Loaded, AllocError>
    requires { longest < 2 ^ 40 }
    ensures loaded { IfOk result (IsLoaded (S.file store.old file.now) longest) }
    ensures same { (q : List ℕ) → S.file store.new q ≡ S.file store.old q }
    ensures cause { IfOk result (LoadCause (S.faults store.old) (S.faults store.new)) }
    ensures steady { IfOk result (λ loaded. S.steady store.old ≡ true → (f : List ℕ) →
        S.file store.old file.now ≡ Some (Some f) → loaded ≢ Loaded.FailedFile) }
{
    let mut bytes = Vec::new(alloc);
    match store.load(file, &mut bytes, longest + 1) {
        Ok(()) => {
            if bytes.len() > longest {
                Ok(Loaded::TooLongFile)
            } else {
                Ok(Loaded::Whole(bytes))
            }
        }
        Err(LoadFault::Failed) => Ok(Loaded::FailedFile),
        Err(LoadFault::NoMemory) => Err(AllocError),
    }
}
