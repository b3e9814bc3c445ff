//! The object space.

ghost use Rattle.std.specs.Prelude.{◌≡◌, ◌≤◌, ◌<◌, ◌+◌, ◌*◌, ◌/◌, length, MatchResult, None, Some};
ghost use Rattle.word32.specs.Space.{words_from};
ghost use Rattle.word32.specs.Space as space;
ghost use Rattle.word32.specs.declared.map.TheConstants.{OBJECTS};
ghost use Rattle.meaning_state.specs.Shared.{access_trap, loaded, stored};
ghost use Rattle.staged_meaning.specs.World.{with_shared};
ghost use Rattle.eval_state.specs.Run.{in_world, run_of, world};

use crate::state::Machine;
use host_edge::TrapKind;
use word32::{Width, is_aligned, loaded_part, map, stored_part};

// The word of the object space that holds the byte at an address.
#[inline(always)]
fn word(words: &[u32], at: u32) -> u32
    requires from { OBJECTS ≤ at }
    requires to { at < OBJECTS + 4 * length words.now }
    ensures { result ≡ words_from (OBJECTS / 4) words.now (at / 4) }
{
    words[(at / 4 - map::OBJECTS / 4) as usize]
}

// Stores at an address.
#[inline(always)]
fn put(words: &mut [u32], at: u32, width: Width, w: u32)
    requires from { OBJECTS ≤ at }
    requires to { at < OBJECTS + 4 * length words.old }
    ensures { words_from (OBJECTS / 4) words.new ≡ space.store at width w (words_from (OBJECTS / 4) words.old) }
{
    let i = (at / 4 - map::OBJECTS / 4) as usize;
    words[i] = stored_part(words[i], at, width, w);
}

impl<'a> Machine<'a> {
    /// What an access at an address loads.
    ///
    /// # Errors
    /// The trap of the access.
    #[tactic(auto, using(crate::proofs::Changes::reads))]
    pub fn load(&self, at: u32, width: Width) -> Result<u32, TrapKind>
        ensures { MatchResult result
            (λ v. (access_trap at width ≡ None) × (v ≡ loaded at width (world (run_of self.now)).shared))
            (λ kind. access_trap at width ≡ Some kind) }
    {
        if at / map::OBJECT_BYTES != map::OBJECTS / map::OBJECT_BYTES {
            return Err(TrapKind::Range);
        }
        if !is_aligned(at, width) {
            return Err(TrapKind::Misaligned);
        }
        Ok(loaded_part(word(self.parts.objects.as_slice(), at), at, width))
    }

    /// Stores a word at an address.
    ///
    /// # Errors
    /// The trap of the access; nothing was stored then.
    #[tactic(auto, using(crate::proofs::Changes::stores))]
    pub fn store(&mut self, at: u32, width: Width, w: u32) -> Result<(), TrapKind>
        ensures { MatchResult result
            (λ _. (access_trap at width ≡ None) × (run_of self.new
            ≡ in_world (with_shared (stored at width w (world (run_of self.old)).shared) (world (run_of self.old)))
            (run_of self.old)))
            (λ kind. (access_trap at width ≡ Some kind) × (self.new ≡ self.old)) }
    {
        if at / map::OBJECT_BYTES != map::OBJECTS / map::OBJECT_BYTES {
            return Err(TrapKind::Range);
        }
        if !is_aligned(at, width) {
            return Err(TrapKind::Misaligned);
        }
        put(self.parts.objects.as_mut_slice(), at, width, w);
        Ok(())
    }
}
