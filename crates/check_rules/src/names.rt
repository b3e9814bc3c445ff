//! Names: their declarations, and those of the library.

ghost use Rattle.std.specs.Prelude.{◌≡◌, IfOk};
ghost use Rattle.check_rules.specs.Names as spec;
ghost use Rattle.check_rules.specs.Walks.{Reads};

use crate::frame::Home;
use crate::state::State;
use c_type_refs::TypeRef;
use check_operands::{Operand, Place};
use check_scopes::{DeclareFault, Meaning, MeaningKind};
use sqlite_items::Boxed;
use std::alloc::{AllocError, Global};
use tick_tree::{Deny, FaultKind, refused};
use typed_tree::Expr;

/// What stands at this place, which is no literal 0.
pub fn operand(place: Place, ctype: TypeRef) -> Operand
    ensures { result ≡ spec.operand place ctype }
{
    Operand {
        place,
        ctype,
        zero: false,
    }
}

/// Where a variable of the function of this number stands, by its home.
pub fn place_by(alloc: Global, n: u32, home: Home) -> Result<Place, AllocError>
    ensures { IfOk result (λ p. p ≡ spec.place_by n home) }
{
    match home {
        Home::Register => Ok(Place::Register(n)),
        Home::Object(at) => Ok(Place::Memory(Boxed::new(alloc, Expr::Frame(at))?)),
    }
}

impl State {
    /// Gives a name a meaning in the innermost scope. Refused where that scope has it: Duplicate.
    #[tactic(auto, unfolding(crate::specs::Names::declare))]
    pub fn declare(&mut self, line: u32, name: &[u8], what: Meaning) -> Result<(), Deny>
        ensures { Reads (spec.declare line name.now what self.old) result self.new }
    {
        match self.scopes.declare(name, what) {
            Ok(()) => Ok(()),
            Err(DeclareFault::Taken) => refused(FaultKind::Duplicate, line),
            Err(DeclareFault::NoMemory) => Err(Deny::NoMemory),
        }
    }

    /// The library function that a name is, by its number, with its type.
    #[tactic(auto, unfolding(crate::specs::Names::library))]
    pub fn library(&self, alloc: Global, name: &[u8]) -> Result<Option<(u32, TypeRef)>, AllocError>
        ensures { IfOk result (λ found. found ≡ spec.library self.now.scopes name.now) }
    {
        let Some(m) = self.scopes.find(name) else {
            return Ok(None);
        };
        match m.kind {
            MeaningKind::Library => Ok(Some((m.index, c_type_refs::copy(alloc, &m.ctype)?))),
            _ => Ok(None),
        }
    }
}
