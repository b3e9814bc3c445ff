//! The declarations of variables and parameters.

ghost use Rattle.std.specs.Prelude.{◌≡◌, IfOk};
ghost use Rattle.check_rules.specs.Locals as spec;
ghost use Rattle.check_rules.specs.Walks.{Reads};

use crate::frame::{Frame, Home};
use crate::names::{operand, place_by};
use crate::state::{Stage, State};
use c_type_refs::TypeRef;
use c_types::{CType, copy_ctype};
use check_operands::{Operand, Place};
use check_scopes::{Meaning, MeaningKind};
use std::alloc::{AllocError, Global};
use tick_tree::Deny;

/// What a name of this type means.
pub fn meaning(alloc: Global, kind: MeaningKind, t: &TypeRef, n: u32) -> Result<Meaning, AllocError>
    ensures { IfOk result (λ m. m ≡ spec.meaning kind t.now n) }
{
    Ok(Meaning {
        kind,
        ctype: c_type_refs::copy(alloc, t)?,
        index: n,
    })
}

// What a parameter of a list means, in the lengths behind it.
fn list_meaning(stage: Stage, t: TypeRef, frame: &Frame) -> Meaning
    ensures { result ≡ spec.list_meaning stage t frame.now }
{
    match stage {
        Stage::Function | Stage::Dollar => Meaning {
            kind: MeaningKind::Parameter,
            ctype: t,
            index: frame.number(),
        },
        Stage::Tick => Meaning {
            kind: MeaningKind::Variable,
            ctype: t,
            index: frame.inner_number(),
        },
    }
}

fn next_home(frame: &Frame, t: &TypeRef) -> Home
    ensures { result ≡ spec.next_home t.now frame.now }
{
    if frame.is_object(t) {
        Home::Object(frame.object)
    } else {
        Home::Register
    }
}

impl State {
    #[tactic(auto, unfolding(crate::specs::Locals::outer_local))]
    fn outer_local(
        &mut self,
        alloc: Global,
        line: u32,
        name: &[u8],
        t: TypeRef,
    ) -> Result<Operand, Deny>
        ensures { Reads (spec.outer_local line name.now t self.old) result self.new }
    {
        let what = meaning(alloc, MeaningKind::Variable, &t, self.frame.number())?;
        self.declare(line, name, what)?;
        let place = place_by(alloc, self.frame.number(), next_home(&self.frame, &t))?;
        self.frame.variable(&t)?;
        Ok(operand(place, t))
    }

    /// Declares a variable of a block of the function or the tick; what its name is from then on. Refused where the
    /// block has the name already: Duplicate.
    #[tactic(auto, unfolding(crate::specs::Locals::inner_local))]
    pub fn local(
        &mut self,
        alloc: Global,
        stage: Stage,
        line: u32,
        name: &[u8],
        t: TypeRef,
    ) -> Result<Operand, Deny>
        ensures { Reads (spec.local stage line name.now t self.old) result self.new }
    {
        match stage {
            Stage::Function | Stage::Dollar => self.outer_local(alloc, line, name, t),
            Stage::Tick => {
                let what = meaning(alloc, MeaningKind::Variable, &t, self.frame.inner_number())?;
                self.declare(line, name, what)?;
                let place = Place::Register(self.frame.inner);
                self.frame.inner_variable()?;
                Ok(operand(place, t))
            }
        }
    }

    /// Declares a parameter of a list, which has a name: it is visible in the lengths behind it. Refused where the list
    /// has the name already: Duplicate.
    #[tactic(auto, unfolding(crate::specs::Locals::list_parameter))]
    pub fn list_parameter(
        &mut self,
        alloc: Global,
        stage: Stage,
        line: u32,
        name: &[u8],
        t: &CType,
    ) -> Result<(), Deny>
        ensures { Reads (spec.list_parameter stage line name.now t.now self.old) result self.new }
    {
        let t = TypeRef::share(alloc, copy_ctype(alloc, t)?)?;
        let what = list_meaning(stage, t, &self.frame);
        self.declare(line, name, what)
    }
}
