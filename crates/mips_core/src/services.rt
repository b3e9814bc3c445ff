//! What services need of the core.

ghost use Rattle.std.specs.Prelude.{◌≡◌, ◌+◌, ◌-◌, ◌*◌, ◌/◌, ◌%◌, ◌^◌, ◌<◌, ◌≤◌, ℕ, true, None, Some};
ghost use Rattle.code_arena.specs.Arena.{Arena};
ghost use Rattle.limits.specs.declared.ops.TheConstants.{MOST_REGISTERS};
ghost use Rattle.icode_service.specs.Served.{Did, IsChosen};
ghost use Rattle.mips_model.specs.Choices.{Choice};
ghost use Rattle.mips_model.specs.CodeServices as generating;
ghost use Rattle.mips_model.specs.CodeServices.{Rows};
ghost use Rattle.mips_model.specs.State.{register};
ghost use Rattle.mips_model.specs.Steps as steps;
ghost use Rattle.mips_core.specs.Core as spec;
ghost use Rattle.mips_core.specs.Core.{state_of, world_of};

use crate::pc::Pc;
use crate::rest::Rest;
use icode_service::{BadService, Service};
use mips_encoder::Register;

impl Rest {
    /// The address of the next instruction.
    #[inline(always)]
    pub(crate) fn pc(&self) -> Pc
        ensures pc { result ≡ self.now.pc }
        ensures own { spec.at result self.now ≡ self.now }
    {
        self.pc
    }

    /// A service answers, and the run goes on.
    pub(crate) fn answer(&mut self, v: u32)
        requires on { self.old.stopped ≡ None }
        requires next { self.old.next < 4294967296 }
        ensures world { world_of self.new ≡ spec.answered v (state_of self.old).code.arena (state_of self.old) }
        ensures on { self.new.stopped ≡ None }
        ensures text { (state_of self.new).code.text ≡ (state_of self.old).code.text }
    {
        let next = self.settle(self.pc());
        self.stand(next);
        self.write(Register::V0, v);
    }

    /// A service that makes code, by the number in its register: it answers and the run goes on, or it is refused and
    /// nothing has changed.
    pub(crate) fn generate(&mut self, service: &mut Service) -> Result<u32, BadService>
        requires on { self.old.stopped ≡ None }
        requires next { self.old.next < 4294967296 }
        requires room { service.old.spills ≤ 2 ^ 63 }
        ensures served { let s = state_of self.old in (choice : Choice) × (arena : Arena) × (table : Rows)
            × IsChosen (register 2 s.d) (register 4 s.d) (register 5 s.d) (register 6 s.d) service.old choice
            × Did
            (generating.service choice (register 2 s.d) (register 4 s.d) (register 5 s.d) (register 6 s.d) service.old)
            service.old service.new s.code.arena arena s.d.table table result
            × spec.IsBehind result arena table s (world_of self.new) }
        ensures on { self.new.stopped ≡ None }
        ensures few { service.new.spills ≤ service.old.spills + MOST_REGISTERS }
        ensures text { (state_of self.new).code.text ≡ (state_of self.old).code.text }
    {
        let number = self.register(Register::V0);
        let first = self.register(Register::A0);
        let second = self.register(Register::A1);
        let third = self.register(Register::A2);
        match service.serve(
            number,
            first,
            second,
            third,
            &mut self.arena,
            &mut self.table,
        ) {
            Ok(answer) => {
                self.answer(answer);
                Ok(answer)
            }
            Err(why) => Err(why),
        }
    }
}
