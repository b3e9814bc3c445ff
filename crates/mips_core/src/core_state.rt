//! A machine without its services.

ghost use Rattle.std.specs.Prelude.{◌≡◌, ◌≢◌, ◌+◌, ◌-◌, ◌*◌, ◌/◌, ◌%◌, ◌^◌, ◌<◌, ◌≤◌, ℕ, false, length, IfOk, IfErr};
ghost use Rattle.std.specs.Prelude.{IfSome, Ok, Err, None, Some, []};
ghost use Rattle.limits.specs.declared.ops.TheConstants.{MOST_REGISTERS};
ghost use Rattle.code_arena.specs.Arena.{Arena};
ghost use Rattle.icode_service.specs.Served.{Did, IsChosen};
ghost use Rattle.mips_model.specs.Choices.{Choice};
ghost use Rattle.mips_model.specs.CodeServices as generating;
ghost use Rattle.mips_model.specs.CodeServices.{Rows};
ghost use Rattle.mips_model.specs.State as model;
ghost use Rattle.mips_model.specs.State.{register};
ghost use Rattle.mips_model.specs.Run.{first_state};
ghost use Rattle.mips_core.specs.Core as spec;
ghost use Rattle.mips_core.specs.Core.{state_of, data_of, world_of};

use crate::halt::Halt;
use crate::rest::Rest;
use crate::table::number;
use code_arena::{CodeArena, FunctionRows};
use flat_memory::{Memory, make_room, replace};
use icode_service::{BadService, Service};
use image_file::Image;
use mips_encoder::Register;
use std::alloc::{AllocError, Global};
use std::marker::Model;

/// The machine but for its services: the words of its text, which never change, and the rest, whose memory has them
/// too.
pub struct Core {
    text: Vec<u32>,
    rest: Rest,
}

impl Drop for Core {
    fn drop(self) {
        let Core { text: _, rest: _ } = self;
    }
}

impl Model for Core {
    ghost use Rattle.std.specs.Prelude.{◌≡◌, ◌≤◌, length};
    ghost use Rattle.word32.specs.declared.map.TheConstants.{TEXT_WORDS};
    ghost use Rattle.flat_memory.specs.Spaces.{text_of};
    ghost use Rattle.mips_core.specs.Core.{CoreKept, state_of};

    ghost Value = { CoreKept };

    ghost view = { λ m. m.rest };

    ghost invariant = { λ m. (text_of m.text.items ≡ (state_of m.rest).code.text) ×
        (length m.text.items ≤ TEXT_WORDS) };
}

impl Core {
    /// The machine in its first state. It takes all the memory that it ever needs.
    ///
    /// # Errors
    /// Where memory is wanting; nothing was made then.
    pub fn new(alloc: Global, image: &Image) -> Result<Core, AllocError>
        ensures state { IfOk result
            (λ m. state_of m ≡ first_state image.now (record { bytes = []; failing = false }) []) }
        ensures on { IfOk result (λ m. m.stopped ≡ None) }
    {
        let text = image.text().to_vec(alloc)?;
        let memory = Memory::new(alloc, image.text(), image.bytes())?;
        let arena = CodeArena::new(alloc)?;
        let mut table = FunctionRows::new(alloc)?;
        number(&mut table, image.functions());
        Ok(Core {
            text,
            rest: Rest::begun(image.entry(), memory, arena, table),
        })
    }

    /// The machine in its first state with another image, in the memory that it has.
    ///
    /// # Errors
    /// Where memory is wanting for a longer text; nothing has changed then.
    pub fn load(&mut self, image: &Image) -> Result<(), AllocError>
        ensures state { IfOk result
            (λ _. state_of self.new ≡ first_state image.now (record { bytes = []; failing = false }) []) }
        ensures on { IfOk result (λ _. self.new.stopped ≡ None) }
        ensures kept { IfErr result (λ _. self.new ≡ self.old) }
    {
        make_room(&mut self.text, image.text().len())?;
        self.rest.reset(image)?;
        replace(&mut self.text, image.text());
        Ok(())
    }

    /// The value of a register.
    #[inline(always)]
    pub fn register(&self, r: Register) -> u32
        ensures { result ≡ model.register r (data_of self.now) }
    {
        self.rest.register(r)
    }

    /// Why the machine has stopped, if it has.
    #[inline(always)]
    pub fn stopped(&self) -> Option<Halt>
        ensures { result ≡ self.now.stopped }
    {
        self.rest.stopped
    }

    /// Executes up to n instructions until the machine stops or a SYSCALL is next, and answers how many of n are left.
    #[inline(never)]
    pub fn go_on(&mut self, n: u64) -> u64
        requires on { self.old.stopped ≡ None }
        ensures within { result ≤ n }
        ensures ran { spec.GoesOn (n - result) self.old self.new }
        ensures pauses { spec.Pauses result self.new }
        ensures next { result ≢ 0 → self.new.stopped ≡ None → self.new.next < 4294967296 }
    {
        self.rest.go_on(&self.text, n)
    }

    /// The address of the next instruction.
    pub fn pc(&self) -> u32
        ensures { result ≡ self.now.pc }
    {
        self.rest.pc().address()
    }

    /// Whether a SYSCALL would be a hazard: it reads and writes its number, its arguments and its answer.
    pub fn is_service_hazard(&self) -> bool
        ensures { result ≡ spec.is_service_hazard (state_of self.now) }
    {
        let loaded = self.rest.loaded;
        loaded == 2 || loaded == 4 || loaded == 5 || loaded == 6
    }

    /// A service answers, and the run goes on.
    pub fn answer(&mut self, v: u32)
        requires on { self.old.stopped ≡ None }
        requires next { self.old.next < 4294967296 }
        ensures world { world_of self.new ≡ spec.answered v (state_of self.old).code.arena (state_of self.old) }
        ensures on { self.new.stopped ≡ None }
    {
        self.rest.answer(v);
    }

    /// A service that makes code, by the number in its register: it answers and the run goes on, or it is refused and
    /// nothing has changed.
    pub fn generate(&mut self, service: &mut Service) -> Result<u32, BadService>
        requires on { self.old.stopped ≡ None }
        requires next { self.old.next < 4294967296 }
        requires room { service.old.spills ≤ 2 ^ 63 }
        ensures served { let s = state_of self.old in (choice : Choice) × (arena : Arena) × (table : Rows)
            × IsChosen (register 2 s.d) (register 4 s.d) (register 5 s.d) (register 6 s.d) service.old choice
            × Did
            (generating.service choice (register 2 s.d) (register 4 s.d) (register 5 s.d) (register 6 s.d) service.old)
            service.old service.new s.code.arena arena s.d.table table result
            × spec.IsBehind result arena table s (world_of self.new) }
        ensures on { self.new.stopped ≡ None }
        ensures few { service.new.spills ≤ service.old.spills + MOST_REGISTERS }
    {
        self.rest.generate(service)
    }
}
