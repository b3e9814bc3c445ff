//! The registers, the memory and the control of a machine: all of it but the text that is fetched.

ghost use Rattle.std.specs.Prelude.{◌≡◌, ◌≢◌, ◌+◌, ◌-◌, ◌*◌, ◌/◌, ◌%◌, ◌<◌, ◌≤◌, ℕ, true, false, length, IfOk, IfErr};
ghost use Rattle.std.specs.Prelude.{Bool, IfSome, Ok, Err, None, Some, []};
ghost use Rattle.limits.specs.declared.program.TheConstants.{MOST_FUNCTIONS};
ghost use Rattle.flat_memory.specs.Regions.{spaces_of};
ghost use Rattle.code_arena.specs.Kept.{arena_of, rows_of};
ghost use Rattle.code_arena.specs.Rows as rows;
ghost use Rattle.image_file.specs.Image.{IsImage};
ghost use Rattle.mips_model.specs.State as model;
ghost use Rattle.mips_model.specs.Run.{first_state, row_of};
ghost use Rattle.mips_model.specs.Steps as steps;
ghost use Rattle.mips_core.specs.Core as spec;
ghost use Rattle.mips_core.specs.Core.{state_of, data_of, world_of};

use crate::halt::{Halt, Went};
use crate::pc::Pc;
use crate::table::number;
use code_arena::{CodeArena, FunctionRows};
use flat_memory::Memory;
use host_edge::{Ending, MachineKind};
use image_file::{FunctionEntry, Image};
use mips_encoder::Register;
use std::alloc::{AllocError, Global};
use std::marker::Model;

/// The machine but for its services and the text that it fetches.
pub(crate) struct Rest {
    // first, so that one pointer serves for them and for the rest
    pub(crate) registers: [u32; 32],
    pub(crate) pc: Pc,
    // where the run goes on behind a delay slot, if the next instruction stands in one
    pub(crate) target: Pc,
    pub(crate) loaded: u32,
    pub(crate) recent: u32,
    pub(crate) slot: bool,
    // where it isn't set, nothing was loaded, HI and LO may be set, and no delay slot is next
    pub(crate) pending: bool,
    pub(crate) hi: u32,
    pub(crate) lo: u32,
    pub(crate) memory: Memory,
    pub(crate) arena: CodeArena,
    pub(crate) table: FunctionRows,
    pub(crate) stopped: Option<Halt>,
}

impl Drop for Rest {
    fn drop(self) {
        let Rest {
            pc: _,
            target: _,
            loaded: _,
            recent: _,
            slot: _,
            pending: _,
            registers: _,
            hi: _,
            lo: _,
            memory: _,
            arena: _,
            table: _,
            stopped: _,
        } = self;
    }
}

impl Model for Rest {
    ghost use Rattle.std.specs.Prelude.{◌≡◌, slice_index};
    ghost use Rattle.mips_core.specs.Core.{CoreKept, IsCore, IsSettled, next_of};

    ghost Value = { CoreKept };

    ghost view = { λ m. record {
      registers = m.registers;
      hi = m.hi;
      lo = m.lo;
      pc = m.pc;
      next = next_of m.slot m.target m.pc;
      loaded = m.loaded;
      recent = m.recent;
      slot = m.slot;
      memory = m.memory;
      arena = m.arena;
      table = m.table;
      stopped = m.stopped;
    } };

    ghost invariant = { λ m. IsCore (record {
      registers = m.registers;
      hi = m.hi;
      lo = m.lo;
      pc = m.pc;
      next = next_of m.slot m.target m.pc;
      loaded = m.loaded;
      recent = m.recent;
      slot = m.slot;
      memory = m.memory;
      arena = m.arena;
      table = m.table;
      stopped = m.stopped;
    }) × ((slice_index m.registers 0 ≡ 0) × IsSettled m.pending m.slot m.loaded m.recent) };
}

impl Rest {
    /// The first state.
    pub(crate) fn begun(entry: u32, memory: Memory, arena: CodeArena, table: FunctionRows) -> Rest
        requires { entry < 4294967292 }
        ensures state { state_of result ≡ spec.begun entry (spaces_of memory) (arena_of arena) (rows_of table) }
        ensures on { result.stopped ≡ None }
    {
        Rest {
            registers: [0; 32],
            hi: 0,
            lo: 0,
            pc: Pc::at(entry),
            target: Pc::at(0),
            loaded: 0,
            recent: 0,
            slot: false,
            pending: false,
            memory,
            arena,
            table,
            stopped: None,
        }
    }

    /// The first state with another image, in the memory that there is.
    ///
    /// # Errors
    /// Where memory is wanting for a longer text; nothing has changed then.
    pub(crate) fn reset(&mut self, image: &Image) -> Result<(), AllocError>
        ensures state { IfOk result
            (λ _. state_of self.new ≡ first_state image.now (record { bytes = []; failing = false }) []) }
        ensures on { IfOk result (λ _. self.new.stopped ≡ None) }
        ensures kept { IfErr result (λ _. self.new ≡ self.old) }
    {
        self.memory.reset(image.text(), image.bytes())?;
        self.arena.reset();
        self.table.reset();
        number(&mut self.table, image.functions());
        self.restart(image.entry());
        Ok(())
    }

    // The registers and the control of the first state; memory, arena and table stay.
    fn restart(&mut self, entry: u32)
        requires { entry < 4294967292 }
        ensures state { state_of self.new
            ≡ spec.begun entry (spaces_of self.old.memory) (arena_of self.old.arena) (rows_of self.old.table) }
        ensures on { self.new.stopped ≡ None }
    {
        self.registers = [0; 32];
        self.hi = 0;
        self.lo = 0;
        self.pc = Pc::at(entry);
        self.target = Pc::at(0);
        self.loaded = 0;
        self.recent = 0;
        self.slot = false;
        self.pending = false;
        self.stopped = None;
    }

    /// The value of a register.
    #[inline(always)]
    pub(crate) fn register(&self, r: Register) -> u32
        ensures { result ≡ model.register r (data_of self.now) }
    {
        self.registers[r.number() as usize]
    }

    /// Writes a register.
    #[inline(always)]
    pub(crate) fn write(&mut self, r: Register, v: u32)
        ensures world { world_of self.new ≡ spec.wrote r v (world_of self.old) }
        ensures at { (pc : ℕ) → world_of (spec.at pc self.new) ≡ spec.wrote r v (world_of (spec.at pc self.old)) }
    {
        self.registers[r.number() as usize] = v;
        self.registers[0] = 0;
    }

    /// The next instruction stands at this address.
    #[inline(always)]
    pub(crate) fn stand(&mut self, pc: Pc)
        ensures core { self.new ≡ spec.at pc self.old }
        ensures next { pc < 4294967288 → self.new.next < 4294967296 }
    {
        self.pc = pc;
    }

    /// The program ends.
    #[cold]
    #[inline(never)]
    pub(crate) fn end(&mut self, e: Ending, pc: Pc) -> Went
        ensures { (aside : Bool) →
            spec.Becomes aside (steps.ended (spec.ends e) (state_of (spec.at pc self.old))) result pc self.new }
    {
        self.stopped = Some(Halt::Ended(e));
        Went::Stopped
    }

    /// The machine refuses the next instruction.
    #[cold]
    #[inline(never)]
    pub(crate) fn fault(&mut self, kind: MachineKind, pc: Pc) -> Went
        ensures becomes { (aside : Bool) →
            spec.Becomes aside (steps.faulted kind (state_of (spec.at pc self.old))) result pc self.new }
        ensures world { world_of (spec.at pc self.new) ≡ steps.faulted kind (state_of (spec.at pc self.old)) }
        ensures went { (result ≡ Went.Stopped) × (self.new.stopped ≢ None) }
    {
        self.stopped = Some(Halt::Fault(kind, pc.address()));
        Went::Stopped
    }
}
