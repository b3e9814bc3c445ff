//! Loads and stores.

ghost use Rattle.std.specs.Prelude.{◌≡◌, ◌≢◌, ◌+◌, ◌-◌, ◌*◌, ◌/◌, ◌%◌, ◌<◌, ◌≤◌, ℕ, true, false, None, Some, Ok, Err};
ghost use Rattle.word32.specs.declared.map.TheConstants.{ARENA, ARENA_BYTES, FUNCTION_TABLE, FUNCTION_TABLE_BYTES};
ghost use Rattle.mips_encoder.specs.Decoded as table;
ghost use Rattle.flat_memory.specs.Spaces as flat;
ghost use Rattle.flat_memory.specs.Regions.{spaces_of};
ghost use Rattle.flat_memory.specs.Map as regions;
ghost use Rattle.mips_model.specs.Accesses as accesses;
ghost use Rattle.mips_model.specs.Steps as steps;
ghost use Rattle.mips_core.specs.Core as spec;
ghost use Rattle.mips_core.specs.Core.{state_of, data_of, world_of};

use crate::arithmetic::widened;
use crate::halt::Went;
use crate::pc::Pc;
use crate::rest::Rest;
use flat_memory::Access;
use host_edge::{Ending, MachineKind, TrapKind};
use mips_encoder::{MemoryOp, Register, immediate as low_half, rs, rt};
use word32::{Width, is_aligned, loaded_part, map, stored_part};

#[inline]
fn is_within(first: u32, bytes: u32, at: u32) -> bool
    requires { first + bytes < 4294967296 }
    ensures { result ≡ regions.is_within first bytes at }
{
    at >= first && at < first + bytes
}

impl Rest {
    /// A value was loaded to a register.
    #[inline(always)]
    fn take<const ASIDE: bool>(&mut self, pc: Pc, r: Register, v: u32) -> Went
        requires ready { spec.IsReady ASIDE pc self.old }
        ensures { spec.Becomes ASIDE (spec.took r v (state_of (spec.at pc self.old))) result pc self.new }
    {
        self.write(r, v);
        let next = self.advance::<ASIDE>(pc);
        let number = r.number() as usize;
        if ASIDE {
            self.hold(number);
            Went::Pending(next)
        } else {
            Went::Loaded(number)
        }
    }

    /// A word holds what is loaded to a register.
    fn take_part<const ASIDE: bool>(
        &mut self,
        pc: Pc,
        r: Register,
        at: u32,
        width: Width,
        word: u32,
    ) -> Went
        requires ready { spec.IsReady ASIDE pc self.old }
        ensures { let s = state_of (spec.at pc self.old) in
            spec.Becomes ASIDE (steps.reads (Some word) r at width (s.recent - 1) s) result pc self.new }
    {
        if is_aligned(at, width) {
            self.take::<ASIDE>(pc, r, loaded_part(word, at, width))
        } else {
            self.end(Ending::Trap(TrapKind::Misaligned), pc)
        }
    }

    /// A word of the function table.
    fn table_word(&self, at: u32) -> u32
        requires from { FUNCTION_TABLE ≤ at }
        requires to { at < FUNCTION_TABLE + FUNCTION_TABLE_BYTES }
        ensures { result ≡ accesses.table_word_at (data_of self.now).table at }
    {
        let n = at / 4 - map::FUNCTION_TABLE / 4;
        let row = self.table.get(n / 2);
        if n % 2 == 0 { row.0 } else { row.1 }
    }

    /// A load from the arena or the function table.
    #[inline(never)]
    fn load_elsewhere<const ASIDE: bool>(
        &mut self,
        pc: Pc,
        r: Register,
        at: u32,
        width: Width,
    ) -> Went
        requires ready { spec.IsReady ASIDE pc self.old }
        requires outside { flat.load (spaces_of self.old.memory) at width ≡ Err Access.Outside }
        ensures { spec.Becomes ASIDE (spec.loading r at width (state_of (spec.at pc self.old))) result pc self.new }
    {
        let in_arena = is_within(map::ARENA, map::ARENA_BYTES, at);
        let in_table = is_within(map::FUNCTION_TABLE, map::FUNCTION_TABLE_BYTES, at);
        if in_arena {
            let word = self.arena.read(at / 4 - map::ARENA / 4);
            self.take_part::<ASIDE>(pc, r, at, width, word)
        } else if in_table {
            let word = self.table_word(at);
            self.take_part::<ASIDE>(pc, r, at, width, word)
        } else {
            self.end(Ending::Trap(TrapKind::Range), pc)
        }
    }

    #[inline(always)]
    fn load<const ASIDE: bool>(&mut self, pc: Pc, r: Register, at: u32, width: Width) -> Went
        requires ready { spec.IsReady ASIDE pc self.old }
        ensures { spec.Becomes ASIDE (spec.loading r at width (state_of (spec.at pc self.old))) result pc self.new }
    {
        match self.memory.load(at, width) {
            Ok(v) => self.take::<ASIDE>(pc, r, v),
            Err(Access::Outside) => self.load_elsewhere::<ASIDE>(pc, r, at, width),
            Err(_) => self.end(Ending::Trap(TrapKind::Misaligned), pc),
        }
    }

    /// A store to the arena, or one that is refused.
    #[inline(never)]
    fn store_elsewhere<const ASIDE: bool>(&mut self, pc: Pc, at: u32, width: Width, w: u32) -> Went
        requires ready { spec.IsReady ASIDE pc self.old }
        requires outside { flat.store (spaces_of self.old.memory) at width w ≡ Err Access.Outside }
        ensures { spec.Becomes ASIDE (spec.storing at width w (state_of (spec.at pc self.old))) result pc self.new }
    {
        let aligned = is_aligned(at, width);
        let in_arena = is_within(map::ARENA, map::ARENA_BYTES, at);
        let in_table = is_within(map::FUNCTION_TABLE, map::FUNCTION_TABLE_BYTES, at);
        if in_arena {
            if !aligned {
                return self.end(Ending::Trap(TrapKind::Misaligned), pc);
            }
            let i = at / 4 - map::ARENA / 4;
            let word = stored_part(self.arena.read(i), at, width, w);
            self.arena.write(i, word);
            Went::On(self.advance::<ASIDE>(pc))
        } else if in_table {
            if !aligned {
                return self.end(Ending::Trap(TrapKind::Misaligned), pc);
            }
            self.end(Ending::Trap(TrapKind::Range), pc)
        } else {
            self.end(Ending::Trap(TrapKind::Range), pc)
        }
    }

    #[inline(always)]
    fn store<const ASIDE: bool>(&mut self, pc: Pc, at: u32, width: Width, w: u32) -> Went
        requires ready { spec.IsReady ASIDE pc self.old }
        ensures { spec.Becomes ASIDE (spec.storing at width w (state_of (spec.at pc self.old))) result pc self.new }
    {
        match self.memory.store(at, width, w) {
            Ok(()) => { Went::On(self.advance::<ASIDE>(pc)) }
            Err(Access::Outside) => self.store_elsewhere::<ASIDE>(pc, at, width, w),
            Err(Access::Misaligned) => self.end(Ending::Trap(TrapKind::Misaligned), pc),
            Err(Access::ReadOnly) => self.end(Ending::Trap(TrapKind::Range), pc),
        }
    }

    // CODE is the operation's opcode: each is compiled by itself, and with its instruction
    #[inline(always)]
    pub(crate) fn access_memory<const ASIDE: bool, const CODE: u32>(
        &mut self,
        pc: Pc,
        op: MemoryOp,
        w: u32,
    ) -> Went
        requires ready { spec.IsReady ASIDE pc self.old }
        ensures { spec.Does ASIDE (table.memory op w) pc self.old result self.new }
    {
        let r = rt(w);
        let base = rs(w);
        if self.is_loaded::<ASIDE>(r, base, base) {
            return self.fault(MachineKind::Hazard, pc);
        }
        let at = self.register(base).wrapping_add(widened(low_half(w)));
        match op {
            MemoryOp::Lb => self.load::<ASIDE>(pc, r, at, Width::SignedByte),
            MemoryOp::Lh => self.load::<ASIDE>(pc, r, at, Width::SignedHalf),
            MemoryOp::Lw => self.load::<ASIDE>(pc, r, at, Width::Word),
            MemoryOp::Lbu => self.load::<ASIDE>(pc, r, at, Width::Byte),
            MemoryOp::Lhu => self.load::<ASIDE>(pc, r, at, Width::Half),
            MemoryOp::Sb => self.store::<ASIDE>(pc, at, Width::Byte, self.register(r)),
            MemoryOp::Sh => self.store::<ASIDE>(pc, at, Width::Half, self.register(r)),
            MemoryOp::Sw => self.store::<ASIDE>(pc, at, Width::Word, self.register(r)),
        }
    }
}
