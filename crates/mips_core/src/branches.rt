//! Branches, jumps and BREAK, one function for each row of the instruction table.

ghost use Rattle.std.specs.Prelude.{◌≡◌, ◌≢◌, ◌+◌, ◌-◌, ◌*◌, ◌/◌, ◌%◌, ◌<◌, ◌≤◌, ◌||◌, ℕ, true, false, None, Some};
ghost use Rattle.mips_encoder.specs.Decoded as table;
ghost use Rattle.mips_core.specs.Core as spec;
ghost use Rattle.mips_core.specs.Core.{state_of, world_of};
ghost use Rattle.mips_model.specs.Effects.{trap_of};

use crate::arithmetic::{sign_test, zero_comparison};
use crate::halt::Went;
use crate::pc::Pc;
use crate::rest::Rest;
use host_edge::{Ending, MachineKind, TrapKind};
use mips_encoder::{
    EqualityOp, JumpOp, Register, SignTest, ZeroComparisonOp, immediate as low_half, rd, rs, rt,
};

/// The trap of a BREAK, by its code.
fn trap_kind(code: u32) -> Option<TrapKind>
    ensures { result ≡ trap_of code }
{
    match code {
        6 => Some(TrapKind::DivideOverflow),
        7 => Some(TrapKind::DivideByZero),
        16 => Some(TrapKind::Range),
        17 => Some(TrapKind::BadCall),
        18 => Some(TrapKind::BadSpec),
        19 => Some(TrapKind::BadParam),
        20 => Some(TrapKind::StackLimit),
        21 => Some(TrapKind::FrameLimit),
        22 => Some(TrapKind::SpecLimit),
        23 => Some(TrapKind::SizeLimit),
        24 => Some(TrapKind::ArenaLimit),
        25 => Some(TrapKind::TableLimit),
        _ => None,
    }
}

impl Rest {
    /// On to a target behind the delay slot, if the branch is taken, unless the table hasn't the word, it stands in a
    /// delay slot itself, or the last instruction loaded one of these registers.
    #[inline(always)]
    fn branch_to<const ASIDE: bool>(
        &mut self,
        pc: Pc,
        listed: bool,
        a: Register,
        b: Register,
        taken: bool,
        to: Pc,
    ) -> Went
        requires ready { spec.IsReady ASIDE pc self.old }
        ensures { let k = self.old in let s = state_of (spec.at pc k) in
            spec.Acts ASIDE listed (k.slot || spec.is_loaded k.loaded a b b) s
            (spec.branching taken to s) result pc self.new }
    {
        if !listed {
            return self.fault(MachineKind::Reserved, pc);
        }
        if self.is_branch_hazard::<ASIDE>(a, b, b) {
            return self.fault(MachineKind::Hazard, pc);
        }
        self.branch::<ASIDE>(pc, taken, to)
    }

    /// The same, and a register, which the instruction names too, takes the address behind the slot.
    #[inline(always)]
    fn link_to<const ASIDE: bool>(
        &mut self,
        pc: Pc,
        listed: bool,
        r: Register,
        a: Register,
        taken: bool,
        to: Pc,
    ) -> Went
        requires ready { spec.IsReady ASIDE pc self.old }
        ensures { let k = self.old in let s = state_of (spec.at pc k) in
            spec.Acts ASIDE listed (k.slot || spec.is_loaded k.loaded r a a) s
            (spec.linking r ((pc + 4 + 4) % 4294967296) taken to s) result pc self.new }
    {
        if !listed {
            return self.fault(MachineKind::Reserved, pc);
        }
        if self.is_branch_hazard::<ASIDE>(r, a, a) {
            return self.fault(MachineKind::Hazard, pc);
        }
        self.write(r, pc.address() + 8);
        self.branch::<ASIDE>(pc, taken, to)
    }

    #[inline(always)]
    pub(crate) fn jump_register<const ASIDE: bool>(&mut self, pc: Pc, w: u32) -> Went
        requires ready { spec.IsReady ASIDE pc self.old }
        ensures { spec.Does ASIDE (table.jump_register w) pc self.old result self.new }
    {
        let a = rs(w);
        let to = Pc::at(self.register(a));
        self.branch_to::<ASIDE>(pc, w / 64 % 32768 == 0, a, a, true, to)
    }

    #[inline(always)]
    pub(crate) fn jump_and_link_register<const ASIDE: bool>(&mut self, pc: Pc, w: u32) -> Went
        requires ready { spec.IsReady ASIDE pc self.old }
        ensures { spec.Does ASIDE (table.jump_and_link_register w) pc self.old result self.new }
    {
        if w / 2048 % 32 == w / 2097152 % 32 || w / 65536 % 32 != 0 {
            return self.fault(MachineKind::Reserved, pc);
        }
        let a = rs(w);
        let to = Pc::at(self.register(a));
        self.link_to::<ASIDE>(pc, w / 64 % 32 == 0, rd(w), a, true, to)
    }

    #[inline(always)]
    pub(crate) fn jump<const ASIDE: bool>(&mut self, pc: Pc, w: u32) -> Went
        requires ready { spec.IsReady ASIDE pc self.old }
        ensures { spec.Does ASIDE (table.jump JumpOp.J w) pc self.old result self.new }
    {
        let to = pc.segment_target(w % 67108864);
        self.branch_to::<ASIDE>(pc, true, Register::ZERO, Register::ZERO, true, to)
    }

    #[inline(always)]
    pub(crate) fn jump_and_link<const ASIDE: bool>(&mut self, pc: Pc, w: u32) -> Went
        requires ready { spec.IsReady ASIDE pc self.old }
        ensures { spec.Does ASIDE (table.jump JumpOp.Jal w) pc self.old result self.new }
    {
        let to = pc.segment_target(w % 67108864);
        self.link_to::<ASIDE>(pc, true, Register::RA, Register::RA, true, to)
    }

    #[inline(always)]
    pub(crate) fn branch_on_equality<const ASIDE: bool>(
        &mut self,
        pc: Pc,
        op: EqualityOp,
        w: u32,
    ) -> Went
        requires ready { spec.IsReady ASIDE pc self.old }
        ensures { spec.Does ASIDE (table.branch_on_equality op w) pc self.old result self.new }
    {
        let (a, b) = (rs(w), rt(w));
        let same = self.register(a) == self.register(b);
        let to = pc.branch_target(w);
        match op {
            EqualityOp::Beq => self.branch_to::<ASIDE>(pc, true, a, b, same, to),
            EqualityOp::Bne => self.branch_to::<ASIDE>(pc, true, a, b, !same, to),
        }
    }

    #[inline(always)]
    pub(crate) fn branch_on_zero<const ASIDE: bool>(
        &mut self,
        pc: Pc,
        op: ZeroComparisonOp,
        w: u32,
    ) -> Went
        requires ready { spec.IsReady ASIDE pc self.old }
        ensures { spec.Does ASIDE (table.branch_on_zero op w) pc self.old result self.new }
    {
        let a = rs(w);
        let taken = zero_comparison(op, self.register(a));
        self.branch_to::<ASIDE>(pc, w / 65536 % 32 == 0, a, a, taken, pc.branch_target(w))
    }

    #[inline(always)]
    pub(crate) fn branch_on_sign<const ASIDE: bool>(
        &mut self,
        pc: Pc,
        test: SignTest,
        w: u32,
    ) -> Went
        requires ready { spec.IsReady ASIDE pc self.old }
        ensures { spec.Does ASIDE (table.branch_on_sign test w) pc self.old result self.new }
    {
        let a = rs(w);
        let taken = sign_test(test, self.register(a));
        self.branch_to::<ASIDE>(pc, true, a, a, taken, pc.branch_target(w))
    }

    #[inline(always)]
    pub(crate) fn branch_on_sign_and_link<const ASIDE: bool>(
        &mut self,
        pc: Pc,
        test: SignTest,
        w: u32,
    ) -> Went
        requires ready { spec.IsReady ASIDE pc self.old }
        ensures { spec.Does ASIDE (table.branch_on_sign_and_link test w) pc self.old result self.new }
    {
        let a = rs(w);
        let taken = sign_test(test, self.register(a));
        let listed = w / 2097152 % 32 != 31;
        self.link_to::<ASIDE>(pc, listed, Register::RA, a, taken, pc.branch_target(w))
    }

    #[inline(always)]
    pub(crate) fn break_with<const ASIDE: bool>(&mut self, pc: Pc, w: u32) -> Went
        requires on { self.old.stopped ≡ None }
        ensures { spec.Does ASIDE (Some (spec.breaking (w / 64 % 1048576))) pc self.old result self.new }
    {
        match trap_kind(w / 64 % 1048576) {
            Some(kind) => self.end(Ending::Trap(kind), pc),
            None => self.fault(MachineKind::Reserved, pc),
        }
    }
}
