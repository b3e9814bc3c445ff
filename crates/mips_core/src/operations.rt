//! The instructions that compute, one function for each row of the instruction table. Each takes the instruction's
//! word, and does what the row says that the word's instruction does, Reserved and hazards included.

ghost use Rattle.std.specs.Prelude.{◌≡◌, ◌≢◌, ◌+◌, ◌-◌, ◌*◌, ◌/◌, ◌%◌, ◌<◌, ◌≤◌, ◌||◌, ℕ, true, false, None, Some};
ghost use Rattle.mips_encoder.specs.Decoded as table;
ghost use Rattle.mips_core.specs.Core as spec;
ghost use Rattle.mips_core.specs.Core.{state_of, world_of};

use crate::arithmetic::{arithmetic, by_number, immediate, multiply_divide, shifted};
use crate::halt::Went;
use crate::pc::Pc;
use crate::rest::Rest;
use host_edge::MachineKind;
use mips_encoder::{
    ArithmeticOp, HiLo, ImmediateOp, MultiplyDivideOp, Register, ShiftOp, ShiftVariableOp,
    immediate as low_half, rd, rs, rt, shamt,
};

impl Rest {
    /// A register takes a value, where it fits, unless the table hasn't the word, or the last instruction loaded one of
    /// the three registers that its instruction names.
    #[inline(always)]
    fn give<const ASIDE: bool>(
        &mut self,
        pc: Pc,
        listed: bool,
        r: Register,
        a: Register,
        b: Register,
        v: Option<u32>,
    ) -> Went
        requires ready { spec.IsReady ASIDE pc self.old }
        ensures { let s = state_of (spec.at pc self.old) in
            spec.Acts ASIDE listed (spec.is_loaded self.old.loaded r a b) s (spec.given r v s) result pc self.new }
    {
        if !listed {
            return self.fault(MachineKind::Reserved, pc);
        }
        if self.is_loaded::<ASIDE>(r, a, b) {
            return self.fault(MachineKind::Hazard, pc);
        }
        match v {
            Some(v) => {
                let next = self.advance::<ASIDE>(pc);
                self.write(r, v);
                Went::On(next)
            }
            None => self.fault(MachineKind::Overflow, pc),
        }
    }

    /// HI and LO take values, unless the table hasn't the word, one of both was read lately, or the last instruction
    /// loaded one of these registers.
    #[inline(always)]
    fn set_halves<const ASIDE: bool>(
        &mut self,
        pc: Pc,
        listed: bool,
        a: Register,
        b: Register,
        hi: u32,
        lo: u32,
    ) -> Went
        requires ready { spec.IsReady ASIDE pc self.old }
        ensures { let k = self.old in let s = state_of (spec.at pc k) in
            spec.Acts ASIDE listed (spec.is_recent k.recent || spec.is_loaded k.loaded a b b) s
            (spec.halved hi lo s) result pc self.new }
    {
        if !listed {
            return self.fault(MachineKind::Reserved, pc);
        }
        if self.is_halves_hazard::<ASIDE>(a, b) {
            return self.fault(MachineKind::Hazard, pc);
        }
        let next = self.advance::<ASIDE>(pc);
        self.hi = hi;
        self.lo = lo;
        Went::On(next)
    }

    #[inline(always)]
    pub(crate) fn arithmetic<const ASIDE: bool>(&mut self, pc: Pc, op: ArithmeticOp, w: u32) -> Went
        requires ready { spec.IsReady ASIDE pc self.old }
        ensures { spec.Does ASIDE (table.arithmetic op w) pc self.old result self.new }
    {
        let (a, b) = (rs(w), rt(w));
        let v = arithmetic(op, self.register(a), self.register(b));
        self.give::<ASIDE>(pc, w / 64 % 32 == 0, rd(w), a, b, v)
    }

    #[inline(always)]
    pub(crate) fn immediate<const ASIDE: bool>(&mut self, pc: Pc, op: ImmediateOp, w: u32) -> Went
        requires ready { spec.IsReady ASIDE pc self.old }
        ensures { spec.Does ASIDE (table.immediate_arithmetic op w) pc self.old result self.new }
    {
        let a = rs(w);
        let v = immediate(op, self.register(a), low_half(w));
        self.give::<ASIDE>(pc, true, rt(w), a, a, v)
    }

    #[inline(always)]
    pub(crate) fn shift<const ASIDE: bool>(&mut self, pc: Pc, op: ShiftOp, w: u32) -> Went
        requires ready { spec.IsReady ASIDE pc self.old }
        ensures { spec.Does ASIDE (table.shift op w) pc self.old result self.new }
    {
        let b = rt(w);
        let v = shifted(op, self.register(b), shamt(w).bits());
        self.give::<ASIDE>(pc, w / 2097152 % 32 == 0, rd(w), b, b, Some(v))
    }

    #[inline(always)]
    pub(crate) fn shift_variable<const ASIDE: bool>(
        &mut self,
        pc: Pc,
        op: ShiftVariableOp,
        w: u32,
    ) -> Went
        requires ready { spec.IsReady ASIDE pc self.old }
        ensures { spec.Does ASIDE (table.shift_variable op w) pc self.old result self.new }
    {
        let (a, b) = (rs(w), rt(w));
        let v = shifted(by_number(op), self.register(b), self.register(a));
        self.give::<ASIDE>(pc, w / 64 % 32 == 0, rd(w), b, a, Some(v))
    }

    #[inline(always)]
    pub(crate) fn load_upper<const ASIDE: bool>(&mut self, pc: Pc, w: u32) -> Went
        requires ready { spec.IsReady ASIDE pc self.old }
        ensures { spec.Does ASIDE (table.load_upper_immediate w) pc self.old result self.new }
    {
        let r = rt(w);
        self.give::<ASIDE>(pc, w / 2097152 % 32 == 0, r, r, r, Some(w % 65536 * 65536))
    }

    #[inline(always)]
    pub(crate) fn move_from<const ASIDE: bool>(&mut self, pc: Pc, half: HiLo, w: u32) -> Went
        requires ready { spec.IsReady ASIDE pc self.old }
        ensures { spec.Does ASIDE (table.move_from half w) pc self.old result self.new }
    {
        if w / 65536 != 0 || w / 64 % 32 != 0 {
            return self.fault(MachineKind::Reserved, pc);
        }
        let r = rd(w);
        if self.is_loaded::<ASIDE>(r, r, r) {
            return self.fault(MachineKind::Hazard, pc);
        }
        let v = match half {
            HiLo::Hi => self.hi,
            HiLo::Lo => self.lo,
        };
        self.write(r, v);
        let next = self.advance::<ASIDE>(pc);
        self.set_recent(next);
        Went::Pending(next)
    }

    #[inline(always)]
    pub(crate) fn move_to<const ASIDE: bool>(&mut self, pc: Pc, half: HiLo, w: u32) -> Went
        requires ready { spec.IsReady ASIDE pc self.old }
        ensures { spec.Does ASIDE (table.move_to half w) pc self.old result self.new }
    {
        let a = rs(w);
        let v = self.register(a);
        let listed = w / 64 % 32768 == 0;
        let (hi, lo) = (self.hi, self.lo);
        match half {
            HiLo::Hi => self.set_halves::<ASIDE>(pc, listed, a, a, v, lo),
            HiLo::Lo => self.set_halves::<ASIDE>(pc, listed, a, a, hi, v),
        }
    }

    #[inline(always)]
    pub(crate) fn multiply_divide<const ASIDE: bool>(
        &mut self,
        pc: Pc,
        op: MultiplyDivideOp,
        w: u32,
    ) -> Went
        requires ready { spec.IsReady ASIDE pc self.old }
        ensures { spec.Does ASIDE (table.multiply_divide op w) pc self.old result self.new }
    {
        let (a, b) = (rs(w), rt(w));
        let v = multiply_divide(op, self.register(a), self.register(b));
        self.set_halves::<ASIDE>(pc, w / 64 % 1024 == 0, a, b, v.0, v.1)
    }
}
