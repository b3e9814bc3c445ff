//! Which row of the instruction table a word belongs to: by its opcode, and of the opcodes 0 and 1 by a second field.

ghost use Rattle.std.specs.Prelude.{◌≡◌, ◌≢◌, ◌<◌, ◌≤◌, ◌%◌, true, false, None};
ghost use Rattle.mips_encoder.specs.Decoded as table;
ghost use Rattle.mips_core.specs.Core as spec;
ghost use Rattle.mips_core.specs.Core.{state_of, world_of};

use crate::halt::Went;
use crate::pc::Pc;
use crate::rest::Rest;
use host_edge::MachineKind;
use mips_encoder::{
    ArithmeticOp, EqualityOp, HiLo, ImmediateOp, MemoryOp, MultiplyDivideOp, ShiftOp,
    ShiftVariableOp, SignTest, ZeroComparisonOp,
};

impl Rest {
    #[inline(always)]
    fn execute_regimm<const ASIDE: bool>(&mut self, pc: Pc, w: u32) -> Went
        requires ready { spec.IsReady ASIDE pc self.old }
        ensures { spec.Does ASIDE (table.of_regimm w) pc self.old result self.new }
    {
        match w / 65536 % 32 {
            0 => self.branch_on_sign::<ASIDE>(pc, SignTest::Negative, w),
            1 => self.branch_on_sign::<ASIDE>(pc, SignTest::NonNegative, w),
            16 => self.branch_on_sign_and_link::<ASIDE>(pc, SignTest::Negative, w),
            17 => self.branch_on_sign_and_link::<ASIDE>(pc, SignTest::NonNegative, w),
            _ => self.fault(MachineKind::Reserved, pc),
        }
    }

    /// A word with the opcode 0.
    #[inline(always)]
    fn execute_special<const ASIDE: bool>(&mut self, pc: Pc, w: u32) -> Went
        requires ready { spec.IsReady ASIDE pc self.old }
        ensures { spec.Executes ASIDE (table.of_special w) w pc self.old result self.new }
    {
        match w % 64 {
            0 => self.shift::<ASIDE>(pc, ShiftOp::Sll, w),
            2 => self.shift::<ASIDE>(pc, ShiftOp::Srl, w),
            3 => self.shift::<ASIDE>(pc, ShiftOp::Sra, w),
            4 => self.shift_variable::<ASIDE>(pc, ShiftVariableOp::Sllv, w),
            6 => self.shift_variable::<ASIDE>(pc, ShiftVariableOp::Srlv, w),
            7 => self.shift_variable::<ASIDE>(pc, ShiftVariableOp::Srav, w),
            8 => self.jump_register::<ASIDE>(pc, w),
            9 => self.jump_and_link_register::<ASIDE>(pc, w),
            12 => {
                if w == 12 {
                    Went::Service
                } else {
                    self.fault(MachineKind::Reserved, pc)
                }
            }
            13 => self.break_with::<ASIDE>(pc, w),
            16 => self.move_from::<ASIDE>(pc, HiLo::Hi, w),
            17 => self.move_to::<ASIDE>(pc, HiLo::Hi, w),
            18 => self.move_from::<ASIDE>(pc, HiLo::Lo, w),
            19 => self.move_to::<ASIDE>(pc, HiLo::Lo, w),
            24 => self.multiply_divide::<ASIDE>(pc, MultiplyDivideOp::Mult, w),
            25 => self.multiply_divide::<ASIDE>(pc, MultiplyDivideOp::Multu, w),
            26 => self.multiply_divide::<ASIDE>(pc, MultiplyDivideOp::Div, w),
            27 => self.multiply_divide::<ASIDE>(pc, MultiplyDivideOp::Divu, w),
            32 => self.arithmetic::<ASIDE>(pc, ArithmeticOp::Add, w),
            33 => self.arithmetic::<ASIDE>(pc, ArithmeticOp::Addu, w),
            34 => self.arithmetic::<ASIDE>(pc, ArithmeticOp::Sub, w),
            35 => self.arithmetic::<ASIDE>(pc, ArithmeticOp::Subu, w),
            36 => self.arithmetic::<ASIDE>(pc, ArithmeticOp::And, w),
            37 => self.arithmetic::<ASIDE>(pc, ArithmeticOp::Or, w),
            38 => self.arithmetic::<ASIDE>(pc, ArithmeticOp::Xor, w),
            39 => self.arithmetic::<ASIDE>(pc, ArithmeticOp::Nor, w),
            42 => self.arithmetic::<ASIDE>(pc, ArithmeticOp::Slt, w),
            43 => self.arithmetic::<ASIDE>(pc, ArithmeticOp::Sltu, w),
            // all other codes, and no two neighbours in one arm: a range is compiled to a test in front of the table
            10 | 14 | 20 | 22 | 28 | 30 | 40 => self.fault(MachineKind::Reserved, pc),
            1 | 5 | 11 | 15 | 21 | 23 | 29 | 31 | 41 => self.fault(MachineKind::Reserved, pc),
            44 | 46 | 48 | 50 | 52 | 54 | 56 | 58 | 60 | 62 => self.fault(
                MachineKind::Reserved,
                pc,
            ),
            45 | 47 | 49 | 51 | 53 | 55 | 57 | 59 | 61 | 63 => self.fault(
                MachineKind::Reserved,
                pc,
            ),
            _ => unreachable!(),
        }
    }

    /// A word with another opcode.
    #[inline(always)]
    fn execute_coded<const ASIDE: bool>(&mut self, pc: Pc, w: u32) -> Went
        requires ready { spec.IsReady ASIDE pc self.old }
        requires high { 67108864 ≤ w }
        ensures { spec.Does ASIDE (table.instr_of w) pc self.old result self.new }
    {
        match w / 67108864 {
            1 => self.execute_regimm::<ASIDE>(pc, w),
            2 => self.jump::<ASIDE>(pc, w),
            3 => self.jump_and_link::<ASIDE>(pc, w),
            4 => self.branch_on_equality::<ASIDE>(pc, EqualityOp::Beq, w),
            5 => self.branch_on_equality::<ASIDE>(pc, EqualityOp::Bne, w),
            6 => self.branch_on_zero::<ASIDE>(pc, ZeroComparisonOp::Blez, w),
            7 => self.branch_on_zero::<ASIDE>(pc, ZeroComparisonOp::Bgtz, w),
            8 => self.immediate::<ASIDE>(pc, ImmediateOp::Addi, w),
            9 => self.immediate::<ASIDE>(pc, ImmediateOp::Addiu, w),
            10 => self.immediate::<ASIDE>(pc, ImmediateOp::Slti, w),
            11 => self.immediate::<ASIDE>(pc, ImmediateOp::Sltiu, w),
            12 => self.immediate::<ASIDE>(pc, ImmediateOp::Andi, w),
            13 => self.immediate::<ASIDE>(pc, ImmediateOp::Ori, w),
            14 => self.immediate::<ASIDE>(pc, ImmediateOp::Xori, w),
            15 => self.load_upper::<ASIDE>(pc, w),
            32 => self.access_memory::<ASIDE, 32>(pc, MemoryOp::Lb, w),
            33 => self.access_memory::<ASIDE, 33>(pc, MemoryOp::Lh, w),
            35 => self.access_memory::<ASIDE, 35>(pc, MemoryOp::Lw, w),
            36 => self.access_memory::<ASIDE, 36>(pc, MemoryOp::Lbu, w),
            37 => self.access_memory::<ASIDE, 37>(pc, MemoryOp::Lhu, w),
            40 => self.access_memory::<ASIDE, 40>(pc, MemoryOp::Sb, w),
            41 => self.access_memory::<ASIDE, 41>(pc, MemoryOp::Sh, w),
            43 => self.access_memory::<ASIDE, 43>(pc, MemoryOp::Sw, w),
            // all other codes, and no two neighbours in one arm: a range is compiled to a test in front of the table
            16 | 18 | 20 | 22 | 24 | 26 | 28 | 30 | 34 | 38 => self.fault(
                MachineKind::Reserved,
                pc,
            ),
            17 | 19 | 21 | 23 | 25 | 27 | 29 | 31 | 39 | 42 => self.fault(
                MachineKind::Reserved,
                pc,
            ),
            44 | 46 | 48 | 50 | 52 | 54 | 56 | 58 | 60 | 62 => self.fault(
                MachineKind::Reserved,
                pc,
            ),
            45 | 47 | 49 | 51 | 53 | 55 | 57 | 59 | 61 | 63 => self.fault(
                MachineKind::Reserved,
                pc,
            ),
            _ => unreachable!(),
        }
    }

    /// Executes the instruction of a word, unless it is SYSCALL. It is compiled twice, and `ASIDE` tells the copies
    /// apart:
    /// one for where something is pending, and one for where nothing is.
    #[inline(always)]
    pub(crate) fn execute<const ASIDE: bool>(&mut self, pc: Pc, w: u32) -> Went
        requires ready { spec.IsReady ASIDE pc self.old }
        ensures { spec.Executes ASIDE (table.instr_of w) w pc self.old result self.new }
    {
        if w < 67108864 {
            self.execute_special::<ASIDE>(pc, w)
        } else {
            self.execute_coded::<ASIDE>(pc, w)
        }
    }
}
