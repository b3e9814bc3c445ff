//! Ops that compute: constants, copies, operators, and the checks of divisions.

ghost use Rattle.std.specs.Prelude.{◌≡◌, ◌+◌, ◌++◌, ◌≤◌, ◌∷◌, [], length};
ghost use Rattle.mips_encoder.specs.Table.{word_of};
ghost use Rattle.mips_assembly.specs.Assembly as assembly;
ghost use Rattle.icode_templates.specs.Templates.{in_code, in_two_code, out_code};
ghost use Rattle.icode_templates.specs.Templates.{bin_core as core_of_bin, un_core as core_of_un, division_check};
ghost use Rattle.icode_templates.specs.Templates.{trap_if_zero as trapping_if_zero};
ghost use Rattle.icode_templates.specs.Words.{words};
ghost use Rattle.icode_templates.specs.Seen.{spot_seen};

use crate::snippet::Snippet;
use crate::spot::Spot;
use icode_ops::{BinKind, UnKind};
use mips_assembly::{
    addiu, addu, and, andi, bne, div, divu, lui, mfhi, mflo, mult, nop, nor, or, sll, sllv, slt,
    sltiu, sltu, sra, srav, srlv, subu, trap, xor, xori,
};
use mips_encoder::{Instr, Register};

const T8: Register = Register::T8;

const T9: Register = Register::T9;

const AT: Register = Register::AT;

const ZERO: Register = Register::ZERO;

#[tactic(auto, using(crate::proofs::Appended::words_append))]
impl Snippet {
    // Two instructions.
    fn push_two(&mut self, first: Instr, second: Instr)
        requires { length self.old ≤ 30 }
        ensures words { self.new ≡ self.old ++ word_of first ∷ word_of second ∷ [] }
        ensures len { length self.new ≡ length self.old + 2 }
    {
        self.push(first);
        self.push(second);
    }

    // The operator on `$t8` and `$t9`.
    fn bin_core(&mut self, kind: BinKind)
        requires { length self.old ≤ 30 }
        ensures words { self.new ≡ self.old ++ words (core_of_bin kind) }
        ensures len { length self.new ≤ length self.old + 2 }
    {
        match kind {
            BinKind::Add => self.push(addu(T8, T8, T9)),
            BinKind::Subtract => self.push(subu(T8, T8, T9)),
            BinKind::Multiply => self.push_two(mult(T8, T9), mflo(T8)),
            BinKind::DivideSigned => self.push_two(div(T8, T9), mflo(T8)),
            BinKind::DivideUnsigned => self.push_two(divu(T8, T9), mflo(T8)),
            BinKind::RemainderSigned => self.push_two(div(T8, T9), mfhi(T8)),
            BinKind::RemainderUnsigned => self.push_two(divu(T8, T9), mfhi(T8)),
            BinKind::And => self.push(and(T8, T8, T9)),
            BinKind::Or => self.push(or(T8, T8, T9)),
            BinKind::Xor => self.push(xor(T8, T8, T9)),
            BinKind::ShiftLeft => self.push(sllv(T8, T8, T9)),
            BinKind::ShiftRightSigned => self.push(srav(T8, T8, T9)),
            BinKind::ShiftRightUnsigned => self.push(srlv(T8, T8, T9)),
            BinKind::Equal => self.push_two(xor(T8, T8, T9), sltiu(T8, T8, 1)),
            BinKind::NotEqual => self.push_two(xor(T8, T8, T9), sltu(T8, ZERO, T8)),
            BinKind::LessSigned => self.push(slt(T8, T8, T9)),
            BinKind::LessUnsigned => self.push(sltu(T8, T8, T9)),
            BinKind::LessOrEqualSigned => self.push_two(slt(T8, T9, T8), xori(T8, T8, 1)),
            BinKind::LessOrEqualUnsigned => self.push_two(sltu(T8, T9, T8), xori(T8, T8, 1)),
            BinKind::GreaterSigned => self.push(slt(T8, T9, T8)),
            BinKind::GreaterUnsigned => self.push(sltu(T8, T9, T8)),
            BinKind::GreaterOrEqualSigned => self.push_two(slt(T8, T8, T9), xori(T8, T8, 1)),
            BinKind::GreaterOrEqualUnsigned => self.push_two(sltu(T8, T8, T9), xori(T8, T8, 1)),
        }
    }

    // The operator on `$t8`.
    fn un_core(&mut self, kind: UnKind)
        requires { length self.old ≤ 30 }
        ensures words { self.new ≡ self.old ++ words (core_of_un kind) }
        ensures len { length self.new ≤ length self.old + 2 }
    {
        match kind {
            UnKind::Negate => self.push(subu(T8, ZERO, T8)),
            UnKind::Complement => self.push(nor(T8, T8, ZERO)),
            UnKind::IsZero => self.push(sltiu(T8, T8, 1)),
            UnKind::SignedByte => self.push_two(sll(T8, T8, 24), sra(T8, T8, 24)),
            UnKind::Byte => self.push(andi(T8, T8, 255)),
            UnKind::SignedHalf => self.push_two(sll(T8, T8, 16), sra(T8, T8, 16)),
            UnKind::Half => self.push(andi(T8, T8, 65535)),
        }
    }

    /// Puts a word into a spot.
    pub(crate) fn put_constant(&mut self, to: &Spot, word: u32)
        requires { length self.old ≤ 16 }
        ensures words { self.new ≡ self.old ++
            words (assembly.constant assembly.t8 word ++ out_code (spot_seen to.now)) }
        ensures len { length self.new ≤ length self.old + 5 }
    {
        self.constant(T8, word);
        self.bring_out(to);
    }

    /// Copies a value.
    pub(crate) fn copy(&mut self, to: &Spot, from: &Spot)
        requires { length self.old ≤ 16 }
        ensures words { self.new ≡ self.old ++ words (in_code (spot_seen from.now) ++ out_code (spot_seen to.now)) }
        ensures len { length self.new ≤ length self.old + 7 }
    {
        self.bring_in(from);
        self.bring_out(to);
    }

    /// Applies an operator to two operands.
    pub(crate) fn apply_two(&mut self, kind: BinKind, to: &Spot, left: &Spot, right: &Spot)
        requires { length self.old ≤ 16 }
        ensures words { self.new ≡ self.old ++
            words (in_two_code (spot_seen left.now) (spot_seen right.now) ++
            (core_of_bin kind ++ out_code (spot_seen to.now))) }
        ensures len { length self.new ≤ length self.old + 12 }
    {
        self.bring_two_in(left, right);
        self.bin_core(kind);
        self.bring_out(to);
    }

    /// Applies an operator to one operand.
    pub(crate) fn apply_one(&mut self, kind: UnKind, to: &Spot, from: &Spot)
        requires { length self.old ≤ 16 }
        ensures words { self.new ≡ self.old ++
            words (in_code (spot_seen from.now) ++ (core_of_un kind ++ out_code (spot_seen to.now))) }
        ensures len { length self.new ≤ length self.old + 9 }
    {
        self.bring_in(from);
        self.un_core(kind);
        self.bring_out(to);
    }

    /// Traps where a signed division has no answer.
    pub(crate) fn check_division(&mut self, left: &Spot, right: &Spot)
        requires { length self.old ≤ 16 }
        ensures words { self.new ≡ self.old ++
            words (in_two_code (spot_seen left.now) (spot_seen right.now) ++ division_check) }
        ensures len { length self.new ≤ length self.old + 16 }
    {
        self.bring_two_in(left, right);
        self.trap_if_zero(T9, 7);
        self.push(addiu(AT, ZERO, 65535));
        self.push(bne(T9, AT, 4));
        self.push(lui(AT, 32768));
        self.push(bne(T8, AT, 2));
        self.push(nop());
        self.push(trap(6));
    }

    /// Traps where a divisor is 0.
    pub(crate) fn check_zero(&mut self, divisor: &Spot)
        requires { length self.old ≤ 16 }
        ensures words { self.new ≡ self.old ++
            words (in_code (spot_seen divisor.now) ++ trapping_if_zero assembly.t8 7) }
        ensures len { length self.new ≤ length self.old + 7 }
    {
        self.bring_in(divisor);
        self.trap_if_zero(T8, 7);
    }
}
