//! How values come to `$t8` and `$t9` and from there to their spots.

ghost use Rattle.std.specs.Prelude.{◌≡◌, ◌+◌, ◌++◌, ◌<◌, ◌≤◌, length};
ghost use Rattle.mips_assembly.specs.Assembly as assembly;
ghost use Rattle.icode_templates.specs.Templates.{reach_code, load_code, wait_code, in_code, in_two_code, out_code};
ghost use Rattle.icode_templates.specs.Templates.{trap_if_zero as trapping_if_zero};
ghost use Rattle.icode_templates.specs.Templates.{trap_unless_zero as trapping_unless_zero};
ghost use Rattle.icode_templates.specs.Words.{words};
ghost use Rattle.icode_templates.specs.Seen.{spot_seen};

use crate::snippet::Snippet;
use crate::spot::{SlotOffset, Spot};
use mips_assembly::{addu, beq, bne, lui, lw, nop, ori, sw, trap};
use mips_encoder::Register;

#[tactic(auto, using(crate::proofs::Appended::words_append))]
impl Snippet {
    // The address of a far slot's upper half to `$at`.
    fn reach(&mut self, offset: SlotOffset)
        requires { length self.old ≤ 30 }
        ensures words { self.new ≡ self.old ++ words (reach_code offset) }
        ensures len { length self.new ≡ length self.old + 2 }
    {
        self.push(lui(Register::AT, (offset.bytes() + 32768) / 65536));
        self.push(addu(Register::AT, Register::AT, Register::SP));
    }

    // The value at a spot to a register.
    fn load(&mut self, t: Register, spot: &Spot)
        requires { length self.old ≤ 29 }
        ensures words { self.new ≡ self.old ++ words (load_code t (spot_seen spot.now)) }
        ensures len { length self.new ≤ length self.old + 3 }
    {
        match *spot {
            Spot::InRegister(r) => self.push(addu(t, r, Register::ZERO)),
            Spot::InSlot(offset) => {
                if offset.bytes() < 32768 {
                    self.push(lw(t, offset.bytes(), Register::SP));
                } else {
                    self.reach(offset);
                    self.push(lw(t, offset.bytes() % 65536, Register::AT));
                }
            }
        }
    }

    // The nop that waits for a load.
    fn wait(&mut self, spot: &Spot)
        requires { length self.old ≤ 31 }
        ensures words { self.new ≡ self.old ++ words (wait_code (spot_seen spot.now)) }
        ensures len { length self.new ≤ length self.old + 1 }
    {
        match *spot {
            Spot::InRegister(_) => {}
            Spot::InSlot(_) => self.push(nop()),
        }
    }

    /// Brings an operand to `$t8`.
    pub(crate) fn bring_in(&mut self, a: &Spot)
        requires { length self.old ≤ 28 }
        ensures words { self.new ≡ self.old ++ words (in_code (spot_seen a.now)) }
        ensures len { length self.new ≤ length self.old + 4 }
    {
        self.load(Register::T8, a);
        self.wait(a);
    }

    /// Brings two operands to `$t8` and `$t9`.
    pub(crate) fn bring_two_in(&mut self, a: &Spot, b: &Spot)
        requires { length self.old ≤ 25 }
        ensures words { self.new ≡ self.old ++ words (in_two_code (spot_seen a.now) (spot_seen b.now)) }
        ensures len { length self.new ≤ length self.old + 7 }
    {
        self.load(Register::T8, a);
        self.load(Register::T9, b);
        self.wait(b);
    }

    /// Brings `$t8` to its spot.
    pub(crate) fn bring_out(&mut self, to: &Spot)
        requires { length self.old ≤ 29 }
        ensures words { self.new ≡ self.old ++ words (out_code (spot_seen to.now)) }
        ensures len { length self.new ≤ length self.old + 3 }
    {
        match *to {
            Spot::InRegister(r) => self.push(addu(r, Register::T8, Register::ZERO)),
            Spot::InSlot(offset) => {
                if offset.bytes() < 32768 {
                    self.push(sw(Register::T8, offset.bytes(), Register::SP));
                } else {
                    self.reach(offset);
                    self.push(sw(Register::T8, offset.bytes() % 65536, Register::AT));
                }
            }
        }
    }

    /// A word to a register.
    pub fn constant(&mut self, t: Register, word: u32)
        requires { length self.old ≤ 38 }
        ensures words { self.new ≡ self.old ++ words (assembly.constant t word) }
        ensures len { length self.new ≡ length self.old + 2 }
    {
        self.push(lui(t, word / 65536));
        self.push(ori(t, t, word % 65536));
    }

    /// A trap where the register is 0.
    pub(crate) fn trap_if_zero(&mut self, s: Register, code: u32)
        requires room { length self.old ≤ 37 }
        requires code { code < 1048576 }
        ensures words { self.new ≡ self.old ++ words (trapping_if_zero s code) }
        ensures len { length self.new ≡ length self.old + 3 }
    {
        self.push(bne(s, Register::ZERO, 2));
        self.push(nop());
        self.push(trap(code));
    }

    /// A trap where the register isn't 0.
    pub fn trap_unless_zero(&mut self, s: Register, code: u32)
        requires room { length self.old ≤ 37 }
        requires code { code < 1048576 }
        ensures words { self.new ≡ self.old ++ words (trapping_unless_zero s code) }
        ensures len { length self.new ≡ length self.old + 3 }
    {
        self.push(beq(s, Register::ZERO, 2));
        self.push(nop());
        self.push(trap(code));
    }
}
