//! Ops that go elsewhere: jumps, branches, calls with their arguments, and returns.

ghost use Rattle.std.specs.Prelude.{◌≡◌, ◌+◌, ◌*◌, ◌++◌, ◌<◌, ◌≤◌, ◌∷◌, [], length};
ghost use Rattle.word32.specs.declared.map.TheConstants.{SEGMENT_BYTES};
ghost use Rattle.mips_assembly.specs.Assembly as assembly;
ghost use Rattle.icode_templates.specs.Templates.{in_code, out_code, number_row, count_check, number_call};
ghost use Rattle.icode_templates.specs.Words.{words};
ghost use Rattle.icode_templates.specs.Seen.{spot_seen};

use crate::snippet::Snippet;
use crate::spot::Spot;
use icode_ops::{ArgumentCount, ArgumentIndex, CallAddress};
use mips_assembly::{addu, beq, bne, j, jal, jalr_of_t8, lw, nop, sll, srl, sw, xori};
use mips_encoder::Register;

const T8: Register = Register::T8;

const T9: Register = Register::T9;

const V0: Register = Register::V0;

const GP: Register = Register::GP;

const ZERO: Register = Register::ZERO;

#[tactic(auto, using(crate::proofs::Appended::words_append))]
impl Snippet {
    /// Goes to an address.
    pub(crate) fn go_to(&mut self, address: u32)
        requires room { length self.old ≤ 30 }
        requires address { address < SEGMENT_BYTES }
        ensures words { self.new ≡ self.old ++ words (assembly.j address ∷ assembly.nop ∷ []) }
        ensures len { length self.new ≡ length self.old + 2 }
    {
        self.push(j(address));
        self.push(nop());
    }

    /// Goes to an address where the value is 0.
    pub(crate) fn go_if_zero(&mut self, test: &Spot, address: u32)
        requires room { length self.old ≤ 16 }
        requires address { address < SEGMENT_BYTES }
        ensures words { self.new ≡ self.old ++
            words (in_code (spot_seen test.now) ++
            assembly.bne assembly.t8 0 3 ∷ assembly.nop ∷ assembly.j address ∷ assembly.nop ∷ []) }
        ensures len { length self.new ≤ length self.old + 8 }
    {
        self.bring_in(test);
        self.push(bne(T8, ZERO, 3));
        self.push(nop());
        self.go_to(address);
    }

    /// Goes to an address where the value isn't 0.
    pub(crate) fn go_unless_zero(&mut self, test: &Spot, address: u32)
        requires room { length self.old ≤ 16 }
        requires address { address < SEGMENT_BYTES }
        ensures words { self.new ≡ self.old ++
            words (in_code (spot_seen test.now) ++
            assembly.beq assembly.t8 0 3 ∷ assembly.nop ∷ assembly.j address ∷ assembly.nop ∷ []) }
        ensures len { length self.new ≤ length self.old + 8 }
    {
        self.bring_in(test);
        self.push(beq(T8, ZERO, 3));
        self.push(nop());
        self.go_to(address);
    }

    /// Passes an argument of the next call.
    pub(crate) fn pass(&mut self, index: ArgumentIndex, from: &Spot)
        requires { length self.old ≤ 16 }
        ensures words { self.new ≡ self.old ++
            words (in_code (spot_seen from.now) ++ assembly.sw assembly.t8 (4 * index) assembly.sp ∷ []) }
        ensures len { length self.new ≤ length self.old + 5 }
    {
        self.bring_in(from);
        self.push(sw(T8, 4 * index.get(), Register::SP));
    }

    // A call of an address.
    fn link_to(&mut self, address: u32)
        requires room { length self.old ≤ 30 }
        requires address { address < SEGMENT_BYTES }
        ensures words { self.new ≡ self.old ++ words (assembly.jal address ∷ assembly.nop ∷ []) }
        ensures len { length self.new ≡ length self.old + 2 }
    {
        self.push(jal(address));
        self.push(nop());
    }

    /// Calls a function.
    pub(crate) fn call(&mut self, address: CallAddress)
        requires { length self.old ≤ 16 }
        ensures words { self.new ≡ self.old ++ words (assembly.jal address ∷ assembly.nop ∷ []) }
        ensures len { length self.new ≡ length self.old + 2 }
    {
        self.link_to(address.get());
    }

    /// Calls a routine of the run-time library, which has its answer in `$v0`.
    pub(crate) fn call_routine(&mut self, address: u32)
        requires room { length self.old ≤ 29 }
        requires address { address < SEGMENT_BYTES }
        ensures words { self.new ≡ self.old ++
            words (assembly.jal address ∷ assembly.nop ∷ assembly.addu assembly.t8 assembly.v0 0 ∷ []) }
        ensures len { length self.new ≡ length self.old + 3 }
    {
        self.link_to(address);
        self.push(addu(T8, V0, ZERO));
    }

    // The row of the function whose number is in `$t8`: its address to `$t8`, its count of parameters to `$t9`.
    fn number_row(&mut self)
        requires { length self.old ≤ 26 }
        ensures words { self.new ≡ self.old ++ words number_row }
        ensures len { length self.new ≡ length self.old + 6 }
    {
        self.push(srl(T9, T8, 16));
        self.push(bne(T9, ZERO, 7));
        self.push(sll(T8, T8, 3));
        self.push(addu(T8, T8, GP));
        self.push(lw(T9, 4, T8));
        self.push(lw(T8, 0, T8));
    }

    // A trap where the count in `$t9` is another one.
    fn count_check(&mut self, count: ArgumentCount)
        requires { length self.old ≤ 28 }
        ensures words { self.new ≡ self.old ++ words (count_check count) }
        ensures len { length self.new ≡ length self.old + 4 }
    {
        self.push(xori(T9, T9, count.get()));
        self.trap_unless_zero(T9, 17);
    }

    /// Calls the function whose number is the value.
    pub(crate) fn call_by_number(&mut self, function: &Spot, count: ArgumentCount)
        requires { length self.old ≤ 16 }
        ensures words { self.new ≡ self.old ++ words (in_code (spot_seen function.now) ++ number_call count) }
        ensures len { length self.new ≤ length self.old + 16 }
    {
        self.bring_in(function);
        self.number_row();
        self.count_check(count);
        self.push(jalr_of_t8());
        self.push(nop());
    }

    /// Takes the answer of the call before.
    pub(crate) fn take_answer(&mut self, to: &Spot)
        requires { length self.old ≤ 16 }
        ensures words { self.new ≡ self.old ++
            words (assembly.addu assembly.t8 assembly.v0 0 ∷ out_code (spot_seen to.now)) }
        ensures len { length self.new ≤ length self.old + 4 }
    {
        self.push(addu(T8, V0, ZERO));
        self.bring_out(to);
    }

    /// Returns a value, by way of the epilogue at an address.
    pub(crate) fn leave_with(&mut self, from: &Spot, epilogue: u32)
        requires room { length self.old ≤ 16 }
        requires address { epilogue < SEGMENT_BYTES }
        ensures words { self.new ≡ self.old ++
            words (in_code (spot_seen from.now) ++
            assembly.addu assembly.v0 assembly.t8 0 ∷ assembly.j epilogue ∷ assembly.nop ∷ []) }
        ensures len { length self.new ≤ length self.old + 7 }
    {
        self.bring_in(from);
        self.push(addu(V0, T8, ZERO));
        self.go_to(epilogue);
    }

    /// Returns 0, by way of the epilogue at an address.
    pub(crate) fn leave_with_zero(&mut self, epilogue: u32)
        requires room { length self.old ≤ 16 }
        requires address { epilogue < SEGMENT_BYTES }
        ensures words { self.new ≡ self.old ++
            words (assembly.addu assembly.v0 0 0 ∷ assembly.j epilogue ∷ assembly.nop ∷ []) }
        ensures len { length self.new ≡ length self.old + 3 }
    {
        self.push(addu(V0, ZERO, ZERO));
        self.go_to(epilogue);
    }
}
