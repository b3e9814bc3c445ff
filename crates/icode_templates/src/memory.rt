//! Ops on memory: addresses of the frame's objects, loads, stores, zeros, and captured words of closures.

ghost use Rattle.std.specs.Prelude.{◌≡◌, ◌+◌, ◌*◌, ◌++◌, ◌<◌, ◌≤◌, ◌∷◌, [], length};
ghost use Rattle.word32.specs.declared.map.TheConstants.{OBJECT_BYTES};
ghost use Rattle.mips_assembly.specs.Assembly as assembly;
ghost use Rattle.icode_templates.specs.Layout.{laid};
ghost use Rattle.icode_templates.specs.Templates.{in_code, in_two_code, out_code, clear_loop};
ghost use Rattle.icode_templates.specs.Templates.{range_check as range_checking};
ghost use Rattle.icode_templates.specs.Templates.{object_address as address_of_object, put_code};
ghost use Rattle.icode_templates.specs.Templates.{load_instruction as loading, store_instruction as storing};
ghost use Rattle.icode_templates.specs.Words.{words};
ghost use Rattle.icode_templates.specs.Seen.{spot_seen};

use crate::snippet::Snippet;
use crate::spot::{Layout, Spot};
use icode_ops::CaptureIndex;
use mips_assembly::{addiu, addu, bne, lui, lw, nop, srl, sw, xori};
use mips_encoder::{Immediate, Instr, MemoryOp, Register};
use word32::Width;

const T8: Register = Register::T8;

const T9: Register = Register::T9;

const AT: Register = Register::AT;

const ZERO: Register = Register::ZERO;

// The load of a width to `$t8` from the address there.
fn load_instruction(width: Width) -> Instr
    ensures { result ≡ loading width }
{
    let op = match width {
        Width::SignedByte => MemoryOp::Lb,
        Width::Byte => MemoryOp::Lbu,
        Width::SignedHalf => MemoryOp::Lh,
        Width::Half => MemoryOp::Lhu,
        Width::Word => MemoryOp::Lw,
    };
    Instr::Memory(op, T8, Immediate::new(0), T8)
}

// The store of a width from `$t9` to the address in `$t8`.
fn store_instruction(width: Width) -> Instr
    ensures { result ≡ storing width }
{
    let op = match width {
        Width::SignedByte | Width::Byte => MemoryOp::Sb,
        Width::SignedHalf | Width::Half => MemoryOp::Sh,
        Width::Word => MemoryOp::Sw,
    };
    Instr::Memory(op, T9, Immediate::new(0), T8)
}

#[tactic(auto, using(crate::proofs::Appended::words_append))]
impl Snippet {
    // The sum of a word and `$fp` to a register.
    fn above_objects(&mut self, t: Register, word: u32)
        requires { length self.old ≤ 29 }
        ensures words { self.new ≡ self.old ++ words (assembly.constant t word ++ assembly.addu t t assembly.fp ∷ []) }
        ensures len { length self.new ≡ length self.old + 3 }
    {
        self.constant(t, word);
        self.push(addu(t, t, Register::FP));
    }

    // A trap where the address in `$t8` is not in the objects. The register is changed.
    fn range_check(&mut self, r: Register)
        requires { length self.old ≤ 27 }
        ensures words { self.new ≡ self.old ++ words (range_checking r) }
        ensures len { length self.new ≡ length self.old + 5 }
    {
        self.push(srl(r, T8, 24));
        self.push(xori(r, r, 16));
        self.trap_unless_zero(r, 16);
    }

    /// The address that is `offset` bytes into the frame's objects.
    pub(crate) fn frame_address(&mut self, layout: &Layout, to: &Spot, offset: u32)
        requires room { length self.old ≤ 16 }
        requires objects { layout.now.objects ≤ OBJECT_BYTES }
        ensures words { self.new ≡ self.old ++
            words (address_of_object (laid layout.now.places.now layout.now.frame layout.now.objects) assembly.t8 offset
            ++
            out_code (spot_seen to.now)) }
        ensures len { length self.new ≤ length self.old + 6 }
    {
        self.above_objects(T8, layout.below_end(offset));
        self.bring_out(to);
    }

    /// Loads from an address.
    pub(crate) fn load_from(&mut self, width: Width, to: &Spot, address: &Spot)
        requires { length self.old ≤ 16 }
        ensures words { self.new ≡ self.old ++
            words (in_code (spot_seen address.now) ++
            (range_checking assembly.t9 ++ loading width ∷ assembly.nop ∷ out_code (spot_seen to.now))) }
        ensures len { length self.new ≤ length self.old + 14 }
    {
        self.bring_in(address);
        self.range_check(T9);
        self.push(load_instruction(width));
        self.push(nop());
        self.bring_out(to);
    }

    /// Stores to an address.
    pub(crate) fn store_to(&mut self, width: Width, address: &Spot, value: &Spot)
        requires { length self.old ≤ 16 }
        ensures words { self.new ≡ self.old ++
            words (in_two_code (spot_seen address.now) (spot_seen value.now) ++
            (range_checking assembly.scratch ++ storing width ∷ [])) }
        ensures len { length self.new ≤ length self.old + 13 }
    {
        self.bring_two_in(address, value);
        self.range_check(AT);
        self.push(store_instruction(width));
    }

    // Zeros from `$t8` up to `$t9`.
    fn clear_loop(&mut self)
        requires { length self.old ≤ 28 }
        ensures words { self.new ≡ self.old ++ words clear_loop }
        ensures len { length self.new ≡ length self.old + 4 }
    {
        self.push(sw(ZERO, 0, T8));
        self.push(addiu(T8, T8, 4));
        self.push(bne(T8, T9, 65533));
        self.push(nop());
    }

    /// Sets words of the frame's objects to 0, from `offset` bytes on.
    pub(crate) fn clear_objects(&mut self, layout: &Layout, offset: u32, count: u32)
        requires room { length self.old ≤ 16 }
        requires objects { layout.now.objects ≤ OBJECT_BYTES }
        ensures words { self.new ≡ self.old ++
            words (address_of_object (laid layout.now.places.now layout.now.frame layout.now.objects) assembly.t8 offset
            ++
            (address_of_object (laid layout.now.places.now layout.now.frame layout.now.objects) assembly.t9
            (offset + 4 * count) ++ clear_loop)) }
        ensures len { length self.new ≤ length self.old + 10 }
    {
        let end = offset.wrapping_add(count.wrapping_mul(4));
        self.above_objects(T8, layout.below_end(offset));
        self.above_objects(T9, layout.below_end(end));
        self.clear_loop();
    }

    // `$t8` to captured word `index` of the newest closure.
    fn put_captured(&mut self, index: CaptureIndex)
        requires { length self.old ≤ 28 }
        ensures words { self.new ≡ self.old ++ words (put_code index) }
        ensures len { length self.new ≡ length self.old + 4 }
    {
        let offset = 16 + 4 * index.get();
        self.push(lw(T9, 65504, Register::GP));
        self.push(lui(AT, (offset + 32768) / 65536));
        self.push(addu(T9, T9, AT));
        self.push(sw(T8, offset % 65536, T9));
    }

    /// Puts a value into a captured word of the newest closure.
    pub(crate) fn put_value(&mut self, index: CaptureIndex, from: &Spot)
        requires { length self.old ≤ 16 }
        ensures words { self.new ≡ self.old ++ words (in_code (spot_seen from.now) ++ put_code index) }
        ensures len { length self.new ≤ length self.old + 8 }
    {
        self.bring_in(from);
        self.put_captured(index);
    }
}
