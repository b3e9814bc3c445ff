//! The prologue and the epilogue of a function.

ghost use Rattle.std.specs.Prelude.{◌≡◌, ◌+◌, ◌++◌, ◌≤◌, length, true, false, if◌then◌else◌};
ghost use Rattle.icode_templates.specs.Frames as frames;
ghost use Rattle.icode_templates.specs.Words.{words};

use crate::saved::{restore, save};
use icode_saves::Saved;
use icode_templates::Snippet;
use mips_assembly::{addiu, addu, jr, lui, lw, nop, sltu, subu, sw};
use mips_encoder::Register;

const T8: Register = Register::T8;

const T9: Register = Register::T9;

const AT: Register = Register::AT;

const GP: Register = Register::GP;

const SP: Register = Register::SP;

const FP: Register = Register::FP;

const RA: Register = Register::RA;

/// What a function takes at its start and gives back at its end.
#[derive(Drop)]
pub(crate) struct Frame {
    /// The bytes that it takes from the stack.
    pub(crate) bytes: u32,
    /// The bytes of its objects.
    pub(crate) objects: u32,
    /// The places that it saves.
    pub(crate) saved: Saved,
    /// Whether it counts its active calls.
    pub(crate) compiled: bool,
}

// Adds the 16 bits, as a signed number, to the cell of the number of active calls of compiled functions.
fn count(code: &mut Snippet, step: u32)
    requires room { length code.old ≤ 28 }
    requires step { step ≤ 65535 }
    ensures words { code.new ≡ code.old ++ words (frames.count_code step) }
    ensures len { length code.new ≡ length code.old + 4 }
{
    code.push(lw(T9, 65500, GP));
    code.push(nop());
    code.push(addiu(T9, T9, step));
    code.push(sw(T9, 65500, GP));
}

// Takes the frame from the stack, with a trap where the stack ends.
#[tactic(auto, using(crate::proofs::Appended::more))]
fn take_frame(code: &mut Snippet, bytes: u32)
    requires { length code.old ≤ 20 }
    ensures words { code.new ≡ code.old ++ words (frames.take_frame bytes) }
    ensures len { length code.new ≡ length code.old + 10 }
{
    code.constant(AT, bytes);
    code.push(subu(T8, SP, AT));
    code.push(lui(T9, 32512));
    code.push(sltu(T9, T8, T9));
    code.trap_unless_zero(T9, 20);
    code.push(addu(SP, T8, Register::ZERO));
    code.push(sw(RA, 80, SP));
}

// Gives the frame back, and returns.
#[tactic(auto, using(crate::proofs::Appended::more))]
fn free_frame(code: &mut Snippet, bytes: u32)
    requires { length code.old ≤ 27 }
    ensures words { code.new ≡ code.old ++ words (frames.free_frame bytes) }
    ensures len { length code.new ≡ length code.old + 5 }
{
    code.constant(AT, bytes);
    code.push(addu(SP, SP, AT));
    code.push(jr(RA));
    code.push(nop());
}

// Takes the bytes of the objects, with a trap where their region ends.
#[tactic(auto, using(crate::proofs::Appended::more))]
fn take_objects(code: &mut Snippet, bytes: u32)
    requires { length code.old ≤ 30 }
    ensures words { code.new ≡ code.old ++ words (frames.take_objects bytes) }
    ensures len { length code.new ≤ length code.old + 8 }
    ensures none { bytes ≡ 0 → length code.new ≡ length code.old }
{
    if bytes == 0 {
        return;
    }
    code.constant(T8, bytes);
    code.push(addu(FP, FP, T8));
    code.push(lui(T8, 4352));
    code.push(sltu(T9, T8, FP));
    code.trap_unless_zero(T9, 21);
}

// Gives the bytes of the objects back.
#[tactic(auto, using(crate::proofs::Appended::more))]
fn free_objects(code: &mut Snippet, bytes: u32)
    requires { length code.old ≤ 29 }
    ensures words { code.new ≡ code.old ++ words (frames.free_objects bytes) }
    ensures len { length code.new ≤ length code.old + 3 }
    ensures none { bytes ≡ 0 → length code.new ≡ length code.old }
{
    if bytes == 0 {
        return;
    }
    code.constant(T8, bytes);
    code.push(subu(FP, FP, T8));
}

// Counts the call in, if the function is a compiled one.
fn enter_count(code: &mut Snippet, compiled: bool)
    requires { length code.old ≤ 28 }
    ensures words { code.new ≡ code.old ++ words (frames.enter_count compiled) }
    ensures len { length code.new ≡ length code.old + (if compiled then 4 else 0) }
{
    if compiled {
        count(code, 1);
    }
}

// Counts the call out, if the function is a compiled one.
fn leave_count(code: &mut Snippet, compiled: bool)
    requires { length code.old ≤ 28 }
    ensures words { code.new ≡ code.old ++ words (frames.leave_count compiled) }
    ensures len { length code.new ≡ length code.old + (if compiled then 4 else 0) }
{
    if compiled {
        count(code, 65535);
    }
}

impl Frame {
    /// The prologue: of a static function at most 30 words, of a compiled one without objects at most 26.
    #[tactic(auto, using(crate::proofs::Appended::more))]
    pub(crate) fn prologue(&self) -> Snippet
        ensures words { result ≡
            words (frames.prologue self.now.bytes self.now.objects self.now.saved self.now.compiled) }
        ensures most { length result ≤ 34 }
        ensures of_static { self.now.compiled ≡ false → length result ≤ 30 }
        ensures of_compiled { self.now.compiled ≡ true → self.now.objects ≡ 0 → length result ≤ 26 }
    {
        let mut code = Snippet::new();
        take_frame(&mut code, self.bytes);
        save(&self.saved, &mut code);
        enter_count(&mut code, self.compiled);
        take_objects(&mut code, self.objects);
        code
    }

    /// The epilogue: of a static function at most 21 words, of a compiled one without objects at most 22.
    #[tactic(auto, using(crate::proofs::Appended::more))]
    pub(crate) fn epilogue(&self) -> Snippet
        ensures words { result ≡
            words (frames.epilogue self.now.bytes self.now.objects self.now.saved self.now.compiled) }
        ensures most { length result ≤ 25 }
        ensures of_static { self.now.compiled ≡ false → length result ≤ 21 }
        ensures of_compiled { self.now.compiled ≡ true → self.now.objects ≡ 0 → length result ≤ 22 }
        ensures some { 1 ≤ length result }
    {
        let mut code = Snippet::new();
        leave_count(&mut code, self.compiled);
        restore(&self.saved, &mut code);
        code.push(lw(RA, 80, SP));
        free_objects(&mut code, self.objects);
        free_frame(&mut code, self.bytes);
        code
    }
}
