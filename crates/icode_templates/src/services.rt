//! Ops that ask the machine for a service, or call a routine of the run-time library.

ghost use Rattle.std.specs.Prelude.{◌≡◌, ◌+◌, ◌++◌, ◌≤◌, ◌∷◌, [], length};
ghost use Rattle.icode_ops.specs.Kinds.{sys_number, run_number, closure_number};
ghost use Rattle.mips_assembly.specs.Assembly as assembly;
ghost use Rattle.icode_templates.specs.Templates.{in_code, out_code, service_code, routine_code, new_address};
ghost use Rattle.icode_templates.specs.Words.{words};
ghost use Rattle.icode_templates.specs.Seen.{spot_seen};

use crate::snippet::Snippet;
use crate::spot::Spot;
use icode_ops::{ClosureKind, RunKind, SysKind};
use mips_assembly::{addu, ori};
use mips_encoder::{Instr, Register};
use word32::map;

const T8: Register = Register::T8;

const V0: Register = Register::V0;

const A0: Register = Register::A0;

const ZERO: Register = Register::ZERO;

#[tactic(auto, using(crate::proofs::Appended::words_append))]
impl Snippet {
    // A service, with `$t8` as its argument and for its answer.
    fn service(&mut self, kind: SysKind)
        requires { length self.old ≤ 28 }
        ensures words { self.new ≡ self.old ++ words (service_code (sys_number kind)) }
        ensures len { length self.new ≡ length self.old + 4 }
    {
        self.push(addu(A0, T8, ZERO));
        self.push(ori(V0, ZERO, kind.number()));
        self.push(Instr::Syscall);
        self.push(addu(T8, V0, ZERO));
    }

    /// Asks the machine for a service.
    pub(crate) fn ask(&mut self, kind: SysKind, to: &Spot, from: &Spot)
        requires { length self.old ≤ 16 }
        ensures words { self.new ≡ self.old ++
            words (in_code (spot_seen from.now) ++ (service_code (sys_number kind) ++ out_code (spot_seen to.now))) }
        ensures len { length self.new ≤ length self.old + 11 }
    {
        self.bring_in(from);
        self.service(kind);
        self.bring_out(to);
    }

    // A routine, with `$t8` as its argument and for its answer.
    fn routine(&mut self, kind: RunKind)
        requires { length self.old ≤ 28 }
        ensures words { self.new ≡ self.old ++ words (routine_code (run_number kind)) }
        ensures len { length self.new ≡ length self.old + 4 }
    {
        self.push(addu(A0, T8, ZERO));
        self.call_routine(map::START + map::ROUTINE_BYTES * kind.number());
    }

    /// Calls a routine of the run-time library.
    pub(crate) fn run(&mut self, kind: RunKind, to: &Spot, from: &Spot)
        requires { length self.old ≤ 16 }
        ensures words { self.new ≡ self.old ++
            words (in_code (spot_seen from.now) ++ (routine_code (run_number kind) ++ out_code (spot_seen to.now))) }
        ensures len { length self.new ≤ length self.old + 11 }
    {
        self.bring_in(from);
        self.routine(kind);
        self.bring_out(to);
    }

    /// Makes a closure of `captures` captured words, of which `code` is the address of the code.
    pub(crate) fn make_closure(&mut self, to: &Spot, code: u32, kind: ClosureKind, captures: u32)
        requires { length self.old ≤ 16 }
        ensures words { self.new ≡ self.old ++
            words (assembly.constant assembly.a0 code ++
            (assembly.ori assembly.a1 0 (closure_number kind) ∷ assembly.constant assembly.a2 captures ++
            assembly.jal new_address ∷ assembly.nop ∷ assembly.addu assembly.t8 assembly.v0 0
            ∷ out_code (spot_seen to.now))) }
        ensures len { length self.new ≤ length self.old + 11 }
    {
        self.constant(A0, code);
        self.push(ori(Register::A1, ZERO, kind.number()));
        self.constant(Register::A2, captures);
        self.call_routine(map::RT_NEW);
        self.bring_out(to);
    }
}
