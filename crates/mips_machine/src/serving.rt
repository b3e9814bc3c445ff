//! The services that SYSCALL offers. Their number is in `$v0`, their arguments are in `$a0` to `$a2`, and their answer
//! goes to `$v0`.
ghost use Rattle.std.specs.Prelude.{◌≡◌, ◌≢◌, ◌≤◌, ◌<◌, ◌+◌, ◌%◌, ◌^◌, true, false, None, Some, [], ◌∷◌};
ghost use Rattle.mips_model.specs.Beside.{is_at_service};
ghost use Rattle.history.specs.Events.{number_bytes};
ghost use Rattle.mips_model.specs.Services.{service_of};
ghost use Rattle.mips_core.specs.Core.{state_of, is_service_hazard};
ghost use Rattle.mips_machine.specs.Progress.{progress_of};
ghost use Rattle.mips_machine.specs.Ran.{Ran, ReadCause, WriteCause};
ghost use Rattle.mips_machine.specs.Served.{counted, answered, input_ended, argument, number, stop_from, Puts, Takes};
ghost use Rattle.mips_machine.specs.Served.{Generates};

use crate::{Machine, Stop};
use host_edge::{Ending, MachineKind, Sink, Source, read_byte, write_whole};
use itoa::Buffer;
use mips_encoder::Register;
use mips_model::Service;

impl Machine {
    // One instruction more, which ends the run or is refused.
    fn halt(&mut self, stop: Stop)
        requires room { self.old.steps < 2 ^ 40 }
        requires stays { stop ≢ Stop.Steps }
        ensures state { progress_of self.new ≡ counted (progress_of self.old) }
        ensures stopped { self.new.stopped ≡ Some stop }
    {
        self.steps += 1;
        self.stopped = Some(stop);
    }

    // The service is refused.
    fn refuse(&mut self, kind: MachineKind)
        requires { self.old.steps < 2 ^ 40 }
        ensures state { progress_of self.new ≡ counted (progress_of self.old) }
        ensures stopped { self.new.stopped ≡ Some (Stop.Fault kind self.old.core.pc) }
    {
        let at = self.core.pc();
        self.halt(Stop::Fault(kind, at));
    }

    // A service answers, and the run goes on.
    fn answer(&mut self, v: u32)
        requires fresh { self.old.stopped ≡ None }
        requires room { self.old.steps < 2 ^ 40 }
        requires next { self.old.core.next < 4294967296 }
        ensures state { progress_of self.new ≡ answered v (progress_of self.old) }
        ensures stopped { self.new.stopped ≡ None }
    {
        self.core.answer(v);
        self.steps += 1;
    }

    // Puts bytes out, and answers.
    fn put<O: Sink>(&mut self, out: &mut O, bytes: &[u8], v: u32)
        requires fresh { self.old.stopped ≡ None }
        requires room { self.old.steps < 2 ^ 40 }
        requires next { self.old.core.next < 4294967296 }
        ensures state { progress_of self.new ≡ answered v (progress_of self.old) }
        ensures puts { Puts (stop_from self.new.stopped) (O.taken out.old) (O.taken out.new) bytes.now }
        ensures cause { WriteCause (stop_from self.new.stopped) (O.faults out.old) (O.faults out.new) }
        ensures no_read { ReadCause (stop_from self.new.stopped) 0 0 }
    {
        self.answer(v);
        if write_whole(out, bytes).is_err() {
            self.stopped = Some(Stop::WriteFault);
        }
    }

    // Service 1.
    fn put_int<O: Sink>(&mut self, out: &mut O)
        requires fresh { self.old.stopped ≡ None }
        requires room { self.old.steps < 2 ^ 40 }
        requires next { self.old.core.next < 4294967296 }
        ensures state { progress_of self.new ≡ answered (argument (progress_of self.old)) (progress_of self.old) }
        ensures puts { Puts (stop_from self.new.stopped) (O.taken out.old) (O.taken out.new)
            (number_bytes (argument (progress_of self.old))) }
        ensures cause { WriteCause (stop_from self.new.stopped) (O.faults out.old) (O.faults out.new) }
        ensures no_read { ReadCause (stop_from self.new.stopped) 0 0 }
    {
        let v = self.core.register(Register::A0);
        let mut buffer = Buffer::new();
        let text = buffer.format(v.cast_signed());
        self.put(out, text.as_bytes(), v);
    }

    // Service 10.
    fn exit(&mut self)
        requires { self.old.steps < 2 ^ 40 }
        ensures state { progress_of self.new ≡ counted (progress_of self.old) }
        ensures stopped { self.new.stopped ≡ Some (Stop.Ended (Ending.Done (argument (progress_of self.old) % 256))) }
    {
        let status = (self.core.register(Register::A0) % 256) as u8;
        self.halt(Stop::Ended(Ending::Done(status)));
    }

    // Service 11.
    fn put_byte<O: Sink>(&mut self, out: &mut O)
        requires fresh { self.old.stopped ≡ None }
        requires room { self.old.steps < 2 ^ 40 }
        requires next { self.old.core.next < 4294967296 }
        ensures state { progress_of self.new ≡ answered (argument (progress_of self.old) % 256) (progress_of self.old) }
        ensures puts { Puts (stop_from self.new.stopped) (O.taken out.old) (O.taken out.new)
            (argument (progress_of self.old) % 256 ∷ []) }
        ensures cause { WriteCause (stop_from self.new.stopped) (O.faults out.old) (O.faults out.new) }
        ensures no_read { ReadCause (stop_from self.new.stopped) 0 0 }
    {
        let byte = (self.core.register(Register::A0) % 256) as u8;
        self.put(out, &[byte], u32::from(byte));
    }

    // The end of the input is read, or was before.
    fn reach_end(&mut self)
        requires fresh { self.old.stopped ≡ None }
        requires room { self.old.steps < 2 ^ 40 }
        requires next { self.old.core.next < 4294967296 }
        ensures state { progress_of self.new ≡ input_ended (progress_of self.old) }
        ensures stopped { self.new.stopped ≡ None }
    {
        self.at_end = true;
        self.answer(u32::MAX);
    }

    // Service 12.
    fn get_byte<I: Source>(&mut self, input: &mut I)
        requires fresh { self.old.stopped ≡ None }
        requires room { self.old.steps < 2 ^ 40 }
        requires next { self.old.core.next < 4294967296 }
        ensures takes { Takes (stop_from self.new.stopped) (progress_of self.old) (progress_of self.new)
            (I.left input.old) (I.left input.new) }
        ensures cause { ReadCause (stop_from self.new.stopped) (I.faults input.old) (I.faults input.new) }
        ensures no_write { WriteCause (stop_from self.new.stopped) 0 0 }
    {
        if self.at_end {
            return self.reach_end();
        }
        match read_byte(input) {
            Ok(Some(byte)) => self.answer(u32::from(byte)),
            Ok(None) => self.reach_end(),
            Err(_) => self.halt(Stop::ReadFault),
        }
    }

    // The services from 64 on: what makes code answers, or is refused.
    fn generate(&mut self, service: Service)
        requires fresh { self.old.stopped ≡ None }
        requires room { self.old.steps < 2 ^ 40 }
        requires next { self.old.core.next < 4294967296 }
        requires is { service_of (number (progress_of self.old)) ≡ Some service }
        ensures made { Generates service (progress_of self.old) (progress_of self.new) (stop_from self.new.stopped) }
        ensures no_read { ReadCause (stop_from self.new.stopped) 0 0 }
        ensures no_write { WriteCause (stop_from self.new.stopped) 0 0 }
    {
        match self.core.generate(&mut self.service) {
            Ok(v) => {
                self.tally.add(service, v);
                self.steps += 1;
            }
            Err(_) => self.refuse(MachineKind::BadService),
        }
    }

    // The service whose number is in its register.
    fn perform<I: Source, O: Sink>(&mut self, input: &mut I, out: &mut O)
        requires fresh { self.old.stopped ≡ None }
        requires room { self.old.steps < 2 ^ 40 }
        requires at { is_at_service (state_of self.old.core) ≡ true }
        requires next { self.old.core.next < 4294967296 }
        requires quiet { is_service_hazard (state_of self.old.core) ≡ false }
        ensures ran { Ran 1 (progress_of self.old) (progress_of self.new) (I.left input.old) (I.left input.new)
            (O.taken out.old) (O.taken out.new) (stop_from self.new.stopped) }
        ensures read { ReadCause (stop_from self.new.stopped) (I.faults input.old) (I.faults input.new) }
        ensures write { WriteCause (stop_from self.new.stopped) (O.faults out.old) (O.faults out.new) }
    {
        match Service::from_number(self.core.register(Register::V0)) {
            Some(Service::PutInt) => self.put_int(out),
            Some(Service::Exit) => self.exit(),
            Some(Service::PutByte) => self.put_byte(out),
            Some(Service::GetByte) => self.get_byte(input),
            Some(Service::Begin) => self.generate(Service::Begin),
            Some(Service::Emit) => self.generate(Service::Emit),
            Some(Service::Finish) => self.generate(Service::Finish),
            Some(Service::Flush) => self.generate(Service::Flush),
            Some(Service::Publish) => self.generate(Service::Publish),
            None => self.refuse(MachineKind::BadService),
        }
    }

    // A SYSCALL.
    pub(crate) fn serve<I: Source, O: Sink>(&mut self, input: &mut I, out: &mut O)
        requires fresh { self.old.stopped ≡ None }
        requires room { self.old.steps < 2 ^ 40 }
        requires at { is_at_service (state_of self.old.core) ≡ true }
        requires next { self.old.core.next < 4294967296 }
        ensures ran { Ran 1 (progress_of self.old) (progress_of self.new) (I.left input.old) (I.left input.new)
            (O.taken out.old) (O.taken out.new) (stop_from self.new.stopped) }
        ensures read { ReadCause (stop_from self.new.stopped) (I.faults input.old) (I.faults input.new) }
        ensures write { WriteCause (stop_from self.new.stopped) (O.faults out.old) (O.faults out.new) }
    {
        if self.core.is_service_hazard() {
            self.refuse(MachineKind::Hazard);
        } else {
            self.perform(input, out);
        }
    }
}
