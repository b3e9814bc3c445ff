//! What the services that make code are counted as.
ghost use Rattle.std.specs.Prelude.{◌≡◌, ◌<◌, ◌+◌, ◌^◌};
ghost use Rattle.mips_machine.specs.Tallies.{tallied, most_of};

use mips_model::Service;

/// How many services were asked for that weren't refused, and how many words they wrote.
#[derive(Clone, Copy, Drop)]
pub(crate) struct Tally {
    /// Ops that were built.
    pub(crate) ops: u64,
    /// Functions that were published.
    pub(crate) functions: u64,
    /// Words of functions that were finished.
    pub(crate) words: u64,
    /// Calls of the flush service.
    pub(crate) flushes: u64,
}

impl Tally {
    /// A service answered v.
    pub(crate) fn add(&mut self, service: Service, v: u32)
        requires room { most_of self.old + v + 1 < 2 ^ 64 }
        ensures { self.new ≡ tallied service v self.old }
    {
        match service {
            Service::PutInt => {}
            Service::Exit => {}
            Service::PutByte => {}
            Service::GetByte => {}
            Service::Begin => {}
            Service::Emit => self.ops += 1,
            Service::Finish => self.words += u64::from(v),
            Service::Flush => self.flushes += 1,
            Service::Publish => self.functions += 1,
        }
    }
}
