//! A stop in print.

use host_edge::Ending;
use mips_machine::Stop;
use std::fmt;

/// A stop, with the address of a fault in hexadecimal digits.
#[derive(Drop)]
pub struct Shown(pub Stop);

impl fmt::Display for Shown {
    fn fmt<W: fmt::Write>(&self, f: &mut fmt::Formatter<W>) -> fmt::Result {
        let name = match self.0 {
            Stop::Ended(Ending::Done(status)) => return write!(f, "Done({status})"),
            Stop::Ended(Ending::Trap(kind)) => return write!(f, "Trap({kind:?})"),
            Stop::Fault(kind, at) => return write!(f, "MachineFault({kind:?}, {at:#010x})"),
            Stop::Steps => "OutOfSteps",
            Stop::ReadFault => "ReadFault",
            Stop::WriteFault => "WriteFault",
        };
        f.write_str(name)
    }
}
