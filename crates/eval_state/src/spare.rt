//! Lists of numbers whose memory is used again.

ghost use Rattle.std.specs.Prelude.{◌≡◌, []};

use crate::state::Machine;
use sqlite_items::Items;

// A list without its numbers.
fn emptied(list: Items<u32>) -> Items<u32>
    ensures { result ≡ [] }
{
    let mut list = list;
    while let Some(_) = list.pop() {}
    list
}

impl<'a> Machine<'a> {
    /// An empty list, for the arguments of a call or the variables of a function: that of a call that is over, if there
    /// is one.
    pub fn list(&mut self) -> Items<u32>
        ensures empty { result ≡ [] }
        ensures still { self.new ≡ self.old }
    {
        match self.spare.pop() {
            None => Items::new(self.parts.alloc),
            Some(list) => emptied(list),
        }
    }
}
