//! Prints how many items the trees of texts have, or their first fault, a line each.

ghost use Rattle.std.specs.Prelude.{◌≤◌, length};
ghost use Rattle.limits.specs.declared.text.TheConstants.{LONGEST_TEXT};

use crate::tree_of;
use std::io;
use text_reports::report_deny;
use tick_tree::Deny;

/// Prints the line of a text.
pub(crate) fn report(rt: &HostRuntime, title: &str, text: &[u8]) -> io::Result<()>
    requires { length text.now ≤ LONGEST_TEXT }
{
    match tree_of(rt.alloc(), text) {
        Ok(tree) => {
            let items = tree.items().len();
            drop(tree);
            println!(rt; "{title}: a tree of {items} items")
        }
        Err(Deny::Refused(fault)) => println!(rt;
            "{title}: {} {} on line {} at token {}",
            fault.kind.number(),
            fault.kind.name(),
            fault.line,
            fault.token
        ),
        Err(why) => report_deny(rt, title, why),
    }
}
