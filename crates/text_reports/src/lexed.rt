//! Prints the tokens of texts, or their first fault, a line each.

ghost use Rattle.std.specs.Prelude.{◌≤◌, length};
ghost use Rattle.limits.specs.declared.text.TheConstants.{LONGEST_TEXT};

use crate::denied::report_deny;
use c_lexer::tokens;
use std::io;
use tick_tree::Token;

// A list of up to a hundred tokens in full, each as KIND@PLACE+LENGTH:LINE, and of a longer one the count.
fn print_tokens(rt: &HostRuntime, title: &str, found: &[Token]) -> io::Result<()> {
    if 100 < found.len() {
        return println!(rt; "{title}: {} tokens", found.len());
    }
    print!(rt; "{title}:")?;
    for token in found {
        print!(rt;
            " {:?}@{}+{}:{}",
            token.kind, token.at, token.len, token.line
        )?;
    }
    println!(rt)
}

/// Prints the line of a text.
///
/// # Errors
/// Where it can't be written, or memory was not found.
pub fn report(rt: &HostRuntime, title: &str, text: &[u8]) -> io::Result<()>
    requires { length text.now ≤ LONGEST_TEXT }
{
    match tokens(rt.alloc(), text) {
        Ok(found) => {
            let printed = print_tokens(rt, title, &found);
            drop(found);
            printed
        }
        Err(why) => report_deny(rt, title, why),
    }
}
