//! The tick that the walk is in, and the ticks of the program so far.

ghost use Rattle.std.specs.Prelude.{◌≡◌, IfOk, OnOk};
ghost use Rattle.check_rules.specs.Ticks as spec;

use crate::frame::count;
use sqlite_items::{Boxed, Items};
use std::alloc::{AllocError, Global};
use std::mem;
use typed_tree::{CaptureKind, Expr, Tick, TickBody, body_size};

/// What the walk knows of ticks. After an error it is not to be used any more.
#[derive(Drop)]
pub struct Ticks {
    /// What the innermost tick captures so far, in the order of the text: `Capture` nodes.
    pub captures: Items<Expr>,
    /// The ticks of the program so far, in the order of the text.
    pub all: Items<Tick>,
}

impl Ticks {
    /// No ticks.
    pub fn new(alloc: Global) -> Ticks
        ensures { result ≡ spec.new }
    {
        Ticks {
            captures: Items::new(alloc),
            all: Items::new(alloc),
        }
    }

    /// Captures what this node gives; the number of the capture.
    pub fn capture(
        &mut self,
        alloc: Global,
        kind: CaptureKind,
        code: Boxed<Expr>,
    ) -> Result<u32, AllocError>
        ensures place { IfOk result (λ n. n ≡ spec.place self.old) }
        ensures after { OnOk result (self.new ≡ spec.captured kind code self.old) }
    {
        let n = count(self.captures.len());
        let node = typed_tree::capture(alloc, kind, code)?;
        self.captures.push(node.into_inner())?;
        Ok(n)
    }

    /// Enters a tick.
    pub fn enter(&mut self, alloc: Global)
        ensures { self.new ≡ spec.entered self.old }
    {
        self.captures = Items::new(alloc);
    }

    /// Leaves a tick of this body; the node that makes its specification.
    pub fn leave(&mut self, alloc: Global, body: TickBody) -> Result<Boxed<Expr>, AllocError>
        ensures node { IfOk result (λ e. e ≡ spec.node self.old) }
        ensures after { OnOk result (self.new ≡ spec.left body self.old) }
    {
        let n = count(self.all.len());
        let captures = mem::replace(&mut self.captures, Items::new(alloc));
        self.all.push(Tick {
            size: body_size(&body),
            body,
        })?;
        Boxed::new(alloc, Expr::Tick(n, captures))
    }
}
