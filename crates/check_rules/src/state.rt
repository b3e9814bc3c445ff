//! All that the walk knows.

use crate::frame::Frame;
use crate::functions::Functions;
use crate::image::Image;
use crate::labels::Labels;
use crate::ticks::Ticks;
use check_scopes::Scopes;

/// How far an expression is from running: which of its parts run when the function runs.
#[derive(Clone, Copy)]
pub enum Stage {
    /// It runs when its function runs.
    Function,
    /// It is in a tick: it runs in generated code.
    Tick,
    /// It is under a `$` in a tick: it runs when the tick is evaluated.
    Dollar,
}

/// What stands round a statement.
#[derive(Clone, Copy)]
pub struct Around {
    /// Which part of the program it runs in.
    pub stage: Stage,
    /// Whether a loop of the same function or tick is round it.
    pub in_loop: bool,
    /// Whether a switch of the same function or tick is round it.
    pub in_switch: bool,
    /// Whether it is directly an item of a switch's block.
    pub is_direct: bool,
}

/// All that the walk knows. After an error it is not to be used any more.
#[derive(Drop)]
pub struct State {
    /// The open scopes.
    pub scopes: Scopes,
    /// The function that the walk is in.
    pub frame: Frame,
    /// The tick that it is in, and the ticks so far.
    pub ticks: Ticks,
    /// The labels of the innermost switch.
    pub labels: Labels,
    /// The bytes of globals and strings.
    pub image: Image,
    /// The functions of the program.
    pub functions: Functions,
}
