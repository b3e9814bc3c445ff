//! The function that the walk is in: its variables, and which of them need an address.

ghost use Rattle.std.specs.Prelude.{◌≡◌, ◌+◌, ◌++◌, ◌∷◌, [], false, min, OnOk};
ghost use Rattle.check_rules.specs.Frames as spec;

use c_type_refs::{TypeRef, limited_size};
use c_types::Layer;
use check_types::width_of;
use limits::program::PLACE_TOP;
use sqlite_items::Items;
use std::alloc::{AllocError, Global};
use std::mem;
use typed_tree::Stmt;

/// Where a variable of a function stands.
#[derive(Clone, Copy, PartialEq, Eq)]
pub enum Home {
    /// In the register variable of its own number.
    Register,
    /// In the frame object at this offset in bytes.
    Object(u32),
}

/// What the walk knows of the function that it is in. After an error it is not to be used any more.
pub struct Frame {
    /// The type that the function answers.
    pub result: TypeRef,
    /// Where its variables stand, by their numbers; the parameters are the first.
    pub homes: Items<Home>,
    /// How many variables the tick has so far in which the walk is.
    pub inner: u32,
    /// The bytes of its frame objects so far, up to one word over the limit.
    pub object: u32,
    /// The nodes of the variables so far of the innermost block.
    pub nodes: Items<Stmt>,
    /// Whether this walk saw that a variable needs an address, by its number.
    pub marks: Items<bool>,
    /// The marks of the functions before, in the order of the text.
    pub done: Items<Items<bool>>,
    /// The marks of all functions, as an earlier walk made them.
    pub objects: Items<Items<bool>>,
}

impl Drop for Frame {
    fn drop(self) {
        let Frame {
            result: _,
            homes: _,
            inner: _,
            object: _,
            nodes: _,
            marks: _,
            done: _,
            objects: _,
        } = self;
    }
}

// A count of things, as far as a word counts.
pub(crate) fn count(len: usize) -> u32
    ensures { result ≡ min len 4294967295 }
{
    len.min(4294967295) as u32
}

// The sum, as far as a word counts.
pub(crate) fn plus(a: u32, b: u32) -> u32
    ensures { result ≡ min (a + b) 4294967295 }
{
    (u64::from(a) + u64::from(b)).min(4294967295) as u32
}

fn words(t: &TypeRef) -> u32
    ensures { result ≡ spec.words t.now }
{
    match limited_size(t) {
        None => 0,
        Some(bytes) => ((u64::from(bytes) + 3) / 4) as u32,
    }
}

fn after(object: u32, words: u32) -> u32
    ensures { result ≡ spec.after object words }
{
    (u64::from(object) + 4 * u64::from(words)).min(PLACE_TOP) as u32
}

impl Frame {
    /// Before all functions.
    pub fn new(alloc: Global) -> Frame
        ensures { result ≡ spec.new }
    {
        Frame {
            result: check_types::void(alloc),
            homes: Items::new(alloc),
            inner: 0,
            object: 0,
            nodes: Items::new(alloc),
            marks: Items::new(alloc),
            done: Items::new(alloc),
            objects: Items::new(alloc),
        }
    }

    /// The number of the function's next variable.
    pub fn number(&self) -> u32
        ensures { result ≡ spec.number self.now }
    {
        count(self.homes.len())
    }

    /// The number of the tick's next variable: they follow the function's.
    pub fn inner_number(&self) -> u32
        ensures { result ≡ spec.inner_number self.now }
    {
        plus(self.number(), self.inner)
    }

    fn needs_address(&self) -> bool
        ensures { result ≡ spec.needs_address self.now }
    {
        match self.objects.get(self.done.len()) {
            None => false,
            Some(marks) => match marks.get(self.homes.len()) {
                None => false,
                Some(mark) => *mark,
            },
        }
    }

    /// Marks that the variable of this number needs an address.
    pub fn mark(&mut self, n: u32)
        ensures { self.new ≡ spec.marked n self.old }
    {
        let at = n as usize;
        if at < self.marks.len() {
            self.marks.set(at, true);
        }
    }

    /// Whether the next variable is a frame object, where it has this type.
    pub fn is_object(&self, t: &TypeRef) -> bool
        ensures { result ≡ spec.is_object t.now self.now }
    {
        matches!(t.outermost(), Some(Layer::Array(_))) || self.needs_address()
    }

    // Notes where the next variable stands, which has no mark yet.
    fn stand(&mut self, home: Home) -> Result<(), AllocError>
        ensures { OnOk result (self.new
            ≡ record self.old { homes = self.old.homes ++ home ∷ []; marks = self.old.marks ++ false ∷ [] }) }
    {
        self.homes.push(home)?;
        self.marks.push(false)
    }

    /// One variable more of a block of the function: a frame object where it is an array, or where an earlier walk saw
    /// that it needs an address.
    #[tactic(auto, unfolding(crate::specs::Frames::variable))]
    pub fn variable(&mut self, t: &TypeRef) -> Result<(), AllocError>
        ensures { OnOk result (self.new ≡ spec.variable t.now self.old) }
    {
        if self.is_object(t) {
            let at = self.object;
            let words = words(t);
            self.stand(Home::Object(at))?;
            self.object = after(at, words);
            self.nodes.push(Stmt::Object(at, words))
        } else {
            let n = self.number();
            self.stand(Home::Register)?;
            self.nodes.push(Stmt::Variable(n))
        }
    }

    /// One parameter more of the function: a frame object where an earlier walk saw that it needs an address.
    #[tactic(auto, unfolding(crate::specs::Frames::parameter))]
    pub fn parameter(&mut self, t: &TypeRef) -> Result<(), AllocError>
        ensures { OnOk result (self.new ≡ spec.parameter t.now self.old) }
    {
        let n = self.number();
        let width = width_of(t);
        if self.needs_address() {
            let at = self.object;
            self.stand(Home::Object(at))?;
            self.object = after(at, 1);
            self.nodes.push(Stmt::ParameterObject(n, width, at))
        } else {
            self.stand(Home::Register)?;
            self.nodes.push(Stmt::Parameter(n, width))
        }
    }

    /// One variable more of a block of the tick.
    pub fn inner_variable(&mut self) -> Result<(), AllocError>
        ensures { OnOk result (self.new ≡ spec.inner_variable self.old) }
    {
        let n = self.inner;
        self.nodes.push(Stmt::Variable(n))?;
        self.inner = plus(n, 1);
        Ok(())
    }

    /// Enters a block, which has no variables yet; the nodes of those of the block round it.
    pub fn enter(&mut self, alloc: Global) -> Items<Stmt>
        ensures outer { result ≡ self.old.nodes }
        ensures after { self.new ≡ spec.entered self.old }
    {
        mem::replace(&mut self.nodes, Items::new(alloc))
    }

    /// Leaves a block to the one round it, whose variables have these nodes; the nodes of its own.
    pub fn leave(&mut self, outer: Items<Stmt>) -> Items<Stmt>
        ensures inner { result ≡ self.old.nodes }
        ensures after { self.new ≡ spec.left outer self.old }
    {
        mem::replace(&mut self.nodes, outer)
    }

    /// Enters a function that answers this type.
    pub fn begin(&mut self, alloc: Global, result_type: TypeRef)
        ensures { self.new ≡ spec.began result_type self.old }
    {
        self.result = result_type;
        self.homes = Items::new(alloc);
        self.inner = 0;
        self.object = 0;
        self.nodes = Items::new(alloc);
        self.marks = Items::new(alloc);
    }

    /// Leaves a function.
    pub fn end(&mut self, alloc: Global) -> Result<(), AllocError>
        ensures { OnOk result (self.new ≡ spec.ended self.old) }
    {
        let marks = mem::replace(&mut self.marks, Items::new(alloc));
        self.done.push(marks)?;
        Ok(())
    }

    /// Goes back before all functions, with the marks that this walk made as those of an earlier one.
    pub fn again(&mut self, alloc: Global)
        ensures { self.new ≡ spec.again self.old }
    {
        let objects = mem::replace(&mut self.done, Items::new(alloc));
        *self = Frame::new(alloc);
        self.objects = objects;
    }
}
