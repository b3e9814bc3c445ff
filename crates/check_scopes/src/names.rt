//! Scopes of names.

ghost use Rattle.std.specs.Prelude.{◌≡◌, ℕ, ◌<◌, ◌-◌, ◌++◌, ◌∷◌, [], length, take, drop, slice_index_or};
ghost use Rattle.std.specs.Prelude.{None, Err, OnOk, OnErr, IfOk, ◌≢◌};
ghost use Rattle.std.specs.Option.{is_some, option_copied};
ghost use Rattle.check_scopes.specs.Scopes as spec;
ghost use Rattle.check_scopes.specs.Stack as stack;

use c_type_refs::TypeRef;
use name_numbers::Names;
use std::alloc::{AllocError, Global};
use std::marker::Model;
use thiserror::Error;

/// What kind of thing a name means.
#[derive(Clone, Copy)]
pub enum MeaningKind {
    /// A variable of a block.
    Variable,
    /// A parameter of a function.
    Parameter,
    /// A variable at file scope.
    Global,
    /// A function of the text.
    Function,
    /// A library function.
    Library,
}

/// What a name means.
#[derive(Drop)]
pub struct Meaning {
    /// What kind of thing it is.
    pub kind: MeaningKind,
    /// Its type.
    pub ctype: TypeRef,
    /// Its number or place among the things of its kind.
    pub index: u32,
}

/// Why a name was not declared.
#[derive(Clone, Copy, Debug, Error)]
pub enum DeclareFault {
    /// The innermost scope has the name.
    #[error("the innermost scope has the name already")]
    Taken,
    /// Memory was not found.
    #[error("memory was not found")]
    NoMemory,
}

impl From<AllocError> for DeclareFault {
    ghost use Rattle.std.specs.Prelude.{◌≡◌};
    ghost use Rattle.check_scopes.specs.declared.names.DeclareFault.TheVariants.{NoMemory};

    ghost from_gives = { λ _ e. e ≡ NoMemory };

    fn from(_error: AllocError) -> DeclareFault {
        DeclareFault::NoMemory
    }
}

// A declaration in an open scope: the number of its name, what that means, and the place of the declaration that it
// hides.
#[derive(Drop)]
struct Declared {
    number: usize,
    what: Meaning,
    hides: Option<usize>,
}

// The declarations of all open scopes, the innermost last, and for each number the place of its last declaration.
struct Stack {
    all: Vec<Declared>,
    heads: Vec<Option<usize>>,
}

// (derived, each place that drops one would look into it)
impl Drop for Stack {
    fn drop(self) {
        let Stack { all: _, heads: _ } = self;
    }
}

impl Model for Stack {
    ghost use Rattle.check_scopes.specs.Stack as stack;
    ghost use Rattle.c_types.specs.contracts.ctype.CType as inner;
    ghost use Rattle.std.specs.Coded.{codes};

    ghost Value = { stack.Numbered };

    ghost coded = { Prim.hlevel (codes, inner.the_row.coded) };

    ghost view = { λ s. stack.said s.all.items };

    ghost invariant = { λ s. stack.Linked s.all.items s.heads.items };
}

// Makes room for the head of a number.
#[tactic(auto, using(crate::proofs::Stacks::no_head_more))]
fn widen(heads: &mut Vec<Option<usize>>, number: usize) -> Result<(), AllocError>
    ensures room { OnOk result (number < length heads.new.items) }
    ensures same { (n : ℕ) → slice_index_or heads.new.items n None ≡ slice_index_or heads.old.items n None }
{
    while heads.len() <= number {
        heads.push(None)?;
    }
    Ok(())
}

impl Stack {
    fn new(alloc: Global) -> Stack
        ensures { result ≡ [] }
    {
        Stack {
            all: Vec::new(alloc),
            heads: Vec::new(alloc),
        }
    }

    #[tactic(auto, using(crate::proofs::Stacks::length_said))]
    fn len(&self) -> usize
        ensures { result ≡ length self.now }
    {
        self.all.len()
    }

    // The place of the last declaration of a number.
    fn head(&self, number: usize) -> Option<usize>
        ensures { result ≡ stack.last_place self.now number }
    {
        match self.heads.get(number) {
            Some(head) => *head,
            None => None,
        }
    }

    // What the last declaration of a number says.
    fn find(&self, number: usize) -> Option<&Meaning>
        ensures { option_copied result ≡ stack.last_of self.now number }
    {
        match self.head(number) {
            Some(place) => Some(&self.all[place].what),
            None => None,
        }
    }

    // Whether a number is declared at this place or behind it.
    fn has_from(&self, start: usize, number: usize) -> bool
        ensures { result ≡ is_some (stack.last_of (drop start self.now) number) }
    {
        match self.head(number) {
            Some(place) => start <= place,
            None => false,
        }
    }

    // Declares a number behind all others.
    fn push(&mut self, number: usize, what: Meaning) -> Result<(), AllocError>
        ensures ok { OnOk result (self.new ≡ self.old ++ (number, what) ∷ []) }
        ensures err { OnErr result (self.new ≡ self.old) }
    {
        widen(&mut self.heads, number)?;
        let place = self.all.len();
        let hides = self.heads[number];
        self.all.push(Declared {
            number,
            what,
            hides,
        })?;
        self.heads[number] = Some(place);
        Ok(())
    }

    // Takes the last declaration back: what it hid is seen again.
    fn pop(&mut self)
        ensures { self.new ≡ take (length self.old - 1) self.old }
    {
        if let Some(last) = self.all.pop() {
            self.heads[last.number] = last.hides;
        }
    }

    // Takes all declarations from this place on back.
    #[tactic(auto, using(crate::proofs::Stacks::shorter))]
    fn cut(&mut self, start: usize)
        ensures { self.new ≡ take start self.old }
    {
        while self.len() > start {
            self.pop();
        }
    }
}

/// The open scopes, the innermost last.
pub struct Scopes {
    alloc: Global,
    names: Names,
    // the declarations of all of them, and how many of these each has
    stack: Stack,
    sizes: Vec<usize>,
}

// (derived, each place that drops one would look into it)
impl Drop for Scopes {
    fn drop(self) {
        let Scopes {
            alloc: _,
            names: _,
            stack: _,
            sizes: _,
        } = self;
    }
}

impl Model for Scopes {
    ghost use Rattle.std.specs.Prelude.{length, ◌<◌};
    ghost use Rattle.check_scopes.specs.Scopes as spec;
    ghost use Rattle.check_scopes.specs.Kept as kept;
    ghost use Rattle.c_types.specs.contracts.ctype.CType as inner;
    ghost use Rattle.std.specs.Coded.{codes};

    ghost Value = { spec.Scopes };

    ghost coded = { Prim.hlevel (codes, inner.the_row.coded) };

    ghost view = { λ s. kept.scopes s.names s.stack s.sizes.items };

    ghost invariant = { λ s. kept.Kept s.names s.stack s.sizes.items };
}

impl Scopes {
    /// One open scope, which has no name.
    pub fn new(alloc: Global) -> Result<Scopes, AllocError>
        ensures { IfOk result (λ s. s ≡ [] ∷ []) }
    {
        let mut sizes = Vec::new(alloc);
        sizes.push(0)?;
        Ok(Scopes {
            alloc,
            names: Names::new(alloc),
            stack: Stack::new(alloc),
            sizes,
        })
    }

    /// Opens a scope inside the innermost one.
    pub fn open(&mut self) -> Result<(), AllocError>
        ensures ok { OnOk result (self.new ≡ self.old ++ [] ∷ []) }
        ensures err { OnErr result (self.new ≡ self.old) }
    {
        self.sizes.push(0)?;
        Ok(())
    }

    /// Drops the innermost scope, where more than one is open.
    pub fn close(&mut self)
        requires { 1 < length self.old }
        ensures { self.new ≡ take (length self.old - 1) self.old }
    {
        if let Some(size) = self.sizes.pop() {
            let start = self.stack.len() - size;
            self.stack.cut(start);
        }
    }

    /// How many scopes are open.
    pub fn depth(&self) -> usize
        ensures value { result ≡ length self.now }
        ensures some { 0 < result }
    {
        self.sizes.len()
    }

    /// Drops the inner scopes, so that at most `n` are left.
    #[tactic(auto, using(crate::proofs::Stacks::shorter))]
    pub fn close_to(&mut self, n: usize)
        requires { 0 < n }
        ensures { self.new ≡ take n self.old }
    {
        while self.depth() > n {
            self.close();
        }
    }

    /// Declares a name in the innermost scope; `Taken` exactly where that scope has it.
    pub fn declare(&mut self, name: &[u8], what: Meaning) -> Result<(), DeclareFault>
        ensures ok { OnOk result (self.new ≡ spec.declared self.old name.now what) }
        ensures free { OnOk result (spec.in_scope (spec.innermost self.old) name.now ≡ None) }
        ensures taken { result ≡ Err DeclareFault.Taken → spec.in_scope (spec.innermost self.old) name.now ≢ None }
        ensures err { OnErr result (self.new ≡ self.old) }
    {
        let number = self.names.number(self.alloc, name)?;
        let last = self.sizes.len() - 1;
        let size = self.sizes[last];
        let start = self.stack.len() - size;
        if self.stack.has_from(start, number) {
            return Err(DeclareFault::Taken);
        }
        match self.stack.push(number, what) {
            Ok(()) => {
                self.sizes[last] = self.stack.len() - start;
                Ok(())
            }
            Err(_) => Err(DeclareFault::NoMemory),
        }
    }

    /// What the innermost scope that has the name says of it, and none where no open scope has it.
    pub fn find(&self, name: &[u8]) -> Option<&Meaning>
        ensures { option_copied result ≡ spec.find self.now name.now }
    {
        match self.names.find(name) {
            Some(number) => self.stack.find(number),
            None => None,
        }
    }
}
