//! A set of small numbers in the order in which they came, which is emptied in constant time.

ghost use Rattle.std.specs.Prelude.{◌≡◌, ℕ, ◌+◌, ◌<◌, ◌≤◌, ◌++◌, IfOk, List, [], ◌∷◌, true, false, length};
ghost use Rattle.collections.specs.Members.{is_in, with_member};

use std::alloc::{AllocError, Global};
use std::marker::Model;

/// A set of numbers below a bound, listed in the order in which they came.
///
/// It is the sparse set of Briggs and Torczon: `positions` may hold anything for a number that is
/// not a member, since a member is a number whose position leads back to it. So nothing has to be
/// cleared, and membership, a new member and emptying each take constant time.
pub struct SparseSet {
    count: u32,
    members: Vec<u32>,
    positions: Vec<u32>,
}

impl Drop for SparseSet {
    fn drop(self) {
        let SparseSet {
            count: _,
            members: _,
            positions: _,
        } = self;
    }
}

impl Model for SparseSet {
    ghost use Rattle.std.specs.Prelude.{take, length};
    ghost use Rattle.collections.specs.Members.{Members};
    ghost use Rattle.collections.specs.Positions.{IsSparse};

    ghost Value = { Members };

    ghost view = { λ s. record {
      room = length s.positions.items;
      members = take s.count s.members.items;
    } };

    ghost invariant = { λ s. IsSparse s.count s.members.items s.positions.items };
}

impl SparseSet {
    /// The empty set, with room for the numbers below `room`.
    ///
    /// # Errors
    /// Where memory is wanting.
    pub fn new(alloc: Global, room: u32) -> Result<Self, AllocError>
        ensures { IfOk result (λ made. made ≡ record { room = room; members = [] }) }
    {
        let members = vec![in alloc; 0; room as usize]?;
        let positions = vec![in alloc; 0; room as usize]?;
        Ok(SparseSet {
            count: 0,
            members,
            positions,
        })
    }

    /// Empties the set, in constant time.
    pub fn clear(&mut self)
        ensures { self.new ≡ record self.old { members = [] } }
    {
        self.count = 0;
    }

    /// Whether a number below the room is a member.
    pub fn contains(&self, number: u32) -> bool
        requires { number < self.now.room }
        ensures { result ≡ is_in number self.now.members }
    {
        let position = self.positions[number as usize];
        position < self.count && self.members[position as usize] == number
    }

    /// Adds a number below the room as the last member, unless it is one.
    pub fn insert(&mut self, number: u32)
        requires { number < self.old.room }
        ensures { self.new ≡ record self.old { members = with_member number self.old.members } }
    {
        if !self.contains(number) {
            self.push(number);
        }
    }

    /// The members, each once, in the order in which they came.
    pub fn as_slice(&self) -> &[u32]
        ensures members { result.now ≡ self.now.members }
        ensures few { length self.now.members ≤ self.now.room }
    {
        &self.members[..self.count as usize]
    }

    // Adds a number that is not a member.
    fn push(&mut self, number: u32)
        requires room { number < self.old.room }
        requires new { is_in number self.old.members ≡ false }
        ensures { self.new ≡ record self.old { members = self.old.members ++ number ∷ [] } }
    {
        self.positions[number as usize] = self.count;
        self.members[self.count as usize] = number;
        self.count += 1;
    }
}
