//! The services, and what they keep from one to the next.

ghost use Rattle.std.specs.Prelude.{◌≡◌, ◌+◌, ◌^◌, ◌≤◌, IfOk, length};
ghost use Rattle.limits.specs.declared.ops.TheConstants.{MOST_REGISTERS};
ghost use Rattle.code_arena.specs.Arena.{Arena};
ghost use Rattle.code_arena.specs.Kept.{arena_of, rows_of};
ghost use Rattle.mips_model.specs.Choices.{Choice};
ghost use Rattle.mips_model.specs.CodeServices as services;
ghost use Rattle.mips_model.specs.CodeServices.{Rows};
ghost use Rattle.icode_service.specs.Served.{Did, ChosenFor, IsChosen};

use crate::compile::compile;
use crate::table::{flush, publish};
use crate::tables::Tables;
use code_arena::{CodeArena, FunctionRows};
use icode_ir::Builder;
use limits::ops::MOST_REGISTERS;
use limits::program::MOST_ARGUMENTS;
use linear_scan::SLOT;
use mips_model::BadService;
use std::alloc::{AllocError, Global};
use std::marker::Model;
use std::mem::swap;

/// The services, with the builder of the function that is begun and the places of the one that was finished last. They
/// take all their memory in `new`.
pub struct Service {
    builder: Builder,
    is_begun: bool,
    tables: Tables,
    // the places of the function that was finished last stand in front
    places: Vec<u8>,
    count: u32,
    // room for those of the next
    next: Vec<u8>,
    spills: u64,
}

impl Drop for Service {
    fn drop(self) {
        let Service {
            builder: _,
            is_begun: _,
            tables: _,
            places: _,
            count: _,
            next: _,
            spills: _,
        } = self;
    }
}

impl Model for Service {
    ghost use Rattle.mips_model.specs.CodeServices.{Generator};
    ghost use Rattle.icode_service.specs.Held.{generator, IsService};

    ghost Value = { Generator };

    ghost view = { λ s. generator s.is_begun s.builder s.count s.places.items s.spills };

    ghost invariant = { λ s. IsService s.is_begun s.builder s.count s.places.items s.next.items };
}

// Room for so many places. The only error is want of memory.
fn slots(alloc: Global, count: u32) -> Result<Vec<u8>, AllocError>
    ensures { IfOk result (λ made. length made.items ≡ count) }
{
    let made = vec![in alloc; SLOT; count as usize]?;
    Ok(made)
}

impl Service {
    /// The services before the first one: no function is begun, and none was finished.
    ///
    /// # Errors
    /// Where memory is wanting.
    pub fn new(alloc: Global) -> Result<Service, AllocError>
        ensures { IfOk result (λ s. s ≡ services.fresh) }
    {
        let places = slots(alloc, MOST_REGISTERS)?;
        let next = slots(alloc, MOST_REGISTERS)?;
        let tables = Tables::new(alloc)?;
        let builder = match Builder::new(alloc) {
            Ok(builder) => builder,
            Err(why) => {
                drop(tables);
                return Err(why);
            }
        };
        Ok(Service {
            builder,
            is_begun: false,
            tables,
            places,
            count: 0,
            next,
            spills: 0,
        })
    }

    /// The services before the first one again, whatever was asked of them. It takes no memory.
    pub fn reset(&mut self)
        ensures { self.new ≡ services.fresh }
    {
        self.is_begun = false;
        self.count = 0;
        self.spills = 0;
    }

    /// The places of the registers of the function that was finished last, one for each; none before the first.
    pub fn choices(&self) -> &[u8]
        ensures { result.now ≡ self.now.choices }
    {
        &self.places[..self.count as usize]
    }

    /// The same places, for which the services are given up.
    pub fn into_choices(self) -> Vec<u8>
        ensures { result.items ≡ self.choices }
    {
        let Service {
            builder,
            is_begun: _,
            tables,
            mut places,
            count,
            next,
            spills: _,
        } = self;
        drop(builder);
        drop(tables);
        drop(next);
        places.truncate(count as usize);
        places
    }

    /// How many registers with an interval had a slot, in all functions that were finished.
    pub fn spills(&self) -> u64
        ensures { result ≡ self.now.spills }
    {
        self.spills
    }

    /// Service 64: begins a function of so many parameters, and answers 0.
    pub fn begin(&mut self, parameters: u32) -> Result<u32, BadService>
        ensures { (a : Arena) (r : Rows) → Did (services.begin parameters self.old) self.old self.new a a r r result }
    {
        if self.is_begun {
            return Err(BadService::Begun);
        }
        if parameters > MOST_ARGUMENTS {
            return Err(BadService::BadArgument);
        }
        self.builder.begin(parameters);
        self.is_begun = true;
        Ok(0)
    }

    /// Service 65: builds the op of a code and two arguments, and answers 0.
    pub fn emit(&mut self, code: u32, first: u32, second: u32) -> Result<u32, BadService>
        ensures { (a : Arena) (r : Rows) →
            Did (services.emit code first second self.old) self.old self.new a a r r result }
    {
        if !self.is_begun {
            return Err(BadService::NotBegun);
        }
        let Some(op) = icode_ir::op(code, first, second) else {
            return Err(BadService::BadArgument);
        };
        if let Err(_) = self.builder.emit(op) {
            return Err(BadService::BadOp);
        }
        Ok(0)
    }

    /// Service 66: finishes the function that is begun. Its words are written from an address on, at most so many, with
    /// a frame of so many bytes; the answer is how many they are. The places of its registers are those of linear scan.
    /// The cost is linear in the ops and registers of the function, but for what the search for live ranges takes.
    pub fn finish(
        &mut self,
        at: u32,
        most: u32,
        frame: u32,
        arena: &mut CodeArena,
    ) -> Result<u32, BadService>
        // so that the count of spills stays in its range
        requires room { self.old.spills ≤ 2 ^ 63 }
        ensures finished { (choice : Choice) × ChosenFor self.old.build at most frame choice × ((r : Rows) →
            Did (services.finish choice at most frame self.old)
            self.old self.new (arena_of arena.old) (arena_of arena.new) r r result) }
        ensures few { self.new.spills ≤ self.old.spills + MOST_REGISTERS }
    {
        if !self.is_begun {
            return Err(BadService::NotBegun);
        }
        if let Err(_) = self.builder.finish() {
            return Err(BadService::NotEmpty);
        }
        let made = match compile(
            &self.builder,
            &mut self.tables,
            &mut self.next,
            at,
            most,
            frame,
            arena,
        ) {
            Ok(made) => made,
            Err(why) => {
                self.builder.reopen();
                return Err(why);
            }
        };
        self.is_begun = false;
        self.count = self.builder.registers();
        swap(&mut self.places, &mut self.next);
        self.spills += u64::from(made.spills);
        Ok(made.words)
    }

    /// The service of a number, with up to three arguments. It is refused for the first reason that holds, and changes
    /// nothing then.
    pub fn serve(
        &mut self,
        number: u32,
        first: u32,
        second: u32,
        third: u32,
        arena: &mut CodeArena,
        rows: &mut FunctionRows,
    ) -> Result<u32, BadService>
        requires room { self.old.spills ≤ 2 ^ 63 }
        ensures served { (choice : Choice) × IsChosen number first second third self.old choice ×
            Did (services.service choice number first second third self.old) self.old self.new
            (arena_of arena.old) (arena_of arena.new) (rows_of rows.old) (rows_of rows.new) result }
        ensures few { self.new.spills ≤ self.old.spills + MOST_REGISTERS }
    {
        match number {
            64 => self.begin(first),
            65 => self.emit(first, second, third),
            66 => self.finish(first, second, third, arena),
            67 => flush(arena, first, second),
            68 => publish(rows, first, second, third),
            _ => Err(BadService::NoService),
        }
    }
}
