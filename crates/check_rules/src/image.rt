//! The bytes of globals and of strings, and where they stand.

ghost use Rattle.std.specs.Prelude.{◌≡◌, ◌++◌, replicate, IfOk, OnOk};
ghost use Rattle.check_rules.specs.Images as spec;

use limits::program::PLACE_TOP;
use sqlite_items::Items;
use std::alloc::{AllocError, Global};
use word32::map;

/// What the walk knows of the bytes that a program begins with. After an error it is not to be used any more.
#[derive(Drop)]
pub struct Image {
    /// The bytes of the globals so far, up to the last one that has an initializer.
    pub globals: Items<u8>,
    /// The end of the globals so far, from the first one on, up to one word over the limit.
    pub end: u32,
    /// The bytes of the strings so far.
    pub strings: Items<u8>,
    /// Where the strings begin, from the first global on, as an earlier walk found it.
    pub strings_at: u32,
}

fn aligned(n: u32) -> u32
    ensures { result ≡ spec.aligned n }
{
    ((u64::from(n) + 3) / 4 * 4).min(PLACE_TOP) as u32
}

// Puts so many zeros behind these bytes.
fn add_zeros(alloc: Global, bytes: &mut Items<u8>, n: usize) -> Result<(), AllocError>
    ensures { OnOk result (bytes.new ≡ bytes.old ++ replicate n 0) }
{
    let zeros = vec![in alloc; 0; n]?;
    bytes.append(Items::from_vec(zeros))
}

impl Image {
    /// Before all items.
    pub fn new(alloc: Global) -> Image
        ensures { result ≡ spec.new }
    {
        Image {
            globals: Items::new(alloc),
            end: 0,
            strings: Items::new(alloc),
            strings_at: 0,
        }
    }

    /// Takes a string with its zero byte; its address.
    pub fn string(&mut self, alloc: Global, bytes: &[u8]) -> Result<u32, AllocError>
        ensures place { IfOk result (λ a. a ≡ spec.string_place self.old) }
        ensures after { OnOk result (self.new ≡ spec.with_string bytes.now self.old) }
    {
        let missing = (4 - self.strings.len() % 4) % 4;
        add_zeros(alloc, &mut self.strings, missing)?;
        let at = self.strings.len().min(u32::MAX as usize) as u64;
        let address = u64::from(map::OBJECTS) + u64::from(self.strings_at) + at;
        let mut own = Items::from_slice(alloc, bytes)?;
        own.push(0)?;
        self.strings.append(own)?;
        Ok(address.min(u64::from(u32::MAX)) as u32)
    }

    /// Takes a global of so many bytes; its place, from the first one on.
    pub fn global(&mut self, size: u32) -> u32
        ensures place { result ≡ spec.place self.old }
        ensures after { self.new ≡ spec.with_global size self.old }
    {
        let at = aligned(self.end);
        self.end = (u64::from(at) + u64::from(size)).min(PLACE_TOP) as u32;
        at
    }

    /// Gives the global at this place its first bytes.
    pub fn fill(&mut self, alloc: Global, at: u32, bytes: Items<u8>) -> Result<(), AllocError>
        ensures { OnOk result (self.new ≡ spec.with_bytes at bytes self.old) }
    {
        if at > map::GLOBAL_BYTES {
            return Ok(());
        }
        let missing = (at as usize).saturating_sub(self.globals.len());
        add_zeros(alloc, &mut self.globals, missing)?;
        self.globals.append(bytes)
    }

    /// Goes back before all items, with the end of these globals.
    pub fn again(&mut self, alloc: Global)
        ensures { self.new ≡ spec.again self.old }
    {
        self.strings_at = aligned(self.end);
        self.end = 0;
        self.globals = Items::new(alloc);
        self.strings = Items::new(alloc);
    }
}
