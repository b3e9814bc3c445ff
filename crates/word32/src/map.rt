//! The memory map: where each region of the machine begins, and how long it is.
//!
//! Addresses and lengths are in bytes, unless a name says words. All of them are multiples of 4, so an aligned access
//! that begins in a region ends in it.

/// The bytes of a segment, 256 MB. A jump goes to an address of the segment in which its delay slot stands, after the
/// MIPS R2000 architecture manual. All code stands in the first segment, so a jump reaches all of it.
pub const SEGMENT_BYTES: u32 = 0x1000_0000;

/// The text: the image's words. It is loaded and executed, and a store to it is refused.
pub const TEXT: u32 = 0x0040_0000;
/// The most bytes that the text has.
pub const TEXT_BYTES: u32 = 62_914_560;
/// The most words that the text has.
pub const TEXT_WORDS: u32 = 15_728_640;

/// The arena of compiled code. It is loaded and stored to, and executed where it was flushed.
pub const ARENA: u32 = 0x0400_0000;
/// The bytes of the arena.
pub const ARENA_BYTES: u32 = 33_554_432;
/// The words of the arena.
pub const ARENA_WORDS: u32 = 8_388_608;

/// The objects: globals and strings, then the heap, then the frame objects of active calls.
pub const OBJECTS: u32 = 0x1000_0000;
/// The bytes of the objects.
pub const OBJECT_BYTES: u32 = 16_777_216;
/// The most bytes of globals and strings, with which the objects begin.
pub const GLOBAL_BYTES: u32 = 4_194_304;
/// The heap, which `malloc` takes upwards.
pub const HEAP: u32 = 0x1040_0000;
/// The frame objects of active calls, upwards in order of call. The heap ends here.
pub const FRAMES: u32 = 0x10c0_0000;
/// The end of the objects.
pub const OBJECTS_END: u32 = 0x1100_0000;

/// The closures that stand for specifications.
pub const CLOSURES: u32 = 0x2000_0000;
/// The bytes of the closures.
pub const CLOSURE_BYTES: u32 = 4_194_304;

/// The specification rows: row s has the address of the closure of specification s, at `SPEC_ROWS + 4 * (s - 1)`.
pub const SPEC_ROWS: u32 = 0x2040_0000;
/// The bytes of the specification rows.
pub const SPEC_ROW_BYTES: u32 = 1_048_576;

/// The cells: words that the run-time routines keep, addressed from `GLOBAL_POINTER`.
pub const CELLS: u32 = 0x2050_f000;
/// The bytes of the cells.
pub const CELL_BYTES: u32 = 4_096;
/// What `$gp` holds while a program runs: the end of the cells.
pub const GLOBAL_POINTER: u32 = 0x2051_0000;
/// The cell of the next heap address, at -4 from `GLOBAL_POINTER`.
pub const NEXT_HEAP_CELL: u32 = 0x2050_fffc;
/// The cell of the next closure address, at -8.
pub const NEXT_CLOSURE_CELL: u32 = 0x2050_fff8;
/// The cell of the number of specifications, at -12.
pub const SPEC_COUNT_CELL: u32 = 0x2050_fff4;
/// The cell of the next function's number, at -16.
pub const NEXT_FUNCTION_CELL: u32 = 0x2050_fff0;
/// The cell of the next arena address, at -20.
pub const NEXT_ARENA_CELL: u32 = 0x2050_ffec;
/// The cell of the size so far of the specification that is being made, at -24.
pub const SIZE_CELL: u32 = 0x2050_ffe8;
/// The cell of the parameters so far of the specification that is being made, at -28.
pub const PARAMETERS_CELL: u32 = 0x2050_ffe4;
/// The cell of the newest closure, at -32.
pub const CLOSURE_CELL: u32 = 0x2050_ffe0;
/// The cell of the number of active calls of compiled functions, at -36.
pub const ACTIVE_CALLS_CELL: u32 = 0x2050_ffdc;

/// The function table: row n is two words, address then count of parameters, at `FUNCTION_TABLE + 8 * n`. It is
/// loaded; only the publish service writes it.
pub const FUNCTION_TABLE: u32 = 0x2051_0000;
/// The bytes of the function table.
pub const FUNCTION_TABLE_BYTES: u32 = 524_288;
/// The rows of the function table.
pub const FUNCTION_ROWS: u32 = 65_536;
/// The count of parameters in a row that isn't published.
pub const UNPUBLISHED: u32 = 0xffff_ffff;

/// The emit stack, on which code-generating functions keep their return addresses.
pub const EMIT_STACK: u32 = 0x2060_0000;
/// The bytes of the emit stack.
pub const EMIT_STACK_BYTES: u32 = 1_048_576;

/// The stack.
pub const STACK: u32 = 0x7f00_0000;
/// The bytes of the stack.
pub const STACK_BYTES: u32 = 16_777_216;
/// The end of the stack, where `$sp` starts.
pub const STACK_TOP: u32 = 0x8000_0000;

/// The start, with which every image that the compiler makes begins, and at which it is entered.
pub const START: u32 = 0x0040_0000;
/// The bytes of the start's block and of each run-time routine's: 64 words. The routine that builder op `Run r` calls
/// stands at `START + ROUTINE_BYTES * r`.
pub const ROUTINE_BYTES: u32 = 256;
/// The routine that makes a new specification.
pub const RT_NEW: u32 = 0x0040_0d00;
/// The first function of an image, behind the start and the run-time routines.
pub const FUNCTIONS: u32 = 0x0040_1000;
