//! Registers, cells and codes of traps, as the routines name them.

use mips_encoder::Register;

/// A register for what lives no longer than an instruction or two.
pub const AT: Register = Register::AT;

/// The answer.
pub const V0: Register = Register::V0;

/// What a routine computes.
pub const V1: Register = Register::V1;

/// The first argument.
pub const A0: Register = Register::A0;

/// The second argument.
pub const A1: Register = Register::A1;

/// The third argument.
pub const A2: Register = Register::A2;

/// What a routine computes.
pub const A3: Register = Register::A3;

/// The cells stand below the address in it.
pub const GP: Register = Register::GP;

/// Always 0.
pub const ZERO: Register = Register::ZERO;

/// The offset from `$gp` of the next heap address, -4 as 16 bits.
pub const HEAP_CELL: u32 = 65532;

/// Of the next closure's address, -8.
pub const NEXT_CELL: u32 = 65528;

/// Of the number of specifications, -12.
pub const COUNT_CELL: u32 = 65524;

/// Of the next function's number, -16.
pub const FUNCTION_CELL: u32 = 65520;

/// Of the next address of the arena, -20.
pub const ARENA_CELL: u32 = 65516;

/// Of the size so far, -24.
pub const SIZE_CELL: u32 = 65512;

/// Of the parameters so far, -28.
pub const PARAMETERS_CELL: u32 = 65508;

/// Of the newest closure, -32.
pub const NEWEST_CELL: u32 = 65504;

/// -1 as 16 bits.
pub const LAST: u32 = 65535;

/// -2.
pub const LAST_BUT_ONE: u32 = 65534;

/// The code of the trap BadSpec.
pub const BAD_SPEC: u32 = 18;

/// That of BadParam.
pub const BAD_PARAMETER: u32 = 19;

/// That of SpecLimit.
pub const SPEC_LIMIT: u32 = 22;

/// That of SizeLimit.
pub const TOO_LARGE: u32 = 23;

/// That of ArenaLimit.
pub const ARENA_LIMIT: u32 = 24;

/// That of TableLimit.
pub const TABLE_LIMIT: u32 = 25;

/// The kind of the closure of a local variable of generated code.
pub const LOCAL_KIND: u32 = 3;

/// That of a parameter.
pub const PARAMETER_KIND: u32 = 4;
