//! A code of layers, with those in their lists of parameters, so that types are compared as bytes.

ghost use Rattle.std.specs.Prelude.{◌≡◌, [], ◌++◌, ◌<◌, ◌≤◌, length, map, take, IfOk, OnOk};
ghost use Rattle.c_types.specs.Types as types;
ghost use Rattle.c_type_refs.specs.Codes as spec;

use c_types::{Base, CType, Integer, Layer};
use shared_bytes::{LentSymbols, Symbols};
use sqlite_items::Items;
use std::alloc::{AllocError, Global};

/// What ends a list of codes, and begins none.
const END_MARK: u8 = 15;

fn kind_code(kind: Integer) -> u8
    ensures value { result ≡ spec.kind_code kind }
    ensures symbol { result < 7 }
{
    match kind {
        Integer::Char => 1,
        Integer::UnsignedChar => 2,
        Integer::Short => 3,
        Integer::UnsignedShort => 4,
        Integer::Int => 5,
        Integer::Unsigned => 6,
    }
}

fn base_code(base: Base) -> u8
    ensures value { result ≡ spec.base_code base }
    ensures symbol { result < 7 }
{
    match base {
        Base::Void => 0,
        Base::Integer(kind) => kind_code(kind),
    }
}

// How many hexadecimal digits a length has beyond the first.
fn more_digits(count: u32) -> u8
    ensures value { result ≡ spec.more_digits count }
    ensures fits { count < spec.beyond result }
{
    if count < 0x10 {
        0
    } else if count < 0x100 {
        1
    } else if count < 0x1000 {
        2
    } else if count < 0x1_0000 {
        3
    } else if count < 0x10_0000 {
        4
    } else if count < 0x100_0000 {
        5
    } else if count < 0x1000_0000 {
        6
    } else {
        7
    }
}

// Writes the hexadecimal digits of a number, so many and one more, the low one first.
fn write_digits(more: u8, count: u32, code: &mut Symbols) -> Result<(), AllocError>
    requires { count < spec.beyond more }
    ensures { OnOk result (code.new ≡ code.old ++ spec.digits more count) }
{
    if more == 0 {
        return code.push(count as u8);
    }
    code.push((count % 16) as u8)?;
    write_digits(more - 1, count / 16, code)
}

// Writes the code of an array: the first symbol says how many digits the length has.
fn write_array(count: u32, code: &mut Symbols) -> Result<(), AllocError>
    ensures { OnOk result (code.new ≡ code.old ++ spec.array_code count) }
{
    let more = more_digits(count);
    code.push(7 + more)?;
    write_digits(more, count, code)
}

// Writes the code of a layer.
#[cycle(write)]
fn write_layer(layer: &Layer, code: &mut Symbols) -> Result<(), AllocError>
    ensures { OnOk result (code.new ≡ code.old ++ spec.layer_code layer.now) }
{
    match layer {
        Layer::Pointer => code.push(0)?,
        Layer::Unlisted => code.push(1)?,
        Layer::Cspec => code.push(2)?,
        Layer::Vspec => code.push(3)?,
        Layer::Function(list) => write_function(list.as_slice(), code)?,
        Layer::Array(count) => write_array(*count, code)?,
    }
    Ok(())
}

// Writes the code of a function: the first symbol tells whether its list has no type, one, or more, with a mark behind
// them.
#[cycle(write)]
fn write_function(list: &[CType], code: &mut Symbols) -> Result<(), AllocError>
    ensures { OnOk result (code.new ≡ code.old ++ spec.function_code (map spec.type_code list.now)) }
{
    match list {
        [] => code.push(4),
        [only] => {
            code.push(5)?;
            write_type(only, code)
        }
        _ => {
            code.push(6)?;
            for t in list {
                write_type(t, code)?;
            }
            code.push(END_MARK)
        }
    }
}

// Writes the code of a type of a list.
#[cycle(write)]
#[tactic(auto, using(crate::proofs::Coded::of_type))]
fn write_type(t: &CType, code: &mut Symbols) -> Result<(), AllocError>
    ensures { OnOk result (code.new ≡ code.old ++ spec.type_code t.now) }
{
    code.push(base_code(t.base))?;
    write_layers(t.layers.as_slice(), code)
}

// Writes the codes of the layers of a type of a list.
#[cycle(write)]
fn write_layers(layers: &[Layer], code: &mut Symbols) -> Result<(), AllocError>
    ensures { OnOk result (code.new ≡ code.old ++ spec.closed layers.now) }
{
    for layer in layers {
        write_layer(layer, code)?;
    }
    code.push(END_MARK)
}

/// The code of layers, and where that of each of them ends.
#[derive(Drop)]
pub(crate) struct Code {
    /// The codes one behind the other.
    pub(crate) symbols: Symbols,
    /// How many of the symbols are those of the first layer, of the first two and so on.
    pub(crate) ends: Items<u32>,
}

impl Code {
    /// The code of no layer.
    pub(crate) fn none(alloc: Global) -> Code
        ensures { result ≡ spec.code_of [] }
    {
        Code {
            symbols: Symbols::new(alloc),
            ends: Items::new(alloc),
        }
    }

    pub(crate) fn new(alloc: Global, layers: &[Layer]) -> Result<Code, AllocError>
        ensures { IfOk result (λ c. c ≡ spec.code_of layers.now) }
    {
        let mut symbols = Symbols::new(alloc);
        let mut ends = Items::new(alloc);
        for layer in layers {
            write_layer(layer, &mut symbols)?;
            ends.push(symbols.len())?;
        }
        Ok(Code { symbols, ends })
    }
}

/// The code of the first `count` layers.
pub(crate) fn first<'a>(code: &LentSymbols<'a>, ends: &[u32], count: usize) -> LentSymbols<'a>
    requires marked { count ≤ length ends.now }
    requires within { spec.end_of ends.now count ≤ length code.now }
    ensures { result ≡ take (spec.end_of ends.now count) code.now }
{
    code.first(if count == 0 { 0 } else { ends[count - 1] })
}

// The codes of the types of a list.
fn codes_of_list(alloc: Global, list: &[CType]) -> Result<Items<Code>, AllocError>
    ensures { IfOk result (λ codes. codes ≡ spec.codes_of_list list.now) }
{
    let mut found = Items::new(alloc);
    for t in list {
        let code = Code::new(alloc, t.layers.as_slice())?;
        found.push(code)?;
    }
    Ok(found)
}

// The codes of the types of a layer's list.
fn codes_in(alloc: Global, layer: &Layer) -> Result<Items<Code>, AllocError>
    ensures { IfOk result (λ codes. codes ≡ spec.codes_in layer.now) }
{
    match layer {
        Layer::Function(list) => codes_of_list(alloc, list.as_slice()),
        Layer::Pointer | Layer::Array(_) | Layer::Unlisted | Layer::Cspec | Layer::Vspec => {
            Ok(Items::new(alloc))
        }
    }
}

/// The codes of the types of each layer's list.
pub(crate) fn codes_of_lists(
    alloc: Global,
    layers: &[Layer],
) -> Result<Items<Items<Code>>, AllocError>
    ensures { IfOk result (λ codes. codes ≡ spec.codes_of_lists layers.now) }
{
    let mut found = Items::new(alloc);
    for layer in layers {
        let codes = codes_in(alloc, layer)?;
        found.push(codes)?;
    }
    Ok(found)
}
