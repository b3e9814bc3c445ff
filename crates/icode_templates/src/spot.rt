//! Where the values of virtual registers stand.

ghost use Rattle.std.specs.Prelude.{◌≡◌, ◌+◌, ◌*◌, ◌<◌, ◌≤◌};
ghost use Rattle.limits.specs.declared.ops.TheConstants.{MOST_SLOTS};
ghost use Rattle.limits.specs.declared.program.TheConstants.{MOST_ARGUMENTS};
ghost use Rattle.word32.specs.declared.map.TheConstants.{OBJECT_BYTES, STACK_BYTES};
ghost use Rattle.icode_templates.specs.Layout.{laid, parameter_spot};
ghost use Rattle.icode_templates.specs.Templates.{below_end as offset_below_end};
ghost use Rattle.icode_templates.specs.Seen.{spot_seen};

use limits::run::STACK_OF_A_CALL;
use mips_encoder::Register;
use std::marker::Model;

/// The offset of a slot from `$sp` in bytes: below 2,147,483,648.
#[derive(Clone, Copy)]
pub(crate) struct SlotOffset {
    bytes: u32,
}

impl Model for SlotOffset {
    ghost use Rattle.std.specs.Prelude.{ℕ, ◌<◌};

    ghost Value = { ℕ };

    ghost view = { λ s. s.bytes };

    ghost invariant = { λ s. s.bytes < 2147483648 };

    ghost inverse = { λ n. record { bytes = n } };
}

impl SlotOffset {
    /// This offset.
    pub(crate) fn new(bytes: u32) -> Self
        requires { bytes < 2147483648 }
        ensures { result ≡ bytes }
    {
        SlotOffset { bytes }
    }

    /// The offset in bytes.
    pub(crate) fn bytes(self) -> u32
        ensures value { result ≡ self }
        ensures below { result < 2147483648 }
    {
        self.bytes
    }
}

/// Where a value stands: in a register of the machine, or in a slot of the frame.
#[derive(Clone, Copy)]
pub(crate) enum Spot {
    InRegister(Register),
    InSlot(SlotOffset),
}

/// The places of a function's virtual registers, the bytes of its frame, and the bytes of the frame's objects.
///
/// A place below 12 is a register of the machine: `$s0` to `$s7`, then `$t0` to `$t3`. Each other place is the slot of
/// its virtual register, and so is that of a register without a place.
#[derive(Clone, Copy)]
pub struct Layout<'a> {
    /// The place of each virtual register.
    pub places: &'a [u8],
    /// The bytes of the frame.
    pub frame: u32,
    /// The bytes of the frame's objects.
    pub objects: u32,
}

impl Layout<'_> {
    /// Where the virtual register stands.
    pub(crate) fn spot(&self, register: u32) -> Spot
        requires { register < MOST_SLOTS }
        ensures { spot_seen result ≡ (laid self.now.places.now self.now.frame self.now.objects).spot register }
    {
        let place = match self.places.get(register as usize) {
            Some(place) => *place as u32,
            None => 12,
        };
        if place < 8 {
            Spot::InRegister(Register::new(16 + place))
        } else if place < 12 {
            Spot::InRegister(Register::new(place))
        } else {
            Spot::InSlot(SlotOffset::new(STACK_OF_A_CALL + 4 * register))
        }
    }

    /// Where the parameter stands, in the frame of the caller.
    pub(crate) fn parameter(&self, index: u32) -> Spot
        requires index { index < MOST_ARGUMENTS }
        requires frame { self.now.frame ≤ STACK_BYTES }
        ensures { spot_seen result ≡ parameter_spot (laid self.now.places.now self.now.frame self.now.objects) index }
    {
        Spot::InSlot(SlotOffset::new(self.frame + 4 * index))
    }

    /// What is added to `$fp` for the address that is this many bytes into the frame's objects.
    pub(crate) fn below_end(&self, offset: u32) -> u32
        requires { self.now.objects ≤ OBJECT_BYTES }
        ensures { result ≡ offset_below_end (laid self.now.places.now self.now.frame self.now.objects) offset }
    {
        offset.wrapping_sub(self.objects)
    }
}
