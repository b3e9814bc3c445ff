//! How a function saves the registers of its places, and restores them.

ghost use Rattle.std.specs.Prelude.{◌≡◌, ◌+◌, ◌++◌, ◌<◌, ◌≤◌, length};
ghost use Rattle.icode_templates.specs.Frames.{saves, restores};
ghost use Rattle.icode_templates.specs.Layout.{place_register as register_of};
ghost use Rattle.icode_templates.specs.Words.{words};

use icode_saves::Saved;
use icode_templates::Snippet;
use mips_assembly::{lw, sw};
use mips_encoder::Register;

// The register of a place.
fn place_register(place: u32) -> Register
    requires { place < 12 }
    ensures { result ≡ register_of place }
{
    Register::new(if place < 8 { 16 + place } else { place })
}

/// The stores of the registers to the frame.
pub(crate) fn save(saved: &Saved, code: &mut Snippet)
    requires { length code.old ≤ 10 }
    ensures words { code.new ≡ code.old ++ words (saves saved.now) }
    ensures len { length code.new ≤ length code.old + 12 }
{
    saved.keeps_law();
    for place in 0..12u32 {
        if saved.has(place) {
            code.push(sw(place_register(place), 32 + 4 * place, Register::SP));
        }
    }
}

/// The loads of the registers from the frame.
pub(crate) fn restore(saved: &Saved, code: &mut Snippet)
    requires { length code.old ≤ 10 }
    ensures words { code.new ≡ code.old ++ words (restores saved.now) }
    ensures len { length code.new ≤ length code.old + 12 }
{
    saved.keeps_law();
    for place in 0..12u32 {
        if saved.has(place) {
            code.push(lw(place_register(place), 32 + 4 * place, Register::SP));
        }
    }
}
