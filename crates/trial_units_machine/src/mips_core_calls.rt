//! The first instructions of an image, up to its first service.

ghost use Rattle.std.specs.Prelude.{◌≡◌, ◌≤◌, ◌^◌, None};

use icode_service::Service;
use image_file::read;
use mips_core::Core;
use mips_encoder::Register;
use std::alloc::{AllocError, Global};

// The image of `ori $2,$0,10` and `syscall`, without data and functions.
const TWO_INSTRUCTIONS: [u8; 32] = [
    0x54, 0x49, 0x43, 0x4b, 0, 0, 0, 1, 0, 0x40, 0, 0, 0, 0, 0, 2, 0, 0, 0, 0, 0, 0, 0, 0, 0x34, 2,
    0, 0x0a, 0, 0, 0, 0x0c,
];

// Whether a core begins at its image's first word, goes one of five instructions far, has 10 in $2 then, no hazard, and
// hasn't stopped, and why the service makes no code: 10 is none that does.
fn stops_before_a_service(core: &mut Core, service: &mut Service) -> bool
    requires on { core.old.stopped ≡ None }
    requires room { service.old.spills ≤ 2 ^ 63 }
{
    let start = core.pc();
    let left = core.go_on(5);
    if left == 0 || core.stopped().is_some() {
        return false;
    }
    let number = core.register(Register::V0);
    let is_hazard = core.is_service_hazard();
    let why = match core.generate(service) {
        Ok(_) => 0,
        Err(why) => why.number(),
    };
    [start, number] == [0x0040_0000, 10] && left == 4 && !is_hazard && why == 1
}

fn stops_with(alloc: Global, service: &mut Service) -> Result<bool, AllocError>
    requires { service.old.spills ≤ 2 ^ 63 }
{
    match read(alloc, &TWO_INSTRUCTIONS) {
        Ok(image) => {
            let mut core = Core::new(alloc, &image)?;
            let stops = stops_before_a_service(&mut core, service);
            drop(core);
            Ok(stops)
        }
        Err(_) => Ok(false),
    }
}

fn stops(alloc: Global) -> Result<bool, AllocError> {
    let mut service = Service::new(alloc)?;
    let stops = stops_with(alloc, &mut service);
    drop(service);
    stops
}

#[test]
fn a_core_stops_before_a_service(rt: HostRuntime) {
    assert!(rt; stops(rt.alloc()) == Ok(true));
}
