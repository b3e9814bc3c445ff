//! The image file of a small text begins with the words of the header, by the rules of image files.

ghost use Rattle.std.specs.Prelude.{◌≤◌, length};

use std::alloc::Global;
use tick_top::build_file;

// The first three words of an image file: its name, its form, and the address where it starts.
const HEADER: [u8; 12] = [0x54, 0x49, 0x43, 0x4b, 0, 0, 0, 1, 0, 0x40, 0, 0];

// Whether the file is one, with a text of a thousand words at least.
fn is_image_of_seven(alloc: Global) -> bool {
    match build_file(alloc, b"int main(){return 7;}") {
        Ok(bytes) => bytes.len() > 4096 && bytes[..12] == HEADER[..],
        Err(_) => false,
    }
}

#[test]
fn the_file_of_seven(rt: HostRuntime) {
    assert!(rt; is_image_of_seven(rt.alloc()));
}
