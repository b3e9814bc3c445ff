//! Names in place and behind a pointer.

use std::alloc::{AllocError, Global};
use tick_tree::Name;

// Whether a name has its bytes.
fn is_kept(alloc: Global, bytes: &[u8]) -> Result<bool, AllocError> {
    let name = Name::new(alloc, bytes)?;
    Ok(name.as_slice() == bytes)
}

#[test]
fn short_and_long(rt: HostRuntime) {
    let long: &[u8] = b"a_name_of_more_than_sixteen_bytes";
    let are_kept = [
        is_kept(rt.alloc(), b"x"),
        is_kept(rt.alloc(), &long[..16]),
        is_kept(rt.alloc(), &long[..17]),
        is_kept(rt.alloc(), long),
    ];
    assert!(rt; are_kept == [Ok(true); 4]);
}
