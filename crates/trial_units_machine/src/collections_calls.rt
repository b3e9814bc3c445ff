//! Slots of two buckets, a set's members, and writes to the end of a vector that has room.

ghost use Rattle.std.specs.Prelude.{◌≡◌, []};

use collections::{Buckets, SparseSet, extend_in_room, push_in_room};
use std::alloc::{AllocError, Global};

// Whether these stand first and next in the buckets 0 and 1, and nothing is first once they are emptied.
fn newest_slot_comes_first(buckets: &mut Buckets) -> bool
    requires { buckets.old ≡ record { bucket_room = 3; slot_room = 10; least_slot = 0; buckets = [] } }
{
    buckets.start(2);
    buckets.push(1, 4);
    buckets.push(0, 5);
    buckets.push(1, 9);
    let first = [buckets.first(0), buckets.first(1)];
    let next = [buckets.next(9), buckets.next(4)];
    buckets.start(3);
    [first[0], first[1], next[0], next[1], buckets.first(1)]
        == [Some(5), Some(9), Some(4), None, None]
}

// Whether the members are those that came, in their order, before the set is emptied and after it.
fn members_keep_their_order(set: &mut SparseSet) -> bool
    requires { set.old ≡ record { room = 10; members = [] } }
{
    set.insert(7);
    set.insert(2);
    set.insert(7);
    let before = set.as_slice() == [7, 2].as_slice() && set.contains(2);
    set.clear();
    let is_empty = !set.contains(2);
    set.insert(9);
    before && is_empty && set.as_slice() == [9].as_slice()
}

// Whether writes stand at the end.
fn writes_stand_at_the_end(alloc: Global) -> Result<bool, AllocError> {
    let mut items: Vec<u32> = Vec::with_capacity(alloc, 3)?;
    push_in_room(&mut items, 7);
    extend_in_room(&mut items, &[8, 9]);
    Ok(items.as_slice() == [7, 8, 9].as_slice())
}

fn are_so(alloc: Global) -> Result<[bool; 3], AllocError> {
    let mut buckets = Buckets::new(alloc, 3, 10)?;
    let newest_is_first = newest_slot_comes_first(&mut buckets);
    drop(buckets);
    let mut set = SparseSet::new(alloc, 10)?;
    let order_is_kept = members_keep_their_order(&mut set);
    drop(set);
    let written = writes_stand_at_the_end(alloc)?;
    Ok([newest_is_first, order_is_kept, written])
}

#[test]
fn collections_keep_their_order(rt: HostRuntime) {
    assert!(rt; are_so(rt.alloc()) == Ok([true; 3]));
}
