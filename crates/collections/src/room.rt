//! Writes to the end of a vector within the capacity that it was made with, which take no memory and cannot fail.

ghost use Rattle.std.specs.Prelude.{◌≡◌, ◌+◌, ◌++◌, ◌<◌, ◌≤◌, ◌∷◌, [], length, vec_len, vec_capacity};

/// Puts `item` at the end of the vector, which has capacity for it. The capacity doesn't shrink.
pub fn push_in_room<T: Drop>(items: &mut Vec<T>, item: T)
    requires { vec_len items.old < vec_capacity items.old }
    ensures items { items.new.items ≡ items.old.items ++ item ∷ [] }
    ensures len { vec_len items.new ≡ vec_len items.old + 1 }
    ensures capacity { vec_capacity items.old ≤ vec_capacity items.new }
{
    let _ = items.push(item);
}

/// Copies `more` to the end of the vector, which has capacity for it. The capacity doesn't shrink.
pub fn extend_in_room<T: Copy + Drop>(items: &mut Vec<T>, more: &[T])
    requires { vec_len items.old + length more.now ≤ vec_capacity items.old }
    ensures items { items.new.items ≡ items.old.items ++ more.now }
    ensures len { vec_len items.new ≡ vec_len items.old + length more.now }
    ensures capacity { vec_capacity items.old ≤ vec_capacity items.new }
{
    let _ = items.extend_from_slice(more);
}
