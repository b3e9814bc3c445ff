//! Tests on a type and on those made of it.

use c_type_refs::TypeRef;
use c_types::{Integer, Layer};
use check_types::{
    conversion, decays, inner, integer, is_integer, is_pointer, is_word, over, promoted_type,
    width_of,
};
use icode_ops::UnKind;
use std::alloc::{AllocError, Global};
use word32::Width;

// Whether a char and the int that it becomes are what they are, and aren't what they aren't.
fn are_letter_and_word(letter: &TypeRef, word: &TypeRef) -> bool {
    let hold = [
        is_integer(letter),
        matches!(width_of(letter), Width::SignedByte),
        is_word(word),
        conversion(letter, word).is_none(),
        matches!(conversion(word, letter), Some(UnKind::SignedByte)),
        is_word(letter),
        decays(letter),
    ];
    hold == [true, true, true, true, true, false, false]
}

fn becomes_word(alloc: Global) -> bool {
    let letter = integer(alloc, Integer::Char);
    let word = promoted_type(alloc, integer(alloc, Integer::Char));
    are_letter_and_word(&letter, &word)
}

fn is_pointer_to_letter(alloc: Global) -> Result<bool, AllocError> {
    let pointer = over(Layer::Pointer, integer(alloc, Integer::Char))?;
    let is_one = is_pointer(&pointer) && is_word(&pointer);
    Ok(is_one && is_integer(&inner(pointer)))
}

#[test]
fn a_char_becomes_an_int_and_a_pointer_to_it_is_a_word(rt: HostRuntime) {
    let are_so = [
        Ok(becomes_word(rt.alloc())),
        is_pointer_to_letter(rt.alloc()),
    ];
    assert!(rt; are_so == [Ok(true), Ok(true)]);
}
