//! Numbers, characters and strings.

use lex_literals::{Closing, append_string, character_at, character_value, closing_of, numeral_at};
use std::alloc::Global;

// Whether the string has the bytes that it spells.
fn is_appended(alloc: Global) -> bool {
    let mut bytes = Vec::new(alloc);
    let all = append_string(b"a\\101\\n\" b", &mut bytes);
    all.is_ok() && bytes.as_slice() == b"aA\n".as_slice()
}

#[test]
fn reads_numbers_characters_and_strings(rt: HostRuntime) {
    let hex = numeral_at(b"0x7fU;");
    let are_so = [
        hex.len == 5 && hex.value == Some(127) && hex.unsigned,
        numeral_at(b"4294967296").value == None,
        character_at(b"\\400").is_none(),
        character_value(b"\\377'") == 4294967295,
        is_appended(rt.alloc()),
    ];
    assert!(rt; are_so == [true; 5]);
    // literals are closed on their line
    let found = [closing_of(b'\'', b"\\''x"), closing_of(b'"', b"a\n\"")];
    assert!(rt; found == [Closing::Closed(3, 1), Closing::Open]);
}
