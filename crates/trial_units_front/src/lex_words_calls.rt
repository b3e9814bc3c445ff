//! Keywords and signs.

use lex_words::{Sign, keyword_of, sign_at};

#[test]
fn reads_words_and_signs(rt: HostRuntime) {
    let signs = [sign_at(b"+++b"), sign_at(b">>=1"), sign_at(b"a")];
    assert!(rt; signs == [Some(Sign::PlusPlus), Some(Sign::ShiftRightAssign), None]);
    let are_spelled = [
        matches!(sign_at(b"-"), Some(sign) if sign.spelling().len() == 1),
        matches!(keyword_of(b"vspec"), Some(word) if word.spelling() == b"vspec".as_slice()),
        keyword_of(b"specs") == None,
    ];
    assert!(rt; are_spelled == [true; 3]);
}
