//! Lines by hand, with their nearest wrong neighbours.

use asm_lines::{
    Draft, Line, Piece, Statement, Target, Word, drafted, line_of, operands_of, pieces, target_of,
};
use asm_words::{Operation, operation_of};
use std::alloc::{AllocError, Global};

fn is_word(piece: &Piece<'_>, bytes: &[u8]) -> bool {
    matches!(piece.word(), Some(word) if word.bytes() == bytes)
}

// Whether the pieces are those of `x : lw $1 , 4 ( $2 )`.
fn are_so(found: &[Piece<'_>]) -> bool {
    found.len() == 9
        && found[1].is_colon()
        && found[4].is_comma()
        && found[6].is_open()
        && is_word(&found[7], b"$2")
        && found[8].is_close()
}

fn are_pieces(alloc: Global) -> Result<bool, AllocError> {
    let found = pieces(alloc, b"\tx :lw $1, 4($2)\r# y")?;
    Ok(are_so(&found))
}

// Whether a line has the label x, and an instruction in the form of shifts.
fn is_labelled_shift(line: &Line<'_>) -> bool {
    matches!(&line.label, Some(name) if name.bytes() == b"x".as_slice())
        && matches!(
            &line.statement,
            Statement::Instruction(Draft::Shift(_, _, _, _))
        )
}

fn is_labelled(alloc: Global) -> Result<bool, AllocError> {
    match line_of(alloc, b"x:nop")? {
        Some(line) => Ok(is_labelled_shift(&line)),
        None => Ok(false),
    }
}

const RIGHT: [&str; 7] = [
    ".entry x",
    ".fn 0x400000 2",
    ".data 00fF",
    ".word 5",
    "",
    "x:",
    "# y",
];

const WRONG: [&str; 7] = [
    ".entry",
    ".fn 0x400000,2",
    ".data 0",
    ".word x",
    "9:",
    "x y",
    "x : : nop",
];

// How many of the texts are lines of the right form.
fn count_lines(alloc: Global, texts: &[&str]) -> u32 {
    let mut count = 0u32;
    for text in texts {
        if matches!(line_of(alloc, text.as_bytes()), Ok(Some(_))) {
            count = count.saturating_add(1);
        }
    }
    count
}

// Whether blez with these operands is a branch to a label.
fn is_branch(found: &[Piece<'_>]) -> bool {
    let operation = operation_of(b"blez").unwrap_or(Operation::Syscall);
    match operands_of(found) {
        Some(operands) => matches!(
            drafted(operation, &operands),
            Some(Draft::BranchOnZero(_, _, Target::Label(_)))
        ),
        None => false,
    }
}

fn drafts_branch(alloc: Global) -> Result<bool, AllocError> {
    let found = pieces(alloc, b"$1,x")?;
    Ok(is_branch(&found))
}

#[test]
fn lines_and_operands_have_their_forms(rt: HostRuntime) {
    let are_so = [
        are_pieces(rt.alloc()),
        is_labelled(rt.alloc()),
        drafts_branch(rt.alloc()),
        Ok(target_of(&Word::new(b"$1")).is_none()),
    ];
    assert!(rt; are_so == [Ok(true), Ok(true), Ok(true), Ok(true)]);
}

#[test]
fn directives_have_their_operands(rt: HostRuntime) {
    let counts = [
        count_lines(rt.alloc(), &RIGHT),
        count_lines(rt.alloc(), &WRONG),
    ];
    assert!(rt; counts == [7, 0]);
}
