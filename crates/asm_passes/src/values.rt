//! What lines give to the image, or their faults.

ghost use Rattle.std.specs.Prelude.{◌≡◌, ℕ, ◌+◌, ◌<◌, ◌≤◌, IsTrue, IfOk};
ghost use Rattle.asm_lines.specs.Lines.{HasDigits, digits_of};
ghost use Rattle.image_file.specs.Image.{is_in_text};
ghost use Rattle.asm_passes.specs.Labels.{find};
ghost use Rattle.asm_passes.specs.Instructions as instructions;
ghost use Rattle.asm_passes.specs.Positions.{behind, behind_by};
ghost use Rattle.asm_passes.specs.Items as items;
ghost use Rattle.asm_passes.specs.Values as spec;
ghost use Rattle.limits.specs.declared.text.TheConstants.{LONGEST_TEXT};

use crate::fault::AsmFaultKind;
use crate::item::Item;
use crate::label::Label;
use crate::position::Position;
use crate::survey::Survey;
use asm_lines::{Draft, Line, Statement, Target, Word};
use asm_words::Number;
use image_file::FunctionEntry;
use limits::program::{MOST_ARGUMENTS, MOST_FUNCTIONS};
use mips_encoder::{
    BreakCode, Immediate, ImmediateOp, Instr, JumpTarget, LinkPair, LinkSource, Register,
    ShiftAmount, encode,
};
use word32::map::TEXT;

// A number below a limit.
fn below(limit: u32, number: Number) -> Result<u32, AsmFaultKind>
    ensures value { result ≡ instructions.below limit number }
    ensures small { IfOk result (λ n. n < limit) }
{
    match number.unsigned() {
        Some(n) if n < limit => Ok(n),
        _ => Err(AsmFaultKind::BadNumber),
    }
}

// Sixteen bits with a sign.
fn signed(number: Number) -> Result<Immediate, AsmFaultKind>
    ensures { result ≡ instructions.signed number }
{
    number.signed_half().ok_or(AsmFaultKind::BadNumber)
}

// The immediate of an operation.
fn immediate(op: ImmediateOp, number: Number) -> Result<Immediate, AsmFaultKind>
    ensures { result ≡ instructions.immediate op number }
{
    match op {
        ImmediateOp::Addi | ImmediateOp::Addiu | ImmediateOp::Slti | ImmediateOp::Sltiu => {
            signed(number)
        }
        ImmediateOp::Andi | ImmediateOp::Ori | ImmediateOp::Xori => {
            Ok(Immediate::new(below(65536, number)?))
        }
    }
}

fn link_source(rs: Register) -> Result<LinkSource, AsmFaultKind>
    ensures { result ≡ instructions.link_source rs }
{
    LinkSource::checked(rs).ok_or(AsmFaultKind::BadNumber)
}

fn link_pair(rd: Register, rs: Register) -> Result<LinkPair, AsmFaultKind>
    ensures { result ≡ instructions.link_pair rd rs }
{
    LinkPair::checked(rd, rs).ok_or(AsmFaultKind::BadNumber)
}

// The number of words from one place to another, with a sign.
fn distance(from: u32, to: u32) -> Number
    ensures { result ≡ instructions.distance from to }
{
    if from <= to {
        Number {
            negative: false,
            magnitude: Some(to - from),
        }
    } else {
        Number {
            negative: true,
            magnitude: Some(from - to),
        }
    }
}

// The count of a function's arguments, where few enough functions stand before it.
fn argument_count(at: Position, number: Number) -> Result<u32, AsmFaultKind>
    ensures value { result ≡ spec.argument_count at number }
    ensures small { IfOk result (λ n. n ≤ MOST_ARGUMENTS) }
    ensures few { IfOk result (λ n. at.functions < MOST_FUNCTIONS) }
{
    if at.functions < MOST_FUNCTIONS {
        below(MOST_ARGUMENTS + 1, number)
    } else {
        Err(AsmFaultKind::BadNumber)
    }
}

impl Survey {
    fn label_of(&self, name: &Word<'_>) -> Result<Label, AsmFaultKind>
        ensures { result ≡ instructions.label_of (find self.now.labels) name.now }
    {
        self.labels
            .find(name.bytes())
            .ok_or(AsmFaultKind::UnknownLabel)
    }

    fn address_of(&self, target: &Target<'_>) -> Result<u32, AsmFaultKind>
        ensures { result ≡ instructions.address_of (find self.now.labels) target.now }
    {
        match target {
            Target::Number(number) => number.unsigned().ok_or(AsmFaultKind::BadNumber),
            Target::Label(name) => Ok(self.label_of(name)?.address()),
        }
    }

    // The offset for a branch that is the word `at` of the text.
    fn offset_of(&self, at: u32, target: &Target<'_>) -> Result<Immediate, AsmFaultKind>
        requires { at ≤ LONGEST_TEXT }
        ensures { result ≡ instructions.offset_of (find self.now.labels) at target.now }
    {
        match target {
            Target::Number(number) => signed(*number),
            Target::Label(name) => {
                let label = self.label_of(name)?;
                signed(distance(at + 1, label.words()))
            }
        }
    }

    fn jump_target(&self, target: &Target<'_>) -> Result<JumpTarget, AsmFaultKind>
        ensures { result ≡ instructions.jump_target (find self.now.labels) target.now }
    {
        let address = self.address_of(target)?;
        JumpTarget::at(address).ok_or(AsmFaultKind::BadNumber)
    }

    // The instruction that is the word `at` of the text.
    #[tactic(auto, unfolding(crate::specs::Instructions::instruction_of))]
    fn instruction_of(&self, at: u32, draft: Draft<'_>) -> Result<Instr, AsmFaultKind>
        requires { at ≤ LONGEST_TEXT }
        ensures { result ≡ instructions.instruction_of (find self.now.labels) at draft.entry }
    {
        match draft {
            Draft::Arithmetic(op, rd, rs, rt) => Ok(Instr::Arithmetic(op, rd, rs, rt)),
            Draft::Shift(op, rd, rt, shamt) => {
                Ok(Instr::Shift(op, rd, rt, ShiftAmount::new(below(32, shamt)?)))
            }
            Draft::ShiftVariable(op, rd, rt, rs) => Ok(Instr::ShiftVariable(op, rd, rt, rs)),
            Draft::JumpRegister(rs) => Ok(Instr::JumpRegister(rs)),
            Draft::JumpAndLinkRegister(rd, rs) => {
                Ok(Instr::JumpAndLinkRegister(link_pair(rd, rs)?))
            }
            Draft::Syscall => Ok(Instr::Syscall),
            Draft::Break(code) => Ok(Instr::Break(BreakCode::new(below(1_048_576, code)?))),
            Draft::MoveFrom(source, rd) => Ok(Instr::MoveFrom(source, rd)),
            Draft::MoveTo(to, rs) => Ok(Instr::MoveTo(to, rs)),
            Draft::MultiplyDivide(op, rs, rt) => Ok(Instr::MultiplyDivide(op, rs, rt)),
            Draft::BranchOnSign(test, rs, target) => {
                Ok(Instr::BranchOnSign(test, rs, self.offset_of(at, &target)?))
            }
            Draft::BranchOnSignAndLink(test, rs, target) => {
                let source = link_source(rs)?;
                Ok(Instr::BranchOnSignAndLink(test, source, self.offset_of(at, &target)?))
            }
            Draft::Jump(op, target) => Ok(Instr::Jump(op, self.jump_target(&target)?)),
            Draft::BranchOnEquality(op, rs, rt, target) => {
                Ok(Instr::BranchOnEquality(op, rs, rt, self.offset_of(at, &target)?))
            }
            Draft::BranchOnZero(op, rs, target) => {
                Ok(Instr::BranchOnZero(op, rs, self.offset_of(at, &target)?))
            }
            Draft::ImmediateArithmetic(op, rt, rs, number) => {
                Ok(Instr::ImmediateArithmetic(op, rt, rs, immediate(op, number)?))
            }
            Draft::LoadUpperImmediate(rt, number) => {
                Ok(Instr::LoadUpperImmediate(rt, Immediate::new(below(65536, number)?)))
            }
            Draft::Memory(op, rt, number, rs) => { Ok(Instr::Memory(op, rt, signed(number)?, rs)) }
        }
    }

    fn is_text_address(&self, address: u32) -> bool
        ensures { result ≡ is_in_text self.now.words address }
    {
        address >= TEXT && address < TEXT + 4 * self.words && address % 4 == 0
    }

    // The address of a word of the text.
    fn text_address(&self, target: &Target<'_>) -> Result<u32, AsmFaultKind>
        ensures value { result ≡ spec.text_address (spec.known_by self.now.labels self.now.words) target.now }
        ensures inside { IfOk result (λ a. IsTrue (is_in_text self.now.words a)) }
    {
        let address = self.address_of(target)?;
        if self.is_text_address(address) {
            Ok(address)
        } else {
            Err(AsmFaultKind::BadNumber)
        }
    }

    // What a statement gives.
    fn item_of<'a>(&self, at: Position, statement: Statement<'a>) -> Result<Item<'a>, AsmFaultKind>
        requires { at.words ≤ LONGEST_TEXT }
        ensures value { result ≡ spec.item_of (spec.known_by self.now.labels self.now.words) at statement.entry }
        ensures good { IfOk result (items.IsGood self.now.words at) }
        ensures digits { IfOk result (λ i. items.digits_in i ≤ digits_of statement.entry) }
        ensures counts { IfOk result (items.Counts at (behind_by at statement.entry)) }
    {
        match statement {
            Statement::Nothing => Ok(Item::Nothing),
            Statement::Entry(target) => Ok(Item::Entry(self.text_address(&target)?)),
            Statement::Function(target, number) => {
                let count = argument_count(at, number)?;
                let address = self.text_address(&target)?;
                Ok(Item::Function(FunctionEntry { address, count }))
            }
            Statement::Data(pairs) => Ok(Item::Data(pairs)),
            Statement::Word(number) => {
                Ok(Item::Word(number.unsigned().ok_or(AsmFaultKind::BadNumber)?))
            }
            Statement::Instruction(draft) => {
                Ok(Item::Word(encode(self.instruction_of(at.words, draft)?)))
            }
        }
    }

    // Whether no earlier line has the label.
    fn has_own_label(&self, at: Position, label: &Option<Word<'_>>) -> bool
        ensures { result ≡ spec.has_own_label (spec.known_by self.now.labels self.now.words) at label.now }
    {
        let Some(name) = label else {
            return true;
        };
        match self.labels.find(name.bytes()) {
            Some(label) => label.line() == at.line,
            None => true,
        }
    }

    /// What a line at a position gives to the image, or its fault.
    #[tactic(auto, unfolding(crate::specs::Values::given))]
    pub fn given<'a>(&self, at: Position, line: Option<Line<'a>>) -> Result<Item<'a>, AsmFaultKind>
        requires { at.words ≤ LONGEST_TEXT }
        ensures value { result ≡ spec.given (spec.known_by self.now.labels self.now.words) at line.entry }
        ensures good { IfOk result (items.IsGood self.now.words at) }
        ensures digits { (n : ℕ) → HasDigits n line.entry → IfOk result (λ i. items.digits_in i ≤ n) }
        ensures counts { IfOk result (items.Counts at (behind at line.entry)) }
    {
        let Some(line) = line else {
            return Err(AsmFaultKind::BadLine);
        };
        let item = self.item_of(at, line.statement)?;
        if self.has_own_label(at, &line.label) {
            Ok(item)
        } else {
            Err(AsmFaultKind::DoubleLabel)
        }
    }
}
