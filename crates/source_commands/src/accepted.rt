//! The image of a text. The trees of a text are left to the end of the process, as clang leaves its own
//! (`-disable-free`): giving them back block by block is a tenth of the cost of a build.
ghost use Rattle.std.specs.Prelude.{◌≡◌, ◌≤◌, length, IfOk};
ghost use Rattle.tick_tree.specs.Faults.{Checks};
ghost use Rattle.staged_meaning.specs.Meaning.{Program};
ghost use Rattle.accepted_programs.specs.Mains.{IsOfWords};
ghost use Rattle.source_commands.specs.Texts as spec;
ghost use Rattle.source_commands.specs.Texts.{Builds};
ghost use Rattle.source_commands.specs.Saved.{Saves};
ghost use Rattle.limits.specs.declared.text.TheConstants.{LONGEST_TEXT};

use crate::language::Language;
use accepted_programs::{main_of, programs_meet_backend};
use c_lexer::tokens;
use image_file::{Image, write};
use known_closures_proof::programs_are_meant;
use static_image::images_keep_rules;
use static_image_proof::headline_holds;
use std::alloc::Global;
use std::mem::forget;
use tick_tree::Deny;
use wellformed::Typed;

// The typed tree of a text.
#[tactic(auto, unfolding(crate::specs::Texts::typed_tree))]
fn from_text<L: Language>(alloc: Global, text: &[u8]) -> Result<Typed, Deny>
    requires { length text.now ≤ LONGEST_TEXT }
    ensures { Checks result (spec.typed_tree text.now) }
{
    let found = tokens(alloc, text)?;
    let tree = L::parse(alloc, text, &found)?;
    let typed = L::check(alloc, &tree);
    forget(tree);
    typed
}

/// The typed tree of a text of at most 1,048,576 bytes, or its first static fault. It is a program, which has a meaning.
#[tactic(auto, using(crate::proofs::Programs::is_program))]
pub fn typed_tree<L: Language>(alloc: Global, text: &[u8]) -> Result<Typed, Deny>
    requires { length text.now ≤ LONGEST_TEXT }
    ensures tree { Checks result (spec.typed_tree text.now) }
    ensures program { IfOk result (λ tree. (program : Program) × spec.Means tree program) }
{
    let tree = from_text::<L>(alloc, text)?;
    tree.keeps_law();
    Ok(tree)
}

// The image of a program.
#[tactic(auto, using(crate::proofs::Mains::are_static, crate::proofs::Mains::are_sized, crate::proofs::Mains::has_main, crate::proofs::Mains::bytes_fit, crate::proofs::Mains::backs))]
fn from_program(alloc: Global, program: &Typed) -> Result<Image, Deny>
    ensures image { spec.Backs program.now result }
    ensures words { IsOfWords program.now }
{
    programs_meet_backend();
    program.keeps_law();
    let main = main_of(program);
    match static_backend::image(
        alloc,
        program.functions(),
        program.ticks(),
        program.image(),
        main,
    ) {
        Ok(image) => Ok(image),
        Err(_) => Err(Deny::NoMemory),
    }
}

/// The image of a text of at most 1,048,576 bytes, or its first static fault. The headline holds for the image: the
/// machine does on every input what the text means, at the pace, and ends only so.
#[tactic(auto, using(crate::proofs::Mains::builds, crate::proofs::Mains::refuses))]
pub fn build<L: Language>(alloc: Global, text: &[u8]) -> Result<Image, Deny>
    requires { length text.now ≤ LONGEST_TEXT }
    ensures built { IfOk result (λ image. Builds text.now image) }
    ensures refused { spec.Refuses (spec.typed_tree text.now) result }
{
    let program = from_text::<L>(alloc, text)?;
    program.keeps_law();
    programs_meet_backend();
    programs_are_meant();
    headline_holds();
    images_keep_rules();
    let image = from_program(alloc, &program);
    forget(program);
    image
}

/// The bytes of the image file of a text of at most 1,048,576 bytes, or the text's first static fault. They are the one
/// spelling of the image that `build` gives, so the headline holds for what is read from them.
///
/// # Errors
/// `Refused` exactly for the text's first static fault, and `NoMemory` where memory was not found.
pub fn build_file<L: Language>(alloc: Global, text: &[u8]) -> Result<Vec<u8>, Deny>
    requires { length text.now ≤ LONGEST_TEXT }
    ensures saved { IfOk result (λ bytes. Saves text.now bytes.items) }
    ensures refused { spec.Refuses (spec.typed_tree text.now) result }
{
    let image = build::<L>(alloc, text)?;
    match write(alloc, &image) {
        Ok(bytes) => Ok(bytes),
        Err(_) => Err(Deny::NoMemory),
    }
}
