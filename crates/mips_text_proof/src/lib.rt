//! The two directions of assembly text: the text of an image is assembled to this image.
#![tactic(auto)]

ghost use Rattle.mips_text_proof.specs.ReadsBack.{ReadsBack};

/// That the text of every image is assembled to this image.
pub fn reads_back()
    ensures { ReadsBack }
{}
