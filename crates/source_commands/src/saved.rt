//! What follows for whoever reads the image file of a text.
ghost use Rattle.source_commands.specs.Saved.{SavesHeadline, ReadsHeadline, LowersOne, SavesOne, SavesBuilt};

/// The headline holds for the saved bytes.
pub fn saves_headline()
    ensures { SavesHeadline }
{}

/// The headline holds for the image that is read from the saved bytes.
pub fn reads_headline()
    ensures { ReadsHeadline }
{}

/// A text has one image: the one that `run` lowers it to is the one whose bytes `build_file` gives.
pub fn lowers_one()
    ensures { LowersOne }
{}

/// A text has one image file.
pub fn saves_one()
    ensures { SavesOne }
{}

/// The file of a text spells any image that is built of the text, as `run` builds it.
pub fn saves_built()
    ensures { SavesBuilt }
{}
