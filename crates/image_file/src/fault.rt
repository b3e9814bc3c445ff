//! Why bytes are no image.

ghost use Rattle.std.specs.Prelude.{◌≡◌};
ghost use Rattle.image_file.specs.Format.{fault_number};

use std::alloc::AllocError;
use thiserror::Error;

/// The rule of the image format that bytes break, numbered from 1 in this order.
#[derive(Clone, Copy, Debug, Error)]
pub enum ImageFault {
    /// The header's 24 bytes or the parts that it counts are not all there.
    #[error("the image's parts are not all there")]
    Short,
    /// The first word is not the format's magic number.
    #[error("the file is no image")]
    Magic,
    /// The second word is not 1, the version.
    #[error("the image is of another version")]
    Version,
    /// The header counts too many text words, data bytes or functions.
    #[error("the image is too large")]
    Counts,
    /// The entry or a function is no word of the text, or a function takes over 8 arguments.
    #[error("the entry or a function is outside the text")]
    Entry,
    /// Bytes follow the last part.
    #[error("bytes follow the image")]
    Trailing,
}

impl ImageFault {
    /// The rule's number, from 1 to 6.
    pub fn number(self) -> u8
        ensures { result ≡ fault_number self }
    {
        match self {
            ImageFault::Short => 1,
            ImageFault::Magic => 2,
            ImageFault::Version => 3,
            ImageFault::Counts => 4,
            ImageFault::Entry => 5,
            ImageFault::Trailing => 6,
        }
    }
}

/// Why `read` gives no image.
#[derive(Clone, Copy, Debug, Error)]
pub enum ImageDeny {
    /// The bytes are no image: the first rule that they break.
    #[error("{0}")]
    Bad(ImageFault),
    /// Memory was not found.
    #[error("memory was not found")]
    NoMemory,
}

impl From<AllocError> for ImageDeny {
    ghost use Rattle.std.specs.Prelude.{◌≡◌};
    ghost use Rattle.image_file.specs.declared.fault.ImageDeny.TheVariants.{NoMemory};

    ghost from_gives = { λ _ e. e ≡ NoMemory };

    fn from(_error: AllocError) -> ImageDeny {
        ImageDeny::NoMemory
    }
}
