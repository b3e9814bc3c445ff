//! How many bytes an access moves, and how a narrow load is widened.

/// The width of a load or a store. A store takes a signed width as the unsigned one of its size.
#[derive(Clone, Copy, Debug)]
pub enum Width {
    /// One byte, widened with its sign.
    SignedByte,
    /// One byte, widened with zeros.
    Byte,
    /// Two bytes, widened with their sign.
    SignedHalf,
    /// Two bytes, widened with zeros.
    Half,
    /// Four bytes.
    Word,
}
