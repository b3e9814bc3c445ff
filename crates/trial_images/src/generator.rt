//! Image files that nobody wrote, the same at every run.

use std::alloc::{AllocError, Global};

/// A form of instruction: the bits that are always set, and those that may be.
#[derive(Clone, Copy, Drop)]
pub struct Form {
    /// The bits that are always set.
    pub word: u32,
    /// The bits that may be.
    pub mask: u32,
}

/// Marsaglia's generator of 32 bits by three shifts.
#[derive(Drop)]
pub struct Generator {
    state: u32,
}

impl Generator {
    /// The generator of the file with this number.
    pub fn new(number: u32) -> Generator {
        Generator {
            state: number.wrapping_mul(2_654_435_761) | 1,
        }
    }

    /// The next number.
    pub fn next(&mut self) -> u32 {
        let mut x = self.state;
        x ^= x << 13;
        x ^= x >> 17;
        x ^= x << 5;
        self.state = x;
        x
    }

    // Any word, once in 32 times, and else one of a form.
    fn word(&mut self, forms: &[Form]) -> u32 {
        let kind = self.next();
        let bits = self.next();
        if forms.is_empty() || kind % 32 == 0 {
            return bits;
        }
        let form = forms[(kind / 32) as usize % forms.len()];
        form.word | bits & form.mask
    }

    /// The file up to a byte, and random words from there on, as many as fill it.
    pub fn filled(
        &mut self,
        alloc: Global,
        file: &[u8],
        from: usize,
        forms: &[Form],
    ) -> Result<Vec<u8>, AllocError> {
        let kept = from.min(file.len());
        let mut bytes = file[..kept].to_vec(alloc)?;
        for _ in 0..(file.len() - kept) / 4 {
            bytes.extend_from_slice(&self.word(forms).to_be_bytes())?;
        }
        Ok(bytes)
    }

    /// The file with one to four bits turned, from a byte on.
    pub fn turned(
        &mut self,
        alloc: Global,
        file: &[u8],
        from: usize,
    ) -> Result<Vec<u8>, AllocError> {
        let mut bytes = file.to_vec(alloc)?;
        for _ in 0..1 + self.next() % 4 {
            let at = self.next() as usize;
            let bit = self.next() % 8;
            if from < bytes.len() {
                let i = from + at % (bytes.len() - from);
                bytes[i] ^= 1 << bit;
            }
        }
        Ok(bytes)
    }
}
