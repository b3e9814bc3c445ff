//! A line of the input.

use crate::generator::Form;

/// What a line says. Bytes of an image file are in hexadecimal digits, a word is eight of them.
#[derive(Clone, Copy)]
pub enum Row<'a> {
    /// `section NAME`: rows of another kind follow, for which the forms so far don't count. Its name is printed.
    Section {
        /// What the kind is called.
        name: &'a str,
    },
    /// `form WORD MASK`: a form of instruction for the generator, with the bits that it may set.
    Form {
        /// The form.
        form: Form,
    },
    /// Image files.
    Images {
        /// Which, and how they are run.
        images: Images<'a>,
        /// The digits of the file that they are or are made from.
        digits: &'a str,
    },
}

/// Which image files are made of one.
#[derive(Clone, Copy)]
pub enum Kind {
    /// `image NAME STEPS BYTES`: the file itself, run for so many steps at most. With `counted` in the place of
    /// `image`, all counts of services are printed.
    Given,
    /// `random COUNT STEPS FROM BYTES`: so many image files, each of the given one with random words from a byte on.
    Random,
    /// `mutated COUNT STEPS FROM BYTES`: so many image files, each the given one with one to four bits turned, from a
    /// byte on.
    Mutated,
}

/// Image files, and how they are run.
#[derive(Clone, Copy)]
pub struct Images<'a> {
    /// Which they are.
    pub kind: Kind,
    /// What they are called.
    pub name: &'a str,
    /// How many.
    pub count: u32,
    /// The most steps of each run.
    pub steps: u64,
    /// The first byte that may be another.
    pub from: usize,
    /// Whether all counts of services are printed.
    pub is_counted: bool,
}

// The first five words of a line; those that aren't there are empty.
fn words_of(line: &str) -> [&str; 5] {
    let mut words = line.split_whitespace();
    [
        words.next().unwrap_or(""),
        words.next().unwrap_or(""),
        words.next().unwrap_or(""),
        words.next().unwrap_or(""),
        words.next().unwrap_or(""),
    ]
}

/// The row of a line; None where it has another form.
pub fn read(line: &str) -> Option<Row<'_>> {
    let [word, first, second, third, fourth] = words_of(line);
    if first.is_empty() {
        return None;
    }
    let kind = match word {
        "section" => return Some(Row::Section { name: first }),
        "form" => {
            let form = Form {
                word: u32::from_str_radix(first, 16).ok()?,
                mask: u32::from_str_radix(second, 16).ok()?,
            };
            return Some(Row::Form { form });
        }
        "image" | "counted" => Kind::Given,
        "random" => Kind::Random,
        "mutated" => Kind::Mutated,
        _ => return None,
    };
    let is_given = matches!(kind, Kind::Given);
    let digits = if is_given { third } else { fourth };
    if digits.is_empty() {
        return None;
    }
    Some(Row::Images {
        images: Images {
            kind,
            name: if is_given { first } else { word },
            count: if is_given { 1 } else { first.parse().ok()? },
            steps: second.parse().ok()?,
            from: if is_given { 0 } else { third.parse().ok()? },
            is_counted: word == "counted",
        },
        digits,
    })
}
