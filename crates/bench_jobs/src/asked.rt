//! What the words of the command line ask for.

/// How much of a job is done.
#[derive(Clone, Copy, PartialEq, Eq)]
pub(crate) enum Part {
    /// Its inputs are made, and digested by their lengths.
    Inputs,
    /// All of it.
    Whole,
}

/// The numbers of a job, 0 where there is none, and how much of it is done.
#[derive(Clone, Copy)]
pub(crate) struct Asked {
    pub(crate) seed: u32,
    pub(crate) size: u32,
    pub(crate) count: u32,
    pub(crate) part: Part,
}

/// The number at a place, 0 where there is none.
fn number_of(words: &[String], place: usize) -> u32 {
    match words.get(place) {
        Some(word) => word.as_str().parse::<u32>().unwrap_or(0),
        None => 0,
    }
}

/// Whether the last word asks for the inputs alone.
fn part_of(words: &[String]) -> Part {
    match words.last() {
        Some(word) if word.as_str() == "inputs" => Part::Inputs,
        _ => Part::Whole,
    }
}

impl Asked {
    /// What words behind the name of a job ask for.
    pub(crate) fn new(words: &[String]) -> Asked {
        Asked {
            seed: number_of(words, 1),
            size: number_of(words, 2),
            count: number_of(words, 3),
            part: part_of(words),
        }
    }
}
