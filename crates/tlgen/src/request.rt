//! What the words of the command line ask for.
use crate::fault::Fault;
use std::alloc::Global;
use tl_script_words::parse_number;
use tl_streams::ProgramFault;

/// The fault of words that are no request.
const USAGE: Fault = Fault::Program(ProgramFault::Usage);

/// What may be asked for by its number: each number of the geometry, how many commands a client has or how many steps
/// there are, and among how many blocks they choose.
const KEYS: [&str; 12] = [
    "version",
    "clients",
    "banks",
    "block_bytes",
    "sets",
    "ways",
    "registers",
    "copies",
    "memory_blocks",
    "commands",
    "steps",
    "spots",
];

/// A number that is asked for.
#[derive(Clone, Copy)]
struct Setting<'w> {
    key: &'w str,
    number: u32,
}

/// A seed, what to make, and the numbers that are asked for.
#[derive(Drop)]
pub(crate) struct Request<'w> {
    pub(crate) seed: u32,
    pub(crate) traces: bool,
    settings: Vec<Setting<'w>>,
}

impl<'w> Request<'w> {
    /// The request that words make: `SEED run|trace [KEY=NUM ..]`. Usage where they make none.
    pub(crate) fn new(alloc: Global, words: &'w [String]) -> Result<Request<'w>, Fault> {
        let [seed, mode, rest @ ..] = words else {
            return Err(USAGE);
        };
        let seed = parse_number(seed).ok_or(USAGE)?;
        let traces = traces(mode)?;
        let settings = settings_of(alloc, rest)?;
        Ok(Request {
            seed,
            traces,
            settings,
        })
    }

    /// The number that is asked for under a key, if one is.
    pub(crate) fn number(&self, key: &str) -> Option<u32> {
        for setting in &self.settings {
            if setting.key == key {
                return Some(setting.number);
            }
        }
        None
    }
}

fn traces(mode: &str) -> Result<bool, Fault> {
    match mode {
        "run" => Ok(false),
        "trace" => Ok(true),
        _ => Err(USAGE),
    }
}

/// The numbers that words ask for. Usage where one asks for none.
fn settings_of(alloc: Global, words: &[String]) -> Result<Vec<Setting<'_>>, Fault> {
    let mut all = Vec::new(alloc);
    for word in words {
        let Some(setting) = setting_of(word) else {
            return Err(USAGE);
        };
        all.push(setting)?;
    }
    Ok(all)
}

/// The number that a word asks for, where its key is known.
fn setting_of(word: &str) -> Option<Setting<'_>> {
    let (key, number) = word.split_once('=')?;
    if !is_key(key) {
        return None;
    }
    let number = parse_number(number)?;
    Some(Setting { key, number })
}

fn is_key(word: &str) -> bool {
    KEYS.iter().any(|known| *known == word)
}
