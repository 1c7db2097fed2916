//! The numbers of a cache, of every size.
use crate::dice::Dice;
use crate::fault::Fault;
use crate::request::Request;
use std::alloc::AllocError;
use tl_map::{Geometry, GeometryError, GeometryNumbers};
use tl_script::ScriptError;

/// How many numbers are drawn before what is asked for is given up.
const TRIES: u32 = 10_000;

/// The numbers before any was drawn: none is lawful.
const NOTHING: GeometryNumbers = GeometryNumbers {
    version: 0,
    clients: 0,
    banks: 0,
    block_bytes: 0,
    sets: 0,
    ways: 0,
    registers: 0,
    copies: 0,
    memory_blocks: 0,
};

/// The numbers that are asked for, and lawful ones beside them: a number that the map refuses is drawn again. The last
/// refusal, of another number than the version if there was one, where no others go with those.
pub(crate) fn geometry(dice: &mut Dice, request: &Request<'_>) -> Result<Geometry, Fault> {
    let mut numbers = NOTHING;
    let mut refused = GeometryError::Version;
    for _ in 0..TRIES {
        match Geometry::new(numbers) {
            Ok(geometry) => return Ok(geometry),
            Err(error) => {
                if error != GeometryError::Version {
                    refused = error;
                }
                numbers = drawn(dice, request, numbers, error);
            }
        }
    }
    Err(Fault::Script(ScriptError::Geometry(refused)))
}

/// The number that is asked for, else one of any size.
fn number(dice: &mut Dice, request: &Request<'_>, key: &str) -> i64 {
    match request.number(key) {
        Some(number) => i64::from(number),
        None => i64::from(dice.size()),
    }
}

/// The same numbers but for the one that was refused, and for the version where that sets its limit.
fn drawn(
    dice: &mut Dice,
    request: &Request<'_>,
    mut numbers: GeometryNumbers,
    refused: GeometryError,
) -> GeometryNumbers {
    match refused {
        GeometryError::Version => numbers.version = number(dice, request, "version"),
        GeometryError::Clients => {
            numbers.version = number(dice, request, "version");
            numbers.clients = number(dice, request, "clients");
        }
        GeometryError::Banks => numbers.banks = number(dice, request, "banks"),
        GeometryError::BlockBytes => numbers.block_bytes = number(dice, request, "block_bytes"),
        GeometryError::Sets => numbers.sets = number(dice, request, "sets"),
        GeometryError::Ways => numbers.ways = number(dice, request, "ways"),
        GeometryError::Registers => numbers.registers = number(dice, request, "registers"),
        GeometryError::Copies => {
            numbers.version = number(dice, request, "version");
            numbers.copies = number(dice, request, "copies");
        }
        GeometryError::MemoryBlocks => {
            numbers.memory_blocks = number(dice, request, "memory_blocks");
        }
    }
    numbers
}

/// The numbers as lines of a script.
pub(crate) fn push_numbers(text: &mut String, geometry: Geometry) -> Result<(), AllocError> {
    let numbers = geometry.numbers();
    let lines = [
        ("version", numbers.version),
        ("clients", numbers.clients),
        ("banks", numbers.banks),
        ("block_bytes", numbers.block_bytes),
        ("sets", numbers.sets),
        ("ways", numbers.ways),
        ("registers", numbers.registers),
        ("copies", numbers.copies),
        ("memory_blocks", numbers.memory_blocks),
    ];
    for (key, number) in &lines {
        write!(text, "{key} = {number}\n")?;
    }
    Ok(())
}
