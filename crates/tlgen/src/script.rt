//! The text of a script.
use crate::any::{push_access, push_bytes};
use crate::cache::Cache;
use crate::dice::Dice;
use crate::fault::Fault;
use crate::geometry::{geometry, push_numbers};
use crate::request::Request;
use crate::spots::Spots;
use std::alloc::{AllocError, Global};
use tl_map::Geometry;
use tl_script_words::push_address;

/// No client has so many commands, and no trace so many steps: of what is asked for beyond, so many are made, and then
/// refused.
const TOO_MANY: u32 = 4097;

/// A script's text, how many steps it has, and how many of them its banks refused.
#[derive(Drop)]
pub(crate) struct Draft {
    pub(crate) text: String,
    pub(crate) steps: usize,
    pub(crate) refused: usize,
}

/// The script that is asked for.
pub(crate) fn draft_of(alloc: Global, request: &Request<'_>) -> Result<Draft, Fault> {
    let mut dice = Dice::new(request.seed);
    let geometry = geometry(&mut dice, request)?;
    let mut text = String::new(alloc);
    push_numbers(&mut text, geometry)?;
    text.push_str("turns = 1000000\n")?;
    push_image(&mut text, &mut dice, geometry)?;
    let spots = Spots::new(&mut dice, request, geometry);
    if request.traces {
        let count = request.number("steps").unwrap_or(dice.below(256));
        return Ok(with_steps(alloc, text, &mut dice, geometry, &spots, count)?);
    }
    let asked = request.number("commands");
    push_commands(&mut text, &mut dice, geometry, &spots, asked)?;
    Ok(Draft {
        text,
        steps: 0,
        refused: 0,
    })
}

/// The first bytes of the memory: none, or up to 64 of them.
fn push_image(text: &mut String, dice: &mut Dice, geometry: Geometry) -> Result<(), AllocError> {
    let count = dice.below(65).min(geometry.memory_bytes());
    text.push_str("image = \"")?;
    push_bytes(text, dice, count)?;
    text.push_str("\"\n")
}

/// The commands of each client: as many as are asked for, else up to 32.
fn push_commands(
    text: &mut String,
    dice: &mut Dice,
    geometry: Geometry,
    spots: &Spots,
    asked: Option<u32>,
) -> Result<(), AllocError> {
    text.push_str("commands = [\n")?;
    for _ in 0..geometry.clients() {
        text.push_str("[")?;
        let count = asked.unwrap_or(dice.below(33));
        for _ in 0..count.min(TOO_MANY) {
            push_command(text, dice, spots)?;
        }
        text.push_str("],\n")?;
    }
    text.push_str("]\n")
}

/// A load, a store or a drop.
fn push_command(text: &mut String, dice: &mut Dice, spots: &Spots) -> Result<(), AllocError> {
    text.push_str("\"")?;
    if dice.below(8) == 0 {
        text.push_str("drop ")?;
        push_address(text, spots.address(dice, 1))?;
    } else {
        push_access(text, dice, spots, None)?;
    }
    text.push_str("\", ")
}

/// The script with its steps, each asked of the banks as it is chosen: as many as are asked for, or fewer where none
/// was found that the banks accept.
fn with_steps(
    alloc: Global,
    mut text: String,
    dice: &mut Dice,
    geometry: Geometry,
    spots: &Spots,
    count: u32,
) -> Result<Draft, AllocError> {
    let mut cache = Cache::new(alloc, geometry)?;
    let mut steps: usize = 0;
    let mut refused: usize = 0;
    text.push_str("steps = [\n")?;
    for index in 0..count.min(TOO_MANY) {
        let Some(chosen) = cache.choose(alloc, dice, spots, index)? else {
            break;
        };
        write!(text, "\"{}\",\n", chosen.words)?;
        steps = steps.saturating_add(1);
        if chosen.is_refused {
            refused = refused.saturating_add(1);
        }
    }
    text.push_str("]\n")?;
    Ok(Draft {
        text,
        steps,
        refused,
    })
}
