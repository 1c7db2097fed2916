//! From the bytes of a script to its picture.
ghost use Rattle.std.specs.Prelude.{◌≡◌, ◌≤◌, IfErr, OnOk, length};
ghost use Rattle.tlchart_page.specs.Draw.{IsDrawn, IsWhy};
ghost use Rattle.tlchart_page.specs.declared.draw.DrawError.TheVariants as its;

use crate::closing::closings;
use std::alloc::{AllocError, Global};
use std::fmt;
use thiserror::Error;
use tl_script::{Script, ScriptError, read_script};
use tl_streams::ProgramFault;
use tl_trace::play;
use tl_types::BlockNo;
use tlchart_draw::{Form, Rows, Sheet, picture_of};
use tlchart_trace::chart_of;

/// The most steps that are drawn.
const MOST: usize = 200;

/// Why no picture is drawn. It prints as the one fault line.
#[derive(Debug, Drop, Error)]
pub enum DrawError {
    /// The script was refused, or could not be read for want of memory.
    Script(ScriptError),
    /// The script has so many steps, more than 200.
    TooMany(usize),
    /// A request for memory was refused.
    Memory,
}

impl fmt::Display for DrawError {
    ghost use Rattle.std.specs.Prelude.{Some};
    ghost use Rattle.tlchart_page.specs.Draw.{draw_error_text};

    ghost output = { λ e. Some (draw_error_text e) };

    fn fmt<W: fmt::Write>(&self, f: &mut fmt::Formatter<W>) -> fmt::Result {
        match self {
            DrawError::Script(error) => write!(f, "{error}"),
            DrawError::TooMany(steps) => {
                write!(f, "error 60 {steps} steps, at most 200 are drawn")
            },
            DrawError::Memory => write!(f, "{}", ProgramFault::Memory),
        }
    }
}

impl From<ScriptError> for DrawError {
    ghost from_gives = { λ error e. e ≡ its.Script error };

    fn from(error: ScriptError) -> DrawError {
        DrawError::Script(error)
    }
}

impl From<AllocError> for DrawError {
    ghost from_gives = { λ _ e. e ≡ its.Memory };

    fn from(_error: AllocError) -> DrawError {
        DrawError::Memory
    }
}

/// Plays a script's steps, and writes the chart of their trace.
fn drawn(
    alloc: Global,
    script: &Script,
    title: &str,
    form: Form,
    block: Option<BlockNo>,
) -> Result<String, AllocError>
    requires { length script.now.steps.items ≤ 4096 }
{
    let geometry = script.geometry();
    let trace = play(alloc, geometry, &script.image, &script.steps)?;
    let chart = chart_of(alloc, geometry, &script.steps, &trace, block)?;
    let foot = closings(alloc, &trace.banks)?;
    let sheet = Sheet {
        title,
        rows: Rows::Steps(&script.steps),
        chart: &chart,
        foot: &foot,
    };
    picture_of(alloc, sheet, form)
}

/// The picture of the trace of the script that the bytes write, under a title, with bands for a block: the one that is
/// asked for, or else that of the first message. The errors are those of `read_script`, then `TooMany` where there are
/// more than 200 steps; `Memory` where memory is refused.
pub fn draw_script(
    alloc: Global,
    bytes: &[u8],
    title: &str,
    form: Form,
    block: Option<BlockNo>,
) -> Result<String, DrawError>
    ensures drawn { OnOk result (IsDrawn bytes.now) }
    ensures why { IfErr result (IsWhy bytes.now) }
{
    let script = read_script(alloc, bytes)?;
    let steps = script.steps.len();
    if steps > MOST {
        return Err(DrawError::TooMany(steps));
    }
    Ok(drawn(alloc, &script, title, form, block)?)
}
