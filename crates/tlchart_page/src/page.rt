//! From the bytes of a script to its page.
ghost use Rattle.std.specs.Prelude.{◌≤◌, IfErr, OnOk, length};
ghost use Rattle.tlchart_page.specs.Draw.{IsWhy};
ghost use Rattle.tlchart_page.specs.Page.{IsPaged};

use crate::cells::{blocks_named, cells_of};
use crate::draw::DrawError;
use crate::drawing::DRAWING;
use crate::film::film_of;
use crate::json::{Sheet, push_data};
use crate::script::SCRIPT;
use crate::style::STYLE;
use std::alloc::{AllocError, Global};
use tl_script::{Script, read_script};
use tl_text::Trace;
use tlchart_draw::{Ink, push_title};
use tlchart_trace::chart_of;

/// The document before its data: the title and the style.
pub fn push_head(ink: &mut Ink, title: &str) {
    ink.put(
        "<!DOCTYPE html>\n<html lang=\"en\">\n<head>\n<meta charset=\"utf-8\">\n<meta name=\"viewport\" content=\"width=device-width\">\n<title>",
    );
    push_title(ink, title);
    ink.put("</title>\n<style>\n");
    ink.put(STYLE);
    ink.put(
        "</style>\n</head>\n<body>\n<noscript>This page needs its own script.</noscript>\n<script type=\"application/json\" id=\"data\">\n",
    )
}

/// The document behind its data: the script.
pub fn push_tail(ink: &mut Ink) {
    ink.put("</script>\n<script>\n");
    ink.put(SCRIPT);
    ink.put(DRAWING);
    ink.put("</script>\n</body>\n</html>\n")
}

/// The page of a script that was filmed.
fn paged(alloc: Global, script: &Script, title: &str) -> Result<String, AllocError>
    requires { length script.now.steps.items ≤ 4096 }
{
    let geometry = script.geometry();
    let blocks = blocks_named(alloc, geometry, &script.steps)?;
    let cells = cells_of(alloc, geometry, &blocks)?;
    let film = film_of(alloc, geometry, &script.image, &script.steps, &cells)?;
    let trace = Trace {
        answers: film.answers,
        banks: Vec::new(alloc),
    };
    let chart = chart_of(alloc, geometry, &script.steps, &trace, None)?;
    let mut ink = Ink::new(alloc);
    let sheet = Sheet {
        title,
        geometry,
        steps: &script.steps,
        cells: &cells,
        answers: &trace.answers,
        start: &film.start,
        changes: &film.changes,
        chart: &chart,
    };
    push_head(&mut ink, title);
    push_data(&mut ink, &sheet);
    push_tail(&mut ink);
    ink.text()
}

/// The page that walks through the trace of the script that the bytes write, under a title. The errors are those of
/// `read_script`, and `Memory` where memory is refused.
pub fn page_script(alloc: Global, bytes: &[u8], title: &str) -> Result<String, DrawError>
    ensures paged { OnOk result (IsPaged bytes.now) }
    ensures why { IfErr result (IsWhy bytes.now) }
{
    let script = read_script(alloc, bytes)?;
    Ok(paged(alloc, &script, title)?)
}
