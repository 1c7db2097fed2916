//! The chart of the last lines of the block that broke.

use crate::refuse;
use std::io::{Read, Write};
use std::time::Clock;
use tl_streams::{Piped, Progress, Watched, read_whole};
use tlchart_draw::title_of;
use tlcheck_chart::tell_chart;
use tlcheck_reader::{Ending, check_record};

/// Checks a text, and draws where it broke.
fn draw_text(rt: &HostRuntime, file: &str, text: &[u8]) -> u8 {
    let mut rest = text;
    let ending = check_record(rt.alloc(), &mut rest);
    let mut output = Piped::new(rt.stdout());
    let status = tell_chart(
        rt.alloc(),
        title_of(file),
        text,
        &ending,
        &mut output,
        &mut rt.stderr(),
    );
    output.status(status)
}

/// Reads all that a reader has, checks it, and draws where it broke.
pub(crate) fn draw<R: Read + Drop, W: Write + Drop, C: Clock + Drop>(
    rt: &HostRuntime,
    file: &str,
    mut reader: Watched<R, Option<Progress<W, C>>>,
) -> u8 {
    let text = read_whole(rt.alloc(), &mut reader);
    if let Some(progress) = reader.into_watcher() {
        progress.end();
    }
    match text {
        Ok(text) => draw_text(rt, file, &text),
        Err(error) => refuse(rt, Ending::from(error)),
    }
}
