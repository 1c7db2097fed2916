//! Whether each script is drawn as its pictures, and has its page; and whether each record has its chart or its page.

use crate::answers::script_of;
use crate::names::{CHARTED, CHARTED_MESSAGES, DRAWN, NOT_CHARTED, NOT_CHARTED_MESSAGES, PAGED};
use std::alloc::{AllocError, Global};
use std::io::Write;
use std::{fs, io};
use tlchart_draw::Form;
use tlchart_page::{draw_script, page_script};
use tlchart_record::page_record;
use tlcheck_reader::check_record;
use tlwire_answer::judge_lines;
use tlwire_record::split_lines;

/// Whether the picture of a script is this one.
fn is_drawn(alloc: Global, script: &[u8], name: &str, form: Form, picture: &[u8]) -> bool {
    match draw_script(alloc, script, name, form, None) {
        Ok(text) => text.as_bytes() == picture,
        Err(_) => false,
    }
}

/// Prints whether a script is drawn as its picture of this form.
fn print_picture(
    rt: &HostRuntime,
    name: &str,
    script: &[u8],
    form: Form,
    ending: &str,
) -> io::Result<()> {
    let picture = fs::read(rt, format!(in rt.alloc(); "{name}.{ending}")?.as_str())?;
    let told = if is_drawn(rt.alloc(), script, name, form, &picture) {
        "as before"
    } else {
        "otherwise"
    };
    println!(rt; "{name}.{ending} drawn {told}")
}

/// Whether the page of a script is this one.
fn is_page(alloc: Global, script: &[u8], name: &str, page: &[u8]) -> bool {
    match page_script(alloc, script, name) {
        Ok(text) => text.as_bytes() == page,
        Err(_) => false,
    }
}

/// Prints whether a script has its page.
fn print_page(rt: &HostRuntime, name: &str, script: &[u8]) -> io::Result<()> {
    let page = fs::read(rt, format!(in rt.alloc(); "{name}.html")?.as_str())?;
    let told = if is_page(rt.alloc(), script, name, &page) {
        "as before"
    } else {
        "otherwise"
    };
    println!(rt; "{name}.html written {told}")
}

/// Whether the page of a record is this one.
fn is_record_page(alloc: Global, record: &[u8], name: &str, page: &[u8]) -> bool {
    match page_record(alloc, record, name) {
        Ok(text) => text.as_bytes() == page,
        Err(_) => false,
    }
}

/// Prints whether a record of events has its page.
fn print_record_page(rt: &HostRuntime, name: &str) -> io::Result<()> {
    let record = fs::read(rt, format!(in rt.alloc(); "record-{name}.txt")?.as_str())?;
    let page = fs::read(rt, format!(in rt.alloc(); "record-{name}.html")?.as_str())?;
    let told = if is_record_page(rt.alloc(), &record, name, &page) {
        "as before"
    } else {
        "otherwise"
    };
    println!(rt; "record-{name}.html written {told}")
}

/// What is written where the chart of a record is asked for, and the status.
#[derive(Drop)]
struct Told {
    status: u8,
    output: Vec<u8>,
    faults: Vec<u8>,
}

impl Told {
    /// What is written for a record of events.
    fn of_events(alloc: Global, title: &str, record: &[u8]) -> Told {
        let mut rest = record;
        let ending = check_record(alloc, &mut rest);
        let (mut output, mut faults) = (Vec::new(alloc), Vec::new(alloc));
        let status = tlcheck_chart::tell_chart(
            alloc,
            title,
            record,
            &ending,
            &mut output,
            &mut faults,
        );
        Told {
            status,
            output,
            faults,
        }
    }

    /// What is written for a record of messages.
    fn of_messages(alloc: Global, title: &str, record: &[u8]) -> Result<Told, AllocError> {
        let lines = split_lines(alloc, record)?;
        let ending = judge_lines(alloc, &lines, &mut ());
        let (mut output, mut faults) = (Vec::new(alloc), Vec::new(alloc));
        let status = tlwire_chart::tell_chart(
            alloc,
            title,
            &lines,
            &ending,
            &mut output,
            &mut faults,
        );
        Ok(Told {
            status,
            output,
            faults,
        })
    }
}

/// Whether something is drawn, and whether it is this chart.
fn drawn_as(output: &[u8], chart: &[u8]) -> &'static str {
    if output.is_empty() {
        "not drawn"
    } else if output == chart {
        "drawn as before"
    } else {
        "drawn otherwise"
    }
}

/// Prints whether a record's chart is this one, the status, and what else was told.
fn print_chart(rt: &HostRuntime, name: &str, told: &Told, chart: &[u8]) -> io::Result<()> {
    let drawn = drawn_as(&told.output, chart);
    println!(rt; "{name} {drawn}: {}", told.status)?;
    rt.stdout().write_all(&told.faults)
}

/// Prints that of a record of events, which has a chart.
fn print_record_chart(rt: &HostRuntime, name: &str) -> io::Result<()> {
    let record = fs::read(rt, format!(in rt.alloc(); "record-{name}.txt")?.as_str())?;
    let file = format!(in rt.alloc(); "record-{name}.svg")?;
    let chart = fs::read(rt, file.as_str())?;
    let told = Told::of_events(rt.alloc(), name, &record);
    print_chart(rt, file.as_str(), &told, &chart)
}

/// Prints that of a record of messages, which has a chart.
fn print_messages_chart(rt: &HostRuntime, name: &str) -> io::Result<()> {
    let record = fs::read(rt, format!(in rt.alloc(); "{name}.txt")?.as_str())?;
    let file = format!(in rt.alloc(); "{name}.svg")?;
    let chart = fs::read(rt, file.as_str())?;
    let told = Told::of_messages(rt.alloc(), name, &record)?;
    print_chart(rt, file.as_str(), &told, &chart)
}

/// Prints that of a record of events, which has none.
fn print_no_record_chart(rt: &HostRuntime, name: &str) -> io::Result<()> {
    let file = format!(in rt.alloc(); "record-{name}.txt")?;
    let record = fs::read(rt, file.as_str())?;
    let told = Told::of_events(rt.alloc(), name, &record);
    print_chart(rt, file.as_str(), &told, b"")
}

/// Prints that of a record of messages, which has none.
fn print_no_messages_chart(rt: &HostRuntime, name: &str) -> io::Result<()> {
    let file = format!(in rt.alloc(); "{name}.txt")?;
    let record = fs::read(rt, file.as_str())?;
    let told = Told::of_messages(rt.alloc(), name, &record)?;
    print_chart(rt, file.as_str(), &told, b"")
}

/// Prints the charts of records, and that other records have none.
fn print_charts(rt: &HostRuntime) -> io::Result<()> {
    for name in CHARTED {
        print_record_chart(rt, name)?;
    }
    for name in NOT_CHARTED {
        print_no_record_chart(rt, name)?;
    }
    for name in CHARTED_MESSAGES {
        print_messages_chart(rt, name)?;
    }
    for name in NOT_CHARTED_MESSAGES {
        print_no_messages_chart(rt, name)?;
    }
    Ok(())
}

/// Prints for each picture of a script, and for its page, whether it is drawn so.
fn print_pictures(rt: &HostRuntime, name: &str) -> io::Result<()> {
    let script = script_of(rt, name)?;
    print_picture(rt, name, &script, Form::Svg, "svg")?;
    print_picture(rt, name, &script, Form::Mermaid, "mmd")?;
    print_page(rt, name, &script)
}

/// Prints for each picture whether its script is drawn so, and for each page and chart whether its record has it. The
/// error is a file's or standard output's.
pub fn print_rows(rt: &HostRuntime) -> io::Result<()> {
    for name in DRAWN {
        print_pictures(rt, name)?;
    }
    for name in PAGED {
        print_record_page(rt, name)?;
    }
    print_charts(rt)
}
