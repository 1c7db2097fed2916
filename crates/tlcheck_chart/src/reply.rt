//! What is written where a chart is asked for.
ghost use Rattle.std.specs.Prelude.{◌≡◌, ◌≢◌, ◌++◌, codes};
ghost use Rattle.tl_streams.specs.Written.{AppendsBeginning};
ghost use Rattle.tlcheck_chart.specs.Told.{IsChartTold, words_of};
ghost use Rattle.tlcheck_reader.specs.Ending.{Tells, status_of};
ghost use Rattle.tlcheck_reader.specs.declared.ending.Ending.{Ending};

use crate::picture::picture_of_ending;
use std::alloc::Global;
use std::fmt;
use std::io::Write;
use tl_streams::{tell, write_whole};
use tlcheck_reader::{Ending, Outcome, show};

// That a lawful record has no chart.
#[derive(Clone, Copy)]
struct NoChart;

impl fmt::Display for NoChart {
    ghost use Rattle.std.specs.Prelude.{Some, codes};

    ghost output = { λ _. Some (codes "error 61 no chart: the record is lawful") };

    fn fmt<W: fmt::Write>(&self, f: &mut fmt::Formatter<W>) -> fmt::Result {
        f.write_str("error 61 no chart: the record is lawful")
    }
}

/// Writes the chart of a record that is not lawful.
fn tell_broken<W: Write, E: Write>(
    alloc: Global,
    title: &str,
    text: &[u8],
    ending: &Ending,
    output: &mut W,
    faults: &mut E,
) -> u8
    requires { status_of ending.now ≡ 1 }
    ensures { (told : Ending)
        × Tells ending.now told
        × (result ≡ status_of told)
        × IsChartTold result told (W.contents output.old) (W.contents output.new) (E.contents faults.old)
        (E.contents faults.new) }
{
    match picture_of_ending(alloc, title, text, ending) {
        Ok(Some(picture)) => match write_whole(output, picture.as_bytes()) {
            Ok(()) => 1,
            Err(_) => show(faults, &Ending::File),
        },
        Ok(None) => show(faults, &Ending::File),
        Err(_) => show(faults, &Ending::Memory),
    }
}

/// Writes the line that says why there is no chart.
fn tell_none<E: Write>(ending: &Ending, faults: &mut E) -> u8
    requires { status_of ending.now ≢ 1 }
    ensures status { result ≡ status_of ending.now }
    ensures line { AppendsBeginning (E.contents faults.old) (E.contents faults.new)
        (words_of ending.now ++ codes "\n") }
{
    match ending {
        Ending::Judged(Outcome::Lawful(_, _)) => {
            let _ = tell(faults, &NoChart);
            0
        }
        _ => show(faults, ending),
    }
}

/// Writes the chart of what a check of a text ends with to `output`, where an entry is not permitted; else a line to
/// `faults`, which says why there is none. It answers the status of `tell_ending`: 1 with a chart, 0 where the record
/// is lawful, 3 where it cannot be read as one, 4 for want of memory, 5 where the chart could not be written. A failing
/// `faults` does not change it.
pub fn tell_chart<W: Write, E: Write>(
    alloc: Global,
    title: &str,
    text: &[u8],
    ending: &Ending,
    output: &mut W,
    faults: &mut E,
) -> u8
    ensures { (told : Ending)
        × Tells ending.now told
        × (result ≡ status_of told)
        × IsChartTold result told (W.contents output.old) (W.contents output.new) (E.contents faults.old)
        (E.contents faults.new) }
{
    if ending.status() == 1 {
        tell_broken(alloc, title, text, ending, output, faults)
    } else {
        tell_none(ending, faults)
    }
}
