//! What is written where a chart is asked for.
ghost use Rattle.std.specs.Prelude.{◌≡◌, ◌++◌, codes, true, false};
ghost use Rattle.tl_streams.specs.Written.{AppendsBeginning};
ghost use Rattle.tlwire_answer.specs.Ending.{Tells, status_of};
ghost use Rattle.tlwire_answer.specs.declared.ending.Ending.{Ending};
ghost use Rattle.tlwire_chart.specs.Told.{IsChartTold, is_broken, verdict_words, words_of};

use crate::ends::broken_at;
use crate::picture::picture_of_ending;
use std::alloc::Global;
use std::fmt;
use std::io::Write;
use tl_streams::{tell, write_whole};
use tlwire_answer::{Ending, Unmet, Verdict, show};

// Why there is no chart of what was said of a record.
#[derive(Clone, Copy)]
struct NoChart<'a>(&'a Verdict);

impl fmt::Display for NoChart<'_> {
    ghost use Rattle.std.specs.Prelude.{Some};

    ghost output = { λ x. Some (verdict_words x.0.now) };

    fn fmt<W: fmt::Write>(&self, f: &mut fmt::Formatter<W>) -> fmt::Result {
        match self.0 {
            Verdict::Explained(_) => f.write_str("error 61 no chart: the record is explained"),
            Verdict::NotDecided(_, _, _) | Verdict::OtherOrder(_, _) => {
                f.write_str("error 61 no chart: the record is not decided")
            }
            Verdict::Unmet(Unmet::TooLong(_)) => {
                f.write_str("error 61 no chart: an exchange is open for too long")
            }
            Verdict::Unmet(Unmet::NotQuiet(_)) => {
                f.write_str("error 61 no chart: an exchange is open at the end")
            }
            Verdict::Impossible(_) | Verdict::RuledOut(_) => Ok(()),
        }
    }
}

/// Whether a line of a record is impossible.
fn is_broken(ending: &Ending) -> bool
    ensures { result ≡ is_broken ending.now }
{
    match ending {
        Ending::Answered(_, verdict) => broken_at(verdict).is_some(),
        _ => false,
    }
}

/// Writes the chart of a record that is impossible.
fn tell_broken<W: Write, E: Write>(
    alloc: Global,
    title: &str,
    lines: &[&[u8]],
    ending: &Ending,
    output: &mut W,
    faults: &mut E,
) -> u8
    requires { is_broken ending.now ≡ true }
    ensures { (told : Ending)
        × Tells ending.now told
        × (result ≡ status_of told)
        × IsChartTold told (W.contents output.old) (W.contents output.new) (E.contents faults.old)
        (E.contents faults.new) }
{
    match picture_of_ending(alloc, title, lines, ending) {
        Ok(Some(picture)) => match write_whole(output, picture.as_bytes()) {
            Ok(()) => ending.status(),
            Err(_) => show(faults, &Ending::File),
        },
        Ok(None) => show(faults, &Ending::File),
        Err(_) => show(faults, &Ending::Memory),
    }
}

/// Writes the line that says why there is no chart.
fn tell_none<E: Write>(ending: &Ending, faults: &mut E) -> u8
    requires { is_broken ending.now ≡ false }
    ensures status { result ≡ status_of ending.now }
    ensures line { AppendsBeginning (E.contents faults.old) (E.contents faults.new)
        (words_of ending.now ++ codes "\n") }
{
    match ending {
        Ending::Answered(_, verdict) => {
            let _ = tell(faults, &NoChart(verdict));
            ending.status()
        }
        _ => show(faults, ending),
    }
}

/// Writes the chart of what the answer to a record of these lines ends with to `output`, where a line is impossible;
/// else a line to `faults`, which says why there is none. It answers the status of `tell_ending`: 1 with a chart, or
/// where an exchange is not as the header expects, 0 where the record is explained, 6 where it is not decided, 3 where
/// it cannot be read, 4 for want of memory, 5 where the chart could not be written. A failing `faults` does not change
/// it.
pub fn tell_chart<W: Write, E: Write>(
    alloc: Global,
    title: &str,
    lines: &[&[u8]],
    ending: &Ending,
    output: &mut W,
    faults: &mut E,
) -> u8
    ensures { (told : Ending)
        × Tells ending.now told
        × (result ≡ status_of told)
        × IsChartTold told (W.contents output.old) (W.contents output.new) (E.contents faults.old)
        (E.contents faults.new) }
{
    if is_broken(ending) {
        tell_broken(alloc, title, lines, ending, output, faults)
    } else {
        tell_none(ending, faults)
    }
}
