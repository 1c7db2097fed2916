//! The answer to the words of the command line.
ghost use Rattle.std.specs.Prelude.{◌≡◌, ◌≢◌, Bool, IfErr, IfOk, List, string_bytes, ℕ};
ghost use Rattle.std.specs.Io.KnownBytes.{Appends};
ghost use Rattle.tlgen.specs.Offered.{Offers};
ghost use Rattle.tlgen.specs.Status.{fault_of_words, status_of};

use crate::certify::text;
use crate::fault::Fault;
use crate::request::Request;
use std::alloc::Global;
use std::io::Write;
use tl_streams::{ProgramFault, WordsError, tell, write_whole};

/// The script that the words ask for.
fn asked_text(alloc: Global, words: Result<Vec<String>, WordsError>) -> Result<String, Fault>
    ensures text { IfOk result (λ text. (traces : Bool) × Offers traces (string_bytes text)) }
    ensures words { IfErr words (λ e. result ≡ Err (fault_of_words e)) }
{
    let words = words?;
    let request = Request::new(alloc, &words)?;
    text(alloc, &request)
}

/// Writes the script that the words ask for to `output`, or one line to `faults` that says why there is none, and
/// answers the status: 0, or that of the fault.
pub(crate) fn answer<W: Write, E: Write>(
    alloc: Global,
    words: Result<Vec<String>, WordsError>,
    output: &mut W,
    faults: &mut E,
) -> u8
    ensures whole { result ≡ 0
        → (traces : Bool) × (text : List ℕ) × Offers traces text
        × Appends (W.contents output.old) (W.contents output.new) text }
    ensures words { IfErr words (λ e. result ≡ status_of (fault_of_words e)) }
    ensures nothing { result ≢ 0 → result ≢ 5 → W.contents output.new ≡ W.contents output.old }
{
    let fault = match asked_text(alloc, words) {
        Ok(text) => match write_whole(output, text.as_bytes()) {
            Ok(()) => return 0,
            Err(_) => Fault::Program(ProgramFault::File),
        },
        Err(fault) => fault,
    };
    let _ = tell(faults, &fault);
    fault.status()
}
