//! The answer to a job.
ghost use Rattle.std.specs.Prelude.{◌≡◌, ◌≢◌, ◌≤◌, ℕ, List, Err, IfOk, IfErr, IfNone, string_bytes};
ghost use Rattle.std.specs.Option.{option_and_then, option_map};
ghost use Rattle.std.specs.Io.KnownBytes.{Appends};
ghost use Rattle.tl_streams.specs.Written.{AppendsBeginning};
ghost use Rattle.tl_runner.specs.Answer.{IsAnswerTo};
ghost use Rattle.tl_runner.specs.Cause.{IsFaultOf};
ghost use Rattle.tl_runner.specs.Fault.{fault_line, fault_of_job, status_of};
ghost use Rattle.tl_runner.specs.declared.fault.Fault.{Fault};
ghost use Rattle.tl_runner.specs.declared.fault.Fault.TheVariants as its;
ghost use Rattle.tl_streams.specs.declared.fault.ProgramFault.TheVariants as program;

use crate::asked::{Job, JobError};
use crate::fault::Fault;
use crate::step_trace::trace;
use std::alloc::Global;
use std::io::{Read, Write};
use std::sync::Wait;
use std::thread::Threads;
use std::time::Clock;
use tl_client_ports::Free;
use tl_runner_threads::run;
use tl_script::read_script;
use tl_streams::{ProgramFault, read_whole, tell, write_whole};

// The C library's allocator gives a free block of 128 kilobytes and more back to the system, but for those no larger
// than the largest that it gave back before. So one of this many bytes is asked for and given back: what the reading of
// a script leaves free then serves the run, whose pages the system need not lay down anew.
const KEPT: usize = 480 * 1024;

/// Has the allocator keep free blocks of up to `KEPT` bytes. Nothing depends on it but time.
fn keep_free_blocks(alloc: Global) {
    let _ = Vec::<u8>::with_capacity(alloc, KEPT);
}

/// The text of the answer: the words, the file, the script, the run or the trace, in this order.
fn text<T: Threads + Wait + Clock + Sync, R: Read + Drop>(
    rt: &T,
    alloc: Global,
    job: Result<Job, JobError>,
    file: Option<R>,
) -> Result<String, Fault>
    ensures answer { IfOk result
        (λ text. IfOk job (λ asked. IsAnswerTo asked.traces (option_and_then R.remaining file) (string_bytes text))) }
    ensures usage { IfErr job (λ e. result ≡ Err (fault_of_job e)) }
    ensures no_file { IfOk job (λ _. IfNone file (result ≡ Err (its.Program program.File))) }
    ensures fault { IfErr result (λ fault. IsFaultOf job (option_map R.remaining file) fault) }
{
    let job = job?;
    keep_free_blocks(alloc);
    let mut reader = file.ok_or(Fault::Program(ProgramFault::File))?;
    let bytes = read_whole(alloc, &mut reader)?;
    let script = read_script(alloc, &bytes)?;
    drop(bytes);
    if job.traces {
        return Ok(trace(alloc, &script)?);
    }
    let report = run(rt, alloc, &script, &Free)?;
    Ok(report.text(alloc)?)
}

/// Tells a fault, as far as `faults` takes it, and answers its status.
fn show<E: Write>(faults: &mut E, fault: &Fault) -> u8
    ensures status { result ≡ status_of fault.now }
    ensures line { AppendsBeginning (E.contents faults.old) (E.contents faults.new) (fault_line fault.now) }
{
    // A line that cannot be written has nowhere else to go; the status tells.
    let _ = tell(faults, fault);
    fault.status()
}

/// Writes the whole answer to `output`, or one line to `faults` that says what stopped the job, and answers the status:
/// 0 where all was written, else that of the fault. A failing `faults` does not change it. A run has a thread for each
/// client and one for each bank's home.
pub fn answer<T: Threads + Wait + Clock + Sync, R: Read + Drop, W: Write, E: Write>(
    rt: &T,
    alloc: Global,
    job: Result<Job, JobError>,
    file: Option<R>,
    output: &mut W,
    faults: &mut E,
) -> u8
    ensures at_most { result ≤ 5 }
    ensures whole { result ≡ 0
        → (text : List ℕ)
        × IfOk job (λ asked. IsAnswerTo asked.traces (option_and_then R.remaining file) text)
        × Appends (W.contents output.old) (W.contents output.new) text }
    ensures nothing { result ≢ 0 → result ≢ 5 → W.contents output.new ≡ W.contents output.old }
    ensures usage { IfErr job (λ e. result ≡ status_of (fault_of_job e)) }
    ensures no_file { IfOk job (λ _. IfNone file (result ≡ status_of (its.Program program.File))) }
    ensures quiet { result ≡ 0 → E.contents faults.new ≡ E.contents faults.old }
    ensures told { result ≢ 0
        → (fault : Fault)
        × IsFaultOf job (option_map R.remaining file) fault
        × (result ≡ status_of fault)
        × AppendsBeginning (E.contents faults.old) (E.contents faults.new) (fault_line fault) }
{
    match text(rt, alloc, job, file) {
        Ok(text) => match write_whole(output, text.as_bytes()) {
            Ok(()) => 0,
            Err(_) => show(faults, &Fault::Program(ProgramFault::File)),
        },
        Err(fault) => show(faults, &fault),
    }
}
