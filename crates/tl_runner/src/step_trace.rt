//! A trace of a script's steps.
ghost use Rattle.std.specs.Prelude.{◌≡◌, IfOk, IfErr, string_bytes};
ghost use Rattle.tl_runner.specs.Trace.{IsTraceOf};

use std::alloc::Global;
use tl_runner_report::RunError;
use tl_script::Script;
use tl_trace::play;

/// Plays a script's steps, one after another, over banks of its numbers and its image: the text has what each step
/// answered, a refusal too, and then what each bank holds. The error is `Memory`, where memory is refused.
pub fn trace(alloc: Global, script: &Script) -> Result<String, RunError>
    ensures text { IfOk result (λ text. IsTraceOf script.now (string_bytes text)) }
    ensures memory { IfErr result (λ e. e ≡ RunError.Memory) }
{
    let played = play(alloc, script.geometry(), &script.image, &script.steps)?;
    Ok(played.text(alloc)?)
}
