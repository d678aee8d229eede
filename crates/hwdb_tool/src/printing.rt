//! What a command prints, and the one place where it is printed.
ghost use Rattle.std.specs.Prelude.{[], ◌≡◌, ◌≢◌, ◌≤◌, Err, IfErr, IfOk, MatchResult, OnOk};
ghost use Rattle.hwdb_spec.specs.Flushing.{HandsOn};
ghost use Rattle.hwdb_spec_commands.specs.Runs.{HasTaken, WasCut, told_by};
ghost use Rattle.hwdb_plan.specs.Ended.{Prints, outs};
ghost use Rattle.hwdb_spec_commands.specs.declared.refusals.Refusal.TheVariants.{Plain};

use crate::answer::Answer;
use hwdb_answers::ToolError;
use hwdb_io::{Sink, write_text};
use hwdb_system::Refusal;

/// Writes a text, if there is something to say.
pub fn say<E: Sink>(text: &[u8], err: &mut E) -> Result<(), Refusal>
    ensures took { OnOk result (HasTaken text.now
        (told_by E.taken E.failures err.old) (told_by E.taken E.failures err.new)) }
    ensures quiet { text.now ≡ [] → err.new ≡ err.old }
    ensures refused { IfErr result (λ r. (r ≡ Plain ToolError.Write) × WasCut text.now
        (told_by E.taken E.failures err.old) (told_by E.taken E.failures err.new)) }
    ensures some { IfErr result (λ _. text.now ≢ []) }
    ensures hands_on { HandsOn (E.is_flushed err.old) (E.is_flushed err.new)
        (E.failures err.old) (E.failures err.new) }
{
    if text.is_empty() {
        return Ok(());
    }
    match write_text(err, text) {
        Ok(()) => Ok(()),
        Err(error) => Err(Refusal::from(error)),
    }
}

/// Prints an answer, if there is one: to `err` and after that to `out`. Returns its status.
pub fn printed<O: Sink, E: Sink>(
    answer: Result<Answer, Refusal>,
    out: &mut O,
    err: &mut E,
) -> Result<u8, Refusal>
    ensures small { IfOk result (λ status. status ≤ 1) }
    ensures prints { MatchResult answer (λ a. Prints a.status a.err.items a.out.items
        (outs (told_by E.taken E.failures err.old) (told_by O.taken O.failures out.old))
        (outs (told_by E.taken E.failures err.new) (told_by O.taken O.failures out.new)) result)
        (λ r. (result ≡ Err r) × (outs (told_by E.taken E.failures err.new)
        (told_by O.taken O.failures out.new) ≡ outs (told_by E.taken E.failures err.old)
        (told_by O.taken O.failures out.old))) }
    ensures unfailed { OnOk result (O.failures out.new ≡ O.failures out.old) }
    ensures out_hands_on { HandsOn (O.is_flushed out.old) (O.is_flushed out.new)
        (O.failures out.old) (O.failures out.new) }
    ensures err_hands_on { HandsOn (E.is_flushed err.old) (E.is_flushed err.new)
        (E.failures err.old) (E.failures err.new) }
{
    match answer {
        Ok(answer) => print(&answer, out, err),
        Err(refusal) => Err(refusal),
    }
}

/// Prints an answer.
fn print<O: Sink, E: Sink>(answer: &Answer, out: &mut O, err: &mut E) -> Result<u8, Refusal>
    ensures prints { Prints answer.now.status answer.now.err.items answer.now.out.items
        (outs (told_by E.taken E.failures err.old) (told_by O.taken O.failures out.old))
        (outs (told_by E.taken E.failures err.new) (told_by O.taken O.failures out.new)) result }
    ensures status { IfOk result (λ status. status ≡ answer.now.status) }
    ensures unfailed { OnOk result (O.failures out.new ≡ O.failures out.old) }
    ensures out_hands_on { HandsOn (O.is_flushed out.old) (O.is_flushed out.new)
        (O.failures out.old) (O.failures out.new) }
    ensures err_hands_on { HandsOn (E.is_flushed err.old) (E.is_flushed err.new)
        (E.failures err.old) (E.failures err.new) }
{
    say(&answer.err, err)?;
    match write_text(out, &answer.out) {
        Ok(()) => Ok(answer.status),
        Err(error) => Err(Refusal::from(error)),
    }
}
