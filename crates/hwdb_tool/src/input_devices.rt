//! `query -` and `explain -`: the devices that standard input names.
ghost use Rattle.std.specs.Prelude.{◌≡◌, IfOk, None, OnOk};
ghost use Rattle.hwdb_spec.specs.Flushing.{HandsOn};
ghost use Rattle.hwdb_spec_commands.specs.Runs.{told_by};
ghost use Rattle.hwdb_spec_commands.specs.Queries.{IsOfInput};
ghost use Rattle.hwdb_spec.specs.declared.DbFault.{DbFault};
ghost use Rattle.hwdb_spec_commands.specs.Refusals.{IsOfCause};
ghost use Rattle.hwdb_plan.specs.Answers.{stream_plan};
ghost use Rattle.hwdb_plan.specs.Ended.{ShowsEnd, outs};
ghost use Rattle.hwdb_tool.specs.Reloading.{IsCalm};

use crate::databases::{FoundDatabase, asked};
use crate::reloading::{Asked, Watch};
use hwdb_answers::{Form, ToolError, run_renewed};
use hwdb_io::{Cause, Sink, Source};
use hwdb_reader::law_one_tree;
use hwdb_system::{Refusal, System};
use std::alloc::{AllocError, Global};

/// Prints what the database below the root gives each device that `input` names, one a line. With `reload` a database that is
/// replaced meanwhile is read anew before the next line is answered.
pub fn answer_input<D: System, I: Source, O: Sink, E: Sink>(
    alloc: Global,
    root: &str,
    form: Form,
    reload: bool,
    system: &D,
    input: &mut I,
    out: &mut O,
    err: &mut E,
) -> Result<u8, Refusal>
    ensures small { IfOk result (λ status. status ≡ 0) }
    ensures follows { D.Store.tells → ShowsEnd (D.System.reads system.now)
        (stream_plan root.now form)
        (told_by I.left I.failures input.old) (told_by I.left I.failures input.new)
        (outs (told_by E.taken E.failures err.old) (told_by O.taken O.failures out.old))
        (outs (told_by E.taken E.failures err.new) (told_by O.taken O.failures out.new)) result }
    ensures unfailed { OnOk result (O.failures out.new ≡ O.failures out.old) }
    ensures hands_on { HandsOn (O.is_flushed out.old) (O.is_flushed out.new)
        (O.failures out.old) (O.failures out.new) }
    ensures quiet { D.Store.tells → err.new ≡ err.old }
    ensures err_hands_on { HandsOn (E.is_flushed err.old) (E.is_flushed err.new)
        (E.failures err.old) (E.failures err.new) }
{
    law_one_tree();
    let watch = watched(alloc, root, reload, system)?;
    let FoundDatabase { path, bytes } = asked(alloc, root, system)?;
    let mut database = Asked {
        alloc,
        root,
        system,
        bytes,
        watch,
    };
    match run_renewed(alloc, &mut database, form, input, out, err) {
        Ok(()) => Ok(0),
        Err(error) => Err(refusal_of(alloc, error, path.as_bytes(), input.cause())),
    }
}

/// What is in the places of the databases, if that is to be watched.
fn watched<D: System>(
    alloc: Global,
    root: &str,
    reload: bool,
    system: &D,
) -> Result<Watch, AllocError>
    ensures { D.Store.tells → IfOk result IsCalm }
{
    if !reload {
        return Ok(Watch::off(alloc));
    }
    let watch = Watch::new(alloc, root, system)?;
    Ok(watch)
}

/// The error if the devices of standard input can't be answered from the database at the path.
fn refusal_of(alloc: Global, error: ToolError, path: &[u8], cause: Option<Cause>) -> Refusal
    ensures is { IsOfInput error path.now result }
    ensures fault { (fault : DbFault) → error ≡ ToolError.BadDatabase fault
        → IsOfCause error path.now None result }
{
    match error {
        ToolError::Read => Refusal::at(alloc, error, b"standard input", cause),
        ToolError::TooLong => Refusal::at(alloc, error, b"a line of standard input", None),
        ToolError::BadDatabase(fault) => {
            Refusal::of_cause(alloc, ToolError::BadDatabase(fault), path, None)
        }
        error => Refusal::Plain(error),
    }
}
