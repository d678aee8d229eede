//! `query` and `explain`: what each of several devices gets, those of the words or those that standard input names.
ghost use Rattle.std.specs.Prelude.{◌≡◌, ◌≤◌, false, map, string_bytes, IfOk, OnOk};
ghost use Rattle.hwdb_spec.specs.Flushing.{HandsOn};
ghost use Rattle.hwdb_spec_commands.specs.Given.{is_input};
ghost use Rattle.hwdb_spec_commands.specs.Runs.{told_by};
ghost use Rattle.hwdb_plan.specs.Answers.{answer_plan};
ghost use Rattle.hwdb_plan.specs.Ended.{ShowsEnd, outs};
ghost use Rattle.hwdb_plan.specs.Plans.{Follows};
ghost use Rattle.hwdb_tool.specs.Looking.{lookup_plan};
ghost use Rattle.hwdb_tool.specs.Views.{end_of};
ghost use Rattle.hwdb_spec_commands.specs.declared.job.Task.TheVariants.{Explain, Query};

use crate::answer::Answer;
use crate::databases::{asked, refused_database};
use crate::in_parts::answer_in_parts;
use crate::input_devices::answer_input;
use crate::printing::printed;
use crate::verb::{StreamVerb, root_of};
use hwdb_answers::{Form, answers};
use hwdb_cli::{ExplainArgs, Job, QueryArgs};
use hwdb_io::{Sink, Source};
use hwdb_system::{Machine, Refusal, System};
use std::alloc::Global;
use std::slice::from_ref;

/// Devices that the database below a root is asked for, and what is printed of each.
#[derive(Clone, Copy)]
pub struct Lookup<'a> {
    /// What is in front of the paths of databases.
    pub root: &'a str,
    /// The devices.
    pub devices: &'a [String],
    /// What is printed.
    pub form: Form,
    /// Whether a database that is replaced meanwhile is read anew.
    pub reload: bool,
}

/// Prints what the database below the root gives each device. If the only device is `-`, `input` names the devices, one a line.
/// Each is answered as soon as its line is read. For other devices nothing is read of `input`.
pub fn look_up<D: System, I: Source, O: Sink, E: Sink>(
    alloc: Global,
    lookup: Lookup<'_>,
    system: &D,
    input: &mut I,
    out: &mut O,
    err: &mut E,
) -> Result<u8, Refusal>
    ensures small { IfOk result (λ status. status ≤ 1) }
    ensures follows { D.Store.tells → ShowsEnd (D.System.reads system.now)
        (lookup_plan lookup.entry)
        (told_by I.left I.failures input.old) (told_by I.left I.failures input.new)
        (outs (told_by E.taken E.failures err.old) (told_by O.taken O.failures out.old))
        (outs (told_by E.taken E.failures err.new) (told_by O.taken O.failures out.new)) result }
    ensures unread { is_input (map string_bytes lookup.entry.devices.now) ≡ false
        → input.new ≡ input.old }
    ensures unfailed { OnOk result (O.failures out.new ≡ O.failures out.old) }
    ensures out_hands_on { HandsOn (O.is_flushed out.old) (O.is_flushed out.new)
        (O.failures out.old) (O.failures out.new) }
    ensures err_hands_on { HandsOn (E.is_flushed err.old) (E.is_flushed err.new)
        (E.failures err.old) (E.failures err.new) }
{
    let Lookup {
        root,
        devices,
        form,
        reload,
    } = lookup;
    if is_input(devices) {
        return answer_input(alloc, root, form, reload, system, input, out, err);
    }
    let answer = answer_given(alloc, root, devices, form, system);
    printed(answer, out, err)
}

/// Whether standard input names the devices: a lone `-` is in their place.
pub(crate) fn is_input(devices: &[String]) -> bool
    ensures { result ≡ is_input (map string_bytes devices.now) }
{
    match devices {
        [device] => device.as_str() == "-",
        _ => false,
    }
}

/// What the database below the root gives each of these devices.
fn answer_given<D: System>(
    alloc: Global,
    root: &str,
    devices: &[String],
    form: Form,
    system: &D,
) -> Result<Answer, Refusal>
    ensures status { IfOk result (λ a. a.status ≡ 0) }
    ensures follows { D.Store.tells → Follows end_of (D.System.reads system.now)
        (answer_plan root.now form (map string_bytes devices.now)) result }
{
    match answer_in_parts(alloc, root, devices, form, system) {
        Some(answer) => Ok(answer),
        None => answer_whole(alloc, root, devices, form, system),
    }
}

/// The same of a database that is read as a whole.
fn answer_whole<D: System>(
    alloc: Global,
    root: &str,
    devices: &[String],
    form: Form,
    system: &D,
) -> Result<Answer, Refusal>
    ensures status { IfOk result (λ a. a.status ≡ 0) }
    ensures follows { D.Store.tells → Follows end_of (D.System.reads system.now)
        (answer_plan root.now form (map string_bytes devices.now)) result }
{
    let found = asked(alloc, root, system)?;
    match answers(alloc, &found.bytes, devices, form) {
        Ok(text) => Ok(Answer::new(alloc, text, 0)),
        Err(error) => Err(refused_database(alloc, error, found.path.as_bytes())),
    }
}

impl<D: Machine, I: Source, O: Sink, E: Sink> StreamVerb<D, I, O, E> for QueryArgs {
    ghost task = { λ args. Query args };

    fn run(
        &self,
        alloc: Global,
        job: &Job,
        system: &D,
        input: &mut I,
        out: &mut O,
        err: &mut E,
    ) -> Result<u8, Refusal> {
        let lookup = Lookup {
            root: root_of(job),
            devices: &self.devices,
            form: Form::Query { json: self.json },
            reload: job.reload,
        };
        look_up(alloc, lookup, system, input, out, err)
    }
}

impl<D: Machine, I: Source, O: Sink, E: Sink> StreamVerb<D, I, O, E> for ExplainArgs {
    ghost task = { λ args. Explain args };

    fn run(
        &self,
        alloc: Global,
        job: &Job,
        system: &D,
        input: &mut I,
        out: &mut O,
        err: &mut E,
    ) -> Result<u8, Refusal> {
        let lookup = Lookup {
            root: root_of(job),
            devices: from_ref(&self.device),
            form: Form::Explain { json: self.json },
            reload: false,
        };
        look_up(alloc, lookup, system, input, out, err)
    }
}
