//! `list` and `ask`: the hits of the database, and what one text file gives.
ghost use Rattle.std.specs.Prelude.{◌≡◌, false, IfOk, OnOk};
ghost use Rattle.hwdb_spec.specs.Flushing.{HandsOn};
ghost use Rattle.hwdb_spec_commands.specs.Given.{is_dash};
ghost use Rattle.hwdb_spec_commands.specs.Runs.{Told, told_by};
ghost use Rattle.hwdb_plan.specs.Ask.{ask_plan};
ghost use Rattle.hwdb_plan.specs.Ended.{ShowsEnd, outs};
ghost use Rattle.hwdb_plan.specs.Input.{OverGiven};
ghost use Rattle.hwdb_plan.specs.Plans.{Follows};
ghost use Rattle.hwdb_tool.specs.Listing.{asked_list_plan};
ghost use Rattle.hwdb_tool.specs.Views.{end_of};
ghost use Rattle.hwdb_spec_commands.specs.declared.job.Task.TheVariants.{Ask, List as ListHits};

use crate::answer::Answer;
use crate::databases::{asked, refused_database};
use crate::given::{is_dash, read};
use crate::in_parts::list_in_parts;
use crate::printing::say;
use crate::verb::{StreamVerb, Verb, root_of, text_of};
use hwdb_answers::{ListAsked, ask_texts, print_list};
use hwdb_cli::{AskArgs, Job, ListArgs};
use hwdb_io::{Sink, Source};
use hwdb_system::{Machine, Refusal, System};
use hwdb_writer::law_one_written_form;
use std::alloc::Global;

/// Prints the hits that are asked for of the database below the root. If that can be read in parts, the lines are made before one is
/// printed: those of at most 256 hits, and some 1 MiB. Else each is printed as it is found.
pub fn list<D: System, O: Sink>(
    alloc: Global,
    root: &str,
    asked: ListAsked<'_>,
    system: &D,
    out: &mut O,
) -> Result<u8, Refusal>
    ensures status { IfOk result (λ status. status ≡ 0) }
    ensures follows { D.Store.tells → (input err : Told) → ShowsEnd (D.System.reads system.now)
        (asked_list_plan root.now asked.entry)
        input input (outs err (told_by O.taken O.failures out.old))
        (outs err (told_by O.taken O.failures out.new)) result }
    ensures unfailed { OnOk result (O.failures out.new ≡ O.failures out.old) }
    ensures hands_on { HandsOn (O.is_flushed out.old) (O.is_flushed out.new)
        (O.failures out.old) (O.failures out.new) }
{
    let Some(text) = list_in_parts(alloc, root, asked, system) else {
        return list_whole(alloc, root, asked, system, out);
    };
    say(&text, out)?;
    Ok(0)
}

/// The same of a database that is read as a whole.
fn list_whole<D: System, O: Sink>(
    alloc: Global,
    root: &str,
    listed: ListAsked<'_>,
    system: &D,
    out: &mut O,
) -> Result<u8, Refusal>
    ensures status { IfOk result (λ status. status ≡ 0) }
    ensures follows { D.Store.tells → (input err : Told) → ShowsEnd (D.System.reads system.now)
        (asked_list_plan root.now listed.entry)
        input input (outs err (told_by O.taken O.failures out.old))
        (outs err (told_by O.taken O.failures out.new)) result }
    ensures unfailed { OnOk result (O.failures out.new ≡ O.failures out.old) }
    ensures hands_on { HandsOn (O.is_flushed out.old) (O.is_flushed out.new)
        (O.failures out.old) (O.failures out.new) }
{
    let found = asked(alloc, root, system)?;
    match print_list(alloc, &found.bytes, listed, out) {
        Ok(()) => Ok(0),
        Err(error) => Err(refused_database(alloc, error, found.path.as_bytes())),
    }
}

/// The properties that one text file gives the device, and its fault lines; `-` is the one that `input` has left.
pub fn ask_file<D: System, I: Source>(
    alloc: Global,
    file: &str,
    device: &[u8],
    system: &D,
    input: &mut I,
) -> Result<Answer, Refusal>
    ensures status { IfOk result (λ a. a.status ≡ 0) }
    ensures follows { D.Store.tells → OverGiven (is_dash file.now) file.now
        (I.left input.old) (I.failures input.old) (I.failures input.new)
        (D.System.reads system.now)
        (λ path reads. Follows end_of reads (ask_plan file.now device.now path) result) }
    ensures unread { is_dash file.now ≡ false → input.new ≡ input.old }
{
    law_one_written_form();
    let bytes = read(alloc, file, system, input)?;
    let texts = ask_texts(alloc, file, &bytes, device)?;
    Ok(Answer {
        err: texts.faults,
        out: texts.properties,
        status: 0,
    })
}

impl<D: Machine, I: Source> Verb<D, I> for AskArgs {
    ghost task = { λ args. Ask args };

    fn answer(
        &self,
        alloc: Global,
        _job: &Job,
        system: &D,
        input: &mut I,
    ) -> Result<Answer, Refusal> {
        let (file, device) = (self.file.as_str(), self.device.as_bytes());
        ask_file(alloc, file, device, system, input)
    }
}

impl<D: Machine, I: Source, O: Sink, E: Sink> StreamVerb<D, I, O, E> for ListArgs {
    ghost task = { λ args. ListHits args };

    fn run(
        &self,
        alloc: Global,
        job: &Job,
        system: &D,
        _input: &mut I,
        out: &mut O,
        _err: &mut E,
    ) -> Result<u8, Refusal> {
        let asked = ListAsked {
            device: self.device.as_bytes(),
            after: text_of(&self.after),
            limit: self.limit,
            json: self.json,
        };
        list(alloc, root_of(job), asked, system, out)
    }
}
