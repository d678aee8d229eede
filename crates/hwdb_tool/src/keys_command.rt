//! `keys`: the keys that the values of `KEYBOARD_KEY_..` name.
ghost use Rattle.std.specs.Prelude.{◌≡◌, ◌≤◌, map, string_bytes};
ghost use Rattle.hwdb_plan.specs.Keys.{keys_plan};
ghost use Rattle.hwdb_plan.specs.Plans.{Follows};
ghost use Rattle.hwdb_spec_commands.specs.KeysAsked.{keys_status, keys_text};
ghost use Rattle.hwdb_spec_commands.specs.Told.{Reads};
ghost use Rattle.hwdb_tool.specs.Views.{end_of};
ghost use Rattle.hwdb_spec_commands.specs.declared.job.Task.TheVariants.{Keys};

use crate::answer::Answer;
use crate::verb::Verb;
use hwdb_answers::ToolError;
use hwdb_cli::{Job, KeysArgs};
use hwdb_io::Source;
use hwdb_properties::{keys_text, keys_told};
use hwdb_system::{Machine, Refusal};
use std::alloc::Global;

/// The keys that words ask for, each with its code; without words all of them. If there is none, the status is 1, and a line for each word says which
/// key is near. No file is read.
pub fn keys(alloc: Global, words: &[String], json: bool) -> Result<Answer, Refusal>
    ensures follows { (reads : Reads)
        → Follows end_of reads (keys_plan json (map string_bytes words.now)) result }
{
    let text = keys_text(alloc, json, words)?;
    let status = status_of(&text);
    let told = keys_told(alloc, words, &text)?;
    Ok(Answer::with_error(told, text, status))
}

/// The status: 1 if nothing is printed.
fn status_of(text: &[u8]) -> u8
    ensures is { result ≡ keys_status text.now }
    ensures small { result ≤ 1 }
{
    if text.is_empty() { 1 } else { 0 }
}

impl<D: Machine, I: Source> Verb<D, I> for KeysArgs {
    ghost task = { λ args. Keys args };

    fn answer(
        &self,
        alloc: Global,
        _job: &Job,
        _system: &D,
        _input: &mut I,
    ) -> Result<Answer, Refusal> {
        keys(alloc, &self.words, self.json)
    }
}
