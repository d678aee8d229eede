//! What a task says besides with `--text`: `explain` tells what the text files have and the database has not.
ghost use Rattle.std.specs.Prelude.{◌≡◌, map, string_bytes, IfErr, IfOk};
ghost use Rattle.hwdb_compile.specs.Views.{ForFolders};
ghost use Rattle.hwdb_spec.specs.Folders.{Source};
ghost use Rattle.hwdb_spec_commands.specs.OverText;
ghost use Rattle.hwdb_spec_commands.specs.Replacements.{replacements_form};
ghost use Rattle.hwdb_spec.specs.declared.errors.ToolError.TheVariants.{Memory};
ghost use Rattle.hwdb_spec_commands.specs.declared.refusals.Refusal.TheVariants.{Plain};

use crate::given::is_dash;
use crate::status_command::masked_paths;
use hwdb_answers::ToolError;
use hwdb_cli::Task;
use hwdb_near::replaced_in_files;
use hwdb_system::Refusal;
use hwdb_text::ChosenFile;
use std::alloc::Global;

/// What is said besides of a device: which assignments were replaced, and which of the listed files of /usr/lib are masked.
fn said_of(
    alloc: Global,
    files: &[ChosenFile<'_>],
    listed: &[String],
    device: &[u8],
    json: bool,
) -> Result<Vec<u8>, Refusal>
    ensures said { IfOk result (λ text. ForFolders files.now (λ etc usr.
        map (λ (s : Source). s.name) usr ≡ map string_bytes listed.now
        → text.items ≡ replacements_form json device.now etc usr)) }
    ensures memory { IfErr result (λ r. r ≡ Plain Memory) }
{
    let masked = masked_paths(alloc, files, listed)?;
    match replaced_in_files(alloc, files, &masked, device, json) {
        Ok(text) => Ok(text),
        // None has too many lines: they were compiled.
        Err(_) => Err(Refusal::Plain(ToolError::Memory)),
    }
}

/// What the task says besides of chosen text files, if /usr/lib has these names. Devices that standard input names get nothing.
pub(crate) fn text_besides(
    alloc: Global,
    task: &Task,
    files: &[ChosenFile<'_>],
    listed: &[String],
) -> Result<Vec<u8>, Refusal>
    ensures said { IfOk result (λ text. ForFolders files.now (λ etc usr.
        map (λ (s : Source). s.name) usr ≡ map string_bytes listed.now
        → text.items ≡ OverText.text_besides task.now etc usr)) }
    ensures memory { IfErr result (λ r. r ≡ Plain Memory) }
{
    match task {
        Task::Explain(args) => {
            if is_dash(args.device.as_str()) {
                return Ok(Vec::new(alloc));
            }
            said_of(alloc, files, listed, args.device.as_bytes(), args.json)
        }
        _ => Ok(Vec::new(alloc)),
    }
}
