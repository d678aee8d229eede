//! What `ask` does with one text file.
ghost use Rattle.std.specs.Prelude.{◌≡◌, ◌≢◌, ℕ, List, [], IfOk, IfErr, OnOk};
ghost use Rattle.std.specs.Io.KnownBytes.{Appends};
ghost use Rattle.hwdb_text.specs.Views.{choice_of};
ghost use Rattle.hwdb_spec.specs.Flushing.{HandsOn};
ghost use Rattle.hwdb_spec.specs.Outputs.{CutShortTexts, TookTexts};
ghost use Rattle.hwdb_spec.specs.Texts.{max_file, last_values_text};
ghost use Rattle.hwdb_spec.specs.Tree.{map_of_files};
ghost use Rattle.hwdb_spec.specs.Written.{IsCompiled, IsWritten};
ghost use Rattle.hwdb_spec_commands.specs.Done.{AreAskTexts};
ghost use Rattle.hwdb_answers.specs.Lookups.{IfWrite};
ghost use Rattle.hwdb_spec_commands.specs.UpdateErrors.{IsAskRefusal};
ghost use Rattle.hwdb_spec_commands.specs.LoneFile.{lone, lone_choice};

use crate::queries::properties_of;
use crate::texts::fault_lines_at;
use hwdb_compile::compile_chosen;
use hwdb_io::{MAX_BYTES, Sink, write_text};
use hwdb_spec::ToolError;
use hwdb_text::{Chosen, ChosenFile};
use std::alloc::{AllocError, Global};

/// What one text file gives.
#[derive(Drop)]
pub struct AskTexts {
    /// Its fault lines.
    pub faults: Vec<u8>,
    /// The properties of a device: `KEY=VALUE` for each key, ascending by key.
    pub properties: Vec<u8>,
}

/// The choice of the one file, as the first of etc.
fn lone_choice(alloc: Global) -> Result<Chosen, AllocError>
    ensures { IfOk result (λ chosen. choice_of chosen ≡ lone_choice) }
{
    Ok(Chosen {
        from_etc: true,
        name: String::from_str(alloc, "1.hwdb")?,
        priority: 1,
    })
}

/// What one text file alone gives a device, as the etc file `1.hwdb`. Its fault lines have `file` as the path.
///
/// Errors are more lines than can be counted, a database that is too large, and want of memory.
#[tactic(auto, unfolding(hwdb_spec::specs::Assignment::ascending, hwdb_spec::specs::Assignment::put))]
pub fn ask_texts(
    alloc: Global,
    file: &str,
    bytes: &[u8],
    device: &[u8],
) -> Result<AskTexts, ToolError>
    ensures texts { IfOk result
        (λ a. AreAskTexts file.now bytes.now device.now
        (record { err = a.faults.items; out = a.properties.items })) }
    ensures compiled { IfOk result
        (λ a. (database : List ℕ) × IsWritten (map_of_files (lone bytes.now) []) database
        × IsCompiled (lone bytes.now) [] database) }
    ensures headline { IfOk result
        (λ a. a.properties.items ≡ last_values_text device.now (lone bytes.now) []) }
    ensures refusals { IfErr result
        (λ e. (e ≢ ToolError.Write) × IsAskRefusal bytes.now max_file e) }
{
    let choice = lone_choice(alloc)?;
    let only = ChosenFile {
        choice: &choice,
        bytes,
    };
    let compiled = compile_chosen(alloc, &[only], MAX_BYTES)?;
    let faults = fault_lines_at(alloc, file.as_bytes(), &compiled.faults)?;
    let properties = properties_of(alloc, &compiled.database, device)?;
    Ok(AskTexts { faults, properties })
}

/// Writes these texts: the fault lines to `err`, and then the properties to `out`. Nothing of `out` is written before the
/// fault lines are whole.
pub fn ask<O: Sink, E: Sink>(
    alloc: Global,
    file: &str,
    bytes: &[u8],
    device: &[u8],
    out: &mut O,
    err: &mut E,
) -> Result<(), ToolError>
    ensures asked { OnOk result (TookTexts (AreAskTexts file.now bytes.now device.now)
        (E.taken err.old) (E.taken err.new) (E.failures err.old) (E.failures err.new)
        (O.taken out.old) (O.taken out.new) (O.failures out.old) (O.failures out.new)) }
    ensures headline { OnOk result
        (Appends (O.taken out.old) (O.taken out.new)
        (last_values_text device.now (lone bytes.now) [])) }

    ensures refusals { IfErr result (IsAskRefusal bytes.now max_file) }
    ensures cut_short { IfErr result (IfWrite
        (CutShortTexts (AreAskTexts file.now bytes.now device.now)
        (E.taken err.old) (E.taken err.new) (E.failures err.old) (E.failures err.new)
        (O.taken out.old) (O.taken out.new) (O.failures out.old) (O.failures out.new))
        ((err.new ≡ err.old) × (out.new ≡ out.old))) }
    ensures out_hands_on { HandsOn (O.is_flushed out.old) (O.is_flushed out.new)
        (O.failures out.old) (O.failures out.new) }
    ensures err_hands_on { HandsOn (E.is_flushed err.old) (E.is_flushed err.new)
        (E.failures err.old) (E.failures err.new) }
{
    let texts = ask_texts(alloc, file, bytes, device)?;
    write_text(err, &texts.faults)?;
    write_text(out, &texts.properties)?;
    Ok(())
}
