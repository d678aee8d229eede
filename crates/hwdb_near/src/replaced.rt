//! What `explain --text` prints besides: the assignments that were replaced, and the masked files.
ghost use Rattle.std.specs.Prelude.{◌≡◌, ◌++◌, [], false, map, true, IfOk};
ghost use Rattle.hwdb_compile.specs.Views.{ForFolders};
ghost use Rattle.hwdb_spec_commands.specs.Replacements.{masked_files, masked_form, replaced_form, replacements_form};
ghost use Rattle.hwdb_near.specs.Views.{replacement_of};

use crate::each_once::each_once;
use crate::replacements::{Replaced, replacements};
use crate::wanted::wanted;
use crate::{replaced_json, replaced_texts};
use hwdb_spec::ScanError;
use hwdb_text::ChosenFile;
use std::alloc::{AllocError, Global};

/// What is printed of assignments that were replaced and of masked files, as text.
fn text_of(alloc: Global, pairs: &[Replaced<'_>], masked: &[Vec<u8>]) -> Result<Vec<u8>, AllocError>
    ensures { IfOk result
        (λ text. text.items ≡ replaced_form false [] (map replacement_of pairs.now)
        ++ masked_form false (map (λ p. p.items) masked.now)) }
{
    let mut text = Vec::new(alloc);
    replaced_texts::push_all_replaced(alloc, &mut text, pairs)?;
    replaced_texts::push_all_masked(&mut text, masked)?;
    Ok(text)
}

/// The same as lines of JSON.
fn json_of(
    alloc: Global,
    pairs: &[Replaced<'_>],
    masked: &[Vec<u8>],
    device: &[u8],
) -> Result<Vec<u8>, AllocError>
    ensures { IfOk result
        (λ text. text.items ≡ replaced_form true device.now (map replacement_of pairs.now)
        ++ masked_form true (map (λ p. p.items) masked.now)) }
{
    let mut text = Vec::new(alloc);
    replaced_json::push_all_replaced(alloc, &mut text, device, pairs)?;
    replaced_json::push_all_masked(alloc, &mut text, masked)?;
    Ok(text)
}

/// What is printed of the assignments of chosen files that a later one of the same pattern and key replaced, if the pattern matches
/// the device. They come by priority, line and match line, each once and with the one that replaced it. After them come these paths of
/// masked files.
///
/// It takes a pass over the files, and two looks among the assignments whose pattern matches for each of these.
///
/// # Errors
///
/// `TooManyLines` if a file has more than 4,294,967,295 lines; `Memory` at any allocation that fails.
pub fn replaced_in_files(
    alloc: Global,
    files: &[ChosenFile<'_>],
    masked: &[Vec<u8>],
    device: &[u8],
    json: bool,
) -> Result<Vec<u8>, ScanError>
    ensures { IfOk result (λ text. ForFolders files.now (λ etc usr.
        map (λ p. p.items) masked.now ≡ masked_files etc usr
        → text.items ≡ replacements_form json device.now etc usr)) }
{
    let found = wanted(alloc, files, device)?;
    let each = each_once(alloc, &found)?;
    let pairs = replacements(alloc, &each)?;
    if json {
        return Ok(json_of(alloc, &pairs, masked, device)?);
    }
    Ok(text_of(alloc, &pairs, masked)?)
}
