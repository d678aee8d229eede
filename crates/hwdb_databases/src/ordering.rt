//! Texts in order, each once.
ghost use Rattle.std.specs.Prelude.{◌≡◌, map, IfOk};
ghost use Rattle.hwdb_spec.specs.Assignment.{ascending};

use std::alloc::{AllocError, Global};

/// The bytes of each text.
fn slices_of<'l>(alloc: Global, texts: &'l [Vec<u8>]) -> Result<Vec<&'l [u8]>, AllocError>
    ensures { IfOk result
        (λ slices. map (λ t. t.now) slices.items ≡ map (λ t. t.items) texts.now) }
{
    let mut slices = Vec::new(alloc);
    for text in texts {
        slices.push(text.as_slice())?;
    }
    Ok(slices)
}

/// Texts in the order of their bytes, each once. The only error is `AllocError`.
pub fn in_order<'l>(alloc: Global, texts: &'l [Vec<u8>]) -> Result<Vec<&'l [u8]>, AllocError>
    ensures { IfOk result (λ ordered.
        map (λ t. t.now) ordered.items ≡ ascending (map (λ t. t.items) texts.now)) }
{
    let mut ordered = slices_of(alloc, texts)?;
    ordered.sort()?;
    ordered.dedup();
    Ok(ordered)
}
