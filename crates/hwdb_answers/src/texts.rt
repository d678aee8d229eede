//! The texts that are printed: properties, lines of hits, fault lines.
ghost use Rattle.std.specs.Prelude.{◌≡◌, ◌++◌, map, IfOk, OnOk};
ghost use Rattle.hwdb_compile.specs.Views.{fault_of};
ghost use Rattle.hwdb_query.specs.Views.{assignment_of_hit, pairs_bytes};
ghost use Rattle.hwdb_spec.specs.Texts.{property_text, properties_text, hit_text, place_text, fault_line, faults_text, faults_text_at};

use hwdb_compile::FileFault;
use hwdb_query::Hit;
use hwdb_show::push_name;
use hwdb_text::Fault;
use itoa::Buffer;
use std::alloc::{AllocError, Global};

/// A line `KEY=VALUE` for each property.
pub fn property_lines(alloc: Global, properties: &[(&[u8], &[u8])]) -> Result<Vec<u8>, AllocError>
    ensures { IfOk result (λ text. text.items ≡ properties_text (pairs_bytes properties.now)) }
{
    let mut text = Vec::new(alloc);
    for (key, value) in properties {
        push_property(&mut text, key, value)?;
    }
    Ok(text)
}

/// Adds `KEY=VALUE` and a newline.
pub fn push_property(text: &mut Vec<u8>, key: &[u8], value: &[u8]) -> Result<(), AllocError>
    ensures { OnOk result (text.new.items ≡ text.old.items ++ property_text (key.now, value.now)) }
{
    text.extend_from_slice(key)?;
    text.push(b'=')?;
    text.extend_from_slice(value)?;
    text.push(b'\n')?;
    Ok(())
}

/// Makes a text the line of a hit: its position, a tab, the pattern, a tab, the property. The line takes the text's
/// memory, and more only if it is longer.
pub fn set_hit_line(line: &mut Vec<u8>, hit: &Hit<'_>) -> Result<(), AllocError>
    ensures { OnOk result (line.new.items ≡ hit_text (assignment_of_hit hit.now)) }
{
    line.clear();
    hit.push_position(line)?;
    line.push(b'\t')?;
    line.extend_from_slice(&hit.pattern)?;
    line.push(b'\t')?;
    push_property(line, hit.key, hit.value)?;
    Ok(())
}

/// Adds where a fault is: the path, as names are shown, `:`, the line's number.
pub fn push_place(text: &mut Vec<u8>, path: &[u8], line: u32) -> Result<(), AllocError>
    ensures { OnOk result (text.new.items ≡ text.old.items ++ place_text path.now line) }
{
    let mut number = Buffer::new();
    push_name(text, path)?;
    text.push(b':')?;
    text.extend_from_slice(number.format(line).as_bytes())?;
    Ok(())
}

/// Adds the line of a fault: where it is, `: `, what is wrong.
fn push_fault(text: &mut Vec<u8>, path: &[u8], fault: Fault) -> Result<(), AllocError>
    ensures { OnOk result (text.new.items ≡ text.old.items ++ fault_line path.now fault) }
{
    push_place(text, path, fault.line)?;
    text.push(b':')?;
    text.push(b' ')?;
    text.extend_from_slice(fault.kind.text().as_bytes())?;
    text.push(b'\n')?;
    Ok(())
}

/// A line for each fault, with the stored path of its file.
pub fn fault_lines(alloc: Global, faults: &[FileFault]) -> Result<Vec<u8>, AllocError>
    ensures { IfOk result (λ text. text.items ≡ faults_text (map fault_of faults.now)) }
{
    let mut text = Vec::new(alloc);
    for found in faults {
        push_fault(&mut text, &found.path, found.fault)?;
    }
    Ok(text)
}

/// A line for each fault, all with one path.
pub fn fault_lines_at(
    alloc: Global,
    path: &[u8],
    faults: &[FileFault],
) -> Result<Vec<u8>, AllocError>
    ensures { IfOk result (λ text. text.items ≡ faults_text_at path.now (map fault_of faults.now)) }
{
    let mut text = Vec::new(alloc);
    for found in faults {
        push_fault(&mut text, path, found.fault)?;
    }
    Ok(text)
}
