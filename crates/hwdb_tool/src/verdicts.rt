//! What is said of bytes that are no database.
ghost use Rattle.std.specs.Prelude.{◌≡◌, ◌++◌, codes, IfOk, OnOk};
ghost use Rattle.hwdb_spec.specs.Texts.{at_offset, db_fault_name, db_fault_offset};
ghost use Rattle.hwdb_spec_commands.specs.Verdicts.{db_fault_cause, db_fault_words, explanation_text, fault_text, remedy, verdict_text};

use hwdb_reader::DbFault;
use hwdb_show::push_name as show_name;
use hwdb_system::remedy;
use itoa::Buffer;
use std::alloc::{AllocError, Global};

/// What is wrong.
fn words_of(fault: DbFault) -> &'static str
    ensures { result.now ≡ db_fault_words fault }
{
    match fault {
        DbFault::Short => "it has fewer than the 80 bytes of a header",
        DbFault::Signature => "it doesn't begin with the signature KSLPHHRH",
        DbFault::RecordSizes => "its header or its records are shorter than their known fields",
        DbFault::Lengths => "its length isn't the one that its header says",
        DbFault::Strings => "it has no strings, or the last one has no end",
        DbFault::Place(_) => "a node, or its children, isn't where the order of the nodes has it",
        DbFault::Depth(_) => "a node is more than 4097 nodes deep",
        DbFault::ChildOrder(_) => {
            "a child of a node has byte 0, or one that isn't above that of the child before it"
        }
        DbFault::StringOffset(_) => "a string is said to be outside of the strings",
        DbFault::KeyOrder(_) => "a key of a node isn't above the key before it",
        DbFault::Priority(_) => "the file of an assignment has priority 0",
    }
}

/// Where it may come from.
fn cause_of(fault: DbFault) -> &'static str
    ensures { result.now ≡ db_fault_cause fault }
{
    match fault {
        DbFault::Short => "the file was cut short, or is no hardware database",
        DbFault::Signature => "the file is no hardware database",
        DbFault::RecordSizes => "an old tool wrote the file, or it is damaged",
        DbFault::Lengths | DbFault::Strings => "the file was cut short or written over",
        DbFault::Place(_)
        | DbFault::Depth(_)
        | DbFault::ChildOrder(_)
        | DbFault::StringOffset(_)
        | DbFault::KeyOrder(_)
        | DbFault::Priority(_) => {
            "the file is damaged, or a tool wrote it that orders its records otherwise"
        }
    }
}

/// Adds a fault's name, and after that its offset.
fn push_name(text: &mut Vec<u8>, fault: DbFault) -> Result<(), AllocError>
    ensures { OnOk result (text.new.items
        ≡ text.old.items ++ at_offset (db_fault_name fault) (db_fault_offset fault)) }
{
    text.extend_from_slice(fault.name().as_bytes())?;
    if let Some(offset) = fault.offset() {
        let mut digits = Buffer::new();
        text.extend_from_slice(b" at ")?;
        text.extend_from_slice(digits.format(offset).as_bytes())?;
    }
    Ok(())
}

/// Adds what to do.
fn push_hint(text: &mut Vec<u8>, path: &[u8]) -> Result<(), AllocError>
    ensures { OnOk result
        (text.new.items ≡ text.old.items ++ (codes "\n    hint: " ++ remedy path.now)) }
{
    text.extend_from_slice(b"\n    hint: ")?;
    text.extend_from_slice(remedy(path).as_bytes())?;
    Ok(())
}

/// Adds what explains a fault of the database at a path.
fn push_explanation(text: &mut Vec<u8>, path: &[u8], fault: DbFault) -> Result<(), AllocError>
    ensures { OnOk result (text.new.items ≡ text.old.items ++ explanation_text path.now fault) }
{
    text.extend_from_slice(b"\n    ")?;
    text.extend_from_slice(words_of(fault).as_bytes())?;
    text.extend_from_slice(b"\n    cause: ")?;
    text.extend_from_slice(cause_of(fault).as_bytes())?;
    push_hint(text, path)?;
    Ok(())
}

/// The fault of the database at a path.
fn fault_at(alloc: Global, path: &[u8], fault: DbFault) -> Result<Vec<u8>, AllocError>
    ensures { IfOk result (λ text. text.items ≡ fault_text path.now fault) }
{
    let mut text = Vec::from_slice(alloc, b"bad database: ")?;
    push_name(&mut text, fault)?;
    text.extend_from_slice(b": ")?;
    show_name(&mut text, path)?;
    Ok(text)
}

/// The words of a fault of the database at a path: its name and the path. Below them is what is wrong, where that may come
/// from, and what to do.
pub fn verdict(alloc: Global, path: &[u8], fault: DbFault) -> Result<Vec<u8>, AllocError>
    ensures { IfOk result (λ text. text.items ≡ verdict_text path.now fault) }
{
    let mut text = fault_at(alloc, path, fault)?;
    push_explanation(&mut text, path, fault)?;
    Ok(text)
}
