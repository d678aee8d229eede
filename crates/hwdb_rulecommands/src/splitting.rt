//! The words of a builtin's command, as udev cuts them.
ghost use Rattle.std.specs.Prelude.{◌≡◌, ◌++◌, ◌∷◌, [], map, IfOk, OnOk};
ghost use Rattle.hwdb_rulecommands.specs.CommandWords;
ghost use Rattle.hwdb_rulecommands.specs.Views.{reading_of, word_of};

use std::alloc::{AllocError, Global};

/// What is read of a command so far.
#[derive(Drop)]
pub enum Reading {
    /// Nothing of a word.
    Between,
    /// The bytes of a word.
    Word(Vec<u8>),
    /// The bytes of a word, within quotes of this kind.
    Quoted(u8, Vec<u8>),
}

/// Space, tab, newline and carriage return.
fn is_gap(byte: u8) -> bool
    ensures { result ≡ CommandWords.is_gap byte }
{
    matches!(byte, b' ' | b'\t' | b'\n' | b'\r')
}

fn is_quote(byte: u8) -> bool
    ensures { result ≡ CommandWords.is_quote byte }
{
    matches!(byte, b'\'' | b'"')
}

/// A word with one more byte.
fn longer(word: Vec<u8>, byte: u8) -> Result<Vec<u8>, AllocError>
    ensures { IfOk result (λ all. all.items ≡ word.items ++ (byte ∷ [])) }
{
    let mut all = word;
    all.push(byte)?;
    Ok(all)
}

/// A word with a byte that parts no words.
fn taken(word: Vec<u8>, byte: u8) -> Result<Reading, AllocError>
    ensures { IfOk result (λ next. reading_of next ≡ CommandWords.taken word.items byte) }
{
    if is_quote(byte) {
        return Ok(Reading::Quoted(byte, word));
    }
    Ok(Reading::Word(longer(word, byte)?))
}

/// A word within quotes, and a byte.
fn within(quote: u8, word: Vec<u8>, byte: u8) -> Result<Reading, AllocError>
    ensures { IfOk result (λ next. reading_of next
        ≡ CommandWords.after (CommandWords.Quoted quote word.items) byte) }
{
    if byte == quote {
        return Ok(Reading::Word(word));
    }
    Ok(Reading::Quoted(quote, longer(word, byte)?))
}

/// A byte after a word, outside of quotes: it ends the word, or is taken.
fn in_word(all: &mut Vec<Vec<u8>>, word: Vec<u8>, byte: u8) -> Result<Reading, AllocError>
    ensures next { IfOk result (λ next. reading_of next
        ≡ CommandWords.after (CommandWords.Word word.items) byte) }
    ensures ended { OnOk result (map word_of all.new.items ≡ map word_of all.old.items
        ++ CommandWords.ended (CommandWords.Word word.items) byte) }
{
    if is_gap(byte) {
        all.push(word)?;
        return Ok(Reading::Between);
    }
    taken(word, byte)
}

/// A byte outside of quotes, if no word is begun.
fn between(alloc: Global, byte: u8) -> Result<Reading, AllocError>
    ensures { IfOk result (λ next. reading_of next
        ≡ CommandWords.after CommandWords.Between byte) }
{
    if is_gap(byte) {
        return Ok(Reading::Between);
    }
    taken(Vec::new(alloc), byte)
}

/// Reads one more byte, and puts the word that it ends after the others.
fn step(
    alloc: Global,
    all: &mut Vec<Vec<u8>>,
    reading: Reading,
    byte: u8,
) -> Result<Reading, AllocError>
    ensures next { IfOk result (λ next. reading_of next
        ≡ CommandWords.after (reading_of reading) byte) }
    ensures ended { OnOk result (map word_of all.new.items ≡ map word_of all.old.items
        ++ CommandWords.ended (reading_of reading) byte) }
{
    match reading {
        Reading::Between => between(alloc, byte),
        Reading::Word(word) => in_word(all, word, byte),
        Reading::Quoted(quote, word) => within(quote, word, byte),
    }
}

/// Puts the word that the end of a command ends after the others.
fn put_last(all: &mut Vec<Vec<u8>>, reading: Reading) -> Result<(), AllocError>
    ensures { OnOk result (map word_of all.new.items ≡ map word_of all.old.items
        ++ CommandWords.last (reading_of reading)) }
{
    match reading {
        Reading::Between => {}
        Reading::Word(word) => all.push(word)?,
        Reading::Quoted(_, word) => all.push(word)?,
    }
    Ok(())
}

/// The words of a builtin's command, with the builtin's name as the first one. Quotes are taken away, and backslashes stay.
///
/// Time and memory are linear in the command's length.
///
/// # Errors
///
/// `AllocError` at any allocation that fails.
pub fn words(alloc: Global, command: &[u8]) -> Result<Vec<Vec<u8>>, AllocError>
    ensures { IfOk result (λ all. map word_of all.items ≡ CommandWords.words command.now) }
{
    let mut all = Vec::new(alloc);
    let mut reading = Reading::Between;
    for byte in command {
        reading = step(alloc, &mut all, reading, *byte)?;
    }
    put_last(&mut all, reading)?;
    Ok(all)
}
