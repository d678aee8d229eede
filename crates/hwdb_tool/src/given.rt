//! The files that words name: `-` is standard input, which is read once.
ghost use Rattle.std.specs.Prelude.{◌≡◌, ◌≤◌, ◌⊎◌, ℕ, List, Result, Some, true, false, codes, map, option_map, string_bytes, length, IfOk, IfErr, IfSome, MatchResult};
ghost use Rattle.hwdb_spec_commands.specs.Given.{is_dash, any_dash};
ghost use Rattle.hwdb_spec.specs.Errors.{refusal_of_read};
ghost use Rattle.hwdb_spec_program.specs.GivenDatabases.{names_input};
ghost use Rattle.hwdb_spec_commands.specs.Refusals.{IsAt, IsUnreadAt};
ghost use Rattle.hwdb_spec_commands.specs.Told.{IsReadTo, IsStop, unread_stop};
ghost use Rattle.hwdb_spec_commands.specs.declared.unread.Unread.{Unread};
ghost use Rattle.hwdb_spec_commands.specs.declared.unread.Unread.TheVariants.{Failed};
ghost use Rattle.hwdb_plan.specs.Input.{IsInputTold, OverGiven};
ghost use Rattle.hwdb_plan.specs.Files.{IsInputText, OfInput, file_told};
ghost use Rattle.hwdb_tool.specs.Internal.{bytes_given, input_stop};
ghost use Rattle.hwdb_spec_commands.specs.Queries.{IsOfWholeInput};
ghost use Rattle.hwdb_spec.specs.Texts.{max_file};
ghost use Rattle.hwdb_spec_commands.specs.declared.refusals.Refusal.TheVariants.{Plain};

use hwdb_answers::ToolError;
use hwdb_io::{Cause, MAX_BYTES, ReadError, Source, read_all};
use hwdb_system::{Refusal, System};
use std::alloc::Global;

/// How errors call standard input.
pub const INPUT: &[u8] = b"standard input";

/// Whether a word means standard input.
pub fn is_dash(path: &str) -> bool
    ensures { result ≡ is_dash path.now }
{
    path == "-"
}

/// Whether the path of a database, if one is given, does.
pub fn names_input(given: Option<&str>) -> bool
    ensures { result ≡ names_input (option_map (λ t. t.now) given.entry) }
{
    match given {
        Some(path) => is_dash(path),
        None => false,
    }
}

/// Whether one of the paths does.
pub fn any_dash(given: &[String]) -> bool
    ensures { result ≡ any_dash (map string_bytes given.now) }
{
    for path in given {
        if is_dash(path.as_str()) {
            return true;
        }
    }
    false
}

/// The error if standard input can't be read.
fn refusal_of(alloc: Global, error: ReadError, cause: Option<Cause>) -> Refusal
    ensures is { IsOfWholeInput (refusal_of_read error) result }
    ensures stops { IsStop (input_stop error cause) result }
{
    match error {
        ReadError::Failed => read_refusal(alloc, cause),
        ReadError::TooLong => { Refusal::of_cause(alloc, ToolError::TooLong, INPUT, None) }
        ReadError::Memory => Refusal::from(ToolError::Memory),
    }
}

/// The same of a call of it that failed.
fn read_refusal(alloc: Global, cause: Option<Cause>) -> Refusal
    ensures is { IsAt ToolError.Read (codes "standard input") result }
    ensures stops { IsStop (unread_stop (codes "standard input") (Failed cause)) result }
{
    match cause {
        Some(cause) => refused_for(alloc, cause),
        None => Refusal::of_cause(alloc, ToolError::Read, INPUT, None),
    }
}

/// The same for this cause: memory that was refused is told as that.
fn refused_for(alloc: Global, cause: Cause) -> Refusal
    ensures is { IsAt ToolError.Read (codes "standard input") result }
    ensures stops { IsStop (unread_stop (codes "standard input") (Failed (Some cause)))
        result }
{
    match cause {
        Cause::Memory => Refusal::from(ToolError::Memory),
        cause => Refusal::of_cause(alloc, ToolError::Read, INPUT, Some(cause)),
    }
}

/// All that standard input has left.
pub fn read_input<I: Source>(alloc: Global, input: &mut I) -> Result<Vec<u8>, Refusal>
    ensures told { (answer : Result (List ℕ) Unread) × IsInputTold
        (I.left input.old) (I.failures input.old) (I.failures input.new) answer
        × IsReadTo (λ v. v.items) answer (codes "standard input") result }
    ensures within { IfOk result (λ text. length text.items ≤ max_file) }
{
    match read_all(alloc, input, MAX_BYTES) {
        Ok(text) => Ok(text),
        Err(error) => Err(refusal_of(alloc, error, input.cause())),
    }
}

/// All that a path has.
pub fn read<D: System, I: Source>(
    alloc: Global,
    path: &str,
    system: &D,
    input: &mut I,
) -> Result<Vec<u8>, Refusal>
    ensures told { D.Store.tells → OverGiven (is_dash path.now) path.now
        (I.left input.old) (I.failures input.old) (I.failures input.new)
        (D.System.reads system.now)
        (λ at reads. IsReadTo (λ v. v.items) (reads.input at) at result) }
    ensures within { IfOk result (λ bytes. length bytes.items ≤ max_file) }
    ensures untouched { is_dash path.now ≡ false → input.new ≡ input.old }
{
    if is_dash(path) {
        read_input(alloc, input)
    } else {
        system.input(alloc, path)
    }
}

/// What standard input has left, if one of the paths means it; else nothing of it is read.
pub fn input_text<I: Source>(
    alloc: Global,
    given: &[String],
    input: &mut I,
) -> Result<Vec<u8>, Refusal>
    ensures told { OfInput (I.left input.old) (I.failures input.old) (I.failures input.new)
        (λ told. IsInputText (λ v. v.items) (any_dash (map string_bytes given.now)) told result) }
    ensures whole { IfOk result (λ text. any_dash (map string_bytes given.now) ≡ true
        → IfSome (I.left input.old) (λ told. text.items ≡ told)) }
    ensures within { IfOk result (λ text. length text.items ≤ max_file) }
    ensures untouched { any_dash (map string_bytes given.now) ≡ false → input.new ≡ input.old }
{
    if any_dash(given) {
        read_input(alloc, input)
    } else {
        Ok(Vec::new(alloc))
    }
}

/// What a file has. One that a word names is read, whatever it is; one that a folder lists, if it is a regular file.
fn file_bytes<D: System>(
    alloc: Global,
    path: &str,
    is_named: bool,
    system: &D,
) -> Result<Vec<u8>, Refusal>
    ensures told { D.Store.tells → IsReadTo (λ v. v.items)
        (file_told (D.System.reads system.now) is_named path.now) path.now result }
    ensures within { IfOk result (λ bytes. length bytes.items ≤ max_file) }
    ensures unread { D.Store.tells → IfErr result
        (IsUnreadAt (D.Store.seen system.now) path.now) }
{
    if is_named {
        system.input(alloc, path)
    } else {
        system.text(alloc, path)
    }
}

/// What a path has, if standard input had this text. A word may name it, or a folder lists it.
pub fn bytes_given<D: System>(
    alloc: Global,
    path: &str,
    is_named: bool,
    text: &[u8],
    system: &D,
) -> Result<Vec<u8>, Refusal>
    ensures told { D.Store.tells → is_dash path.now ≡ false → IsReadTo (λ v. v.items)
        (file_told (D.System.reads system.now) is_named path.now) path.now result }
    ensures text { is_dash path.now ≡ true → MatchResult result (λ v. v.items ≡ text.now)
        (λ r. r ≡ Plain ToolError.Memory) }
    ensures read { D.Store.tells → IfOk result (λ bytes.
        bytes_given text.now (D.Store.seen system.now) path.now ≡ Some bytes.items) }
    ensures within { (is_dash path.now ≡ false) ⊎ (length text.now ≤ max_file)
        → IfOk result (λ bytes. length bytes.items ≤ max_file) }
{
    if is_dash(path) {
        Ok(text.to_vec(alloc)?)
    } else {
        file_bytes(alloc, path, is_named, system)
    }
}
