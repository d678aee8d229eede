//! The devices of a source, each answered as it comes.
ghost use Rattle.std.specs.Prelude.{◌≡◌, ◌⊎◌, Err, List, None, IfErr, IfSome, OnOk, IsErrOf, true};
ghost use Rattle.std.specs.Io.KnownBytes.{Appends};
ghost use Rattle.hwdb_spec.specs.Flushing.{HandsOn};
ghost use Rattle.hwdb_spec.specs.Folders.{Source};
ghost use Rattle.hwdb_spec.specs.Tree.{Tree};
ghost use Rattle.hwdb_spec.specs.Format.{IsDatabase};
ghost use Rattle.hwdb_spec.specs.declared.DbFault.{DbFault};
ghost use Rattle.hwdb_spec_commands.specs.ManyDevices.{HasLongLine};
ghost use Rattle.hwdb_spec.specs.Texts.{devices_of, max_file};
ghost use Rattle.hwdb_spec.specs.Written.{IsCompiled};
ghost use Rattle.hwdb_spec.specs.Outputs.{FailedOnly, Wrote};
ghost use Rattle.hwdb_spec_commands.specs.Databases.{IsTextOf};
ghost use Rattle.hwdb_spec_commands.specs.AnsweredLines.{IsLineError, IsPrintedBefore, line_error};
ghost use Rattle.hwdb_answers.specs.Internal.{IsHeard};
ghost use Rattle.hwdb_spec_commands.specs.Streams.{IsAnswerRefusal, IsStreamRefusal, IfBadDatabase, texts_of, last_texts_of};

use crate::chunk::LineReader;
use crate::device_texts::text_of_device;
use crate::renewal::{Kept, Nowhere, Renewal};
use hwdb_io::{MAX_BYTES, Sink, Source, write_text};
use hwdb_query::compiled_answers_are_last;
use hwdb_reader::{check, reopen};
use hwdb_spec::ToolError;
use hwdb_spec_commands::Form;
use std::alloc::Global;

/// Says a line on standard error. Whether it took the line.
fn say<E: Sink>(err: &mut E, line: &[u8]) -> bool
    ensures heard { (first : E) → IsHeard true (E.is_flushed first) (E.is_flushed err.old)
        (E.failures first) (E.failures err.old)
        → IsHeard result (E.is_flushed first) (E.is_flushed err.new)
        (E.failures first) (E.failures err.new) }
{
    match write_text(err, line) {
        Ok(()) => true,
        Err(_) => false,
    }
}

/// Takes what came in the database's place, and says what there is to say of it. After a line that standard error didn't take
/// nothing more is said: `is_heard` tells whether it took all of them so far.
fn renew<R: Renewal, E: Sink>(database: &mut R, err: &mut E, is_heard: bool) -> bool
    ensures database { (t : Tree) → IsDatabase (R.held database.old) t
        → (u : Tree) × IsDatabase (R.held database.new) u }
    ensures same { R.stays database.old → R.held database.new ≡ R.held database.old }
    ensures stays { R.stays database.old → R.stays database.new }
    ensures quiet { R.stays database.old → err.new ≡ err.old }
    ensures heard { (first : E) → IsHeard is_heard (E.is_flushed first) (E.is_flushed err.old)
        (E.failures first) (E.failures err.old)
        → IsHeard result (E.is_flushed first) (E.is_flushed err.new)
        (E.failures first) (E.failures err.new) }
{
    let Some(line) = database.renew() else {
        return is_heard;
    };
    if is_heard {
        return say(err, &line);
    }
    false
}

/// Answers each device that the input names, from the bytes that are there when its line was read. One line and one text are
/// held at a time.
fn answer_lines<R: Renewal, I: Source, O: Sink, E: Sink>(
    alloc: Global,
    database: &mut R,
    form: Form,
    input: &mut I,
    out: &mut O,
    err: &mut E,
) -> Result<(), ToolError>
    requires database { (t : Tree) × IsDatabase (R.held database.old) t }
    ensures printed { R.stays database.old → OnOk result (IfSome (I.left input.old) (λ text.
        Wrote (IsTextOf (texts_of form (devices_of text)) (R.held database.old))
        (O.taken out.old) (O.taken out.new))) }
    ensures all { OnOk result
        (IfSome (I.left input.old) (λ text. line_error (devices_of text) ≡ None)) }
    ensures refusals { IfErr result IsAnswerRefusal }
    ensures too_long { IsErrOf result ToolError.TooLong
        → IfSome (I.left input.old) (HasLongLine max_file) }
    ensures line { IfErr result (λ e. IfSome (I.left input.old)
        (λ text. IsLineError e (line_error (devices_of text)))) }
    ensures reads { FailedOnly ToolError.Read result (I.failures input.old) (I.failures input.new) }
    ensures writes { FailedOnly ToolError.Write result (O.failures out.old) (O.failures out.new) }
    ensures before { R.stays database.old
        → IfErr result (λ e. IfSome (I.left input.old) (λ text. IsPrintedBefore e
        (λ lines. IsTextOf (texts_of form lines) (R.held database.old)) (devices_of text)
        (O.taken out.old) (O.taken out.new))) }
    ensures hands_on { HandsOn (O.is_flushed out.old) (O.is_flushed out.new)
        (O.failures out.old) (O.failures out.new) }
    ensures quiet { R.stays database.old → err.new ≡ err.old }
    ensures err_hands_on { HandsOn (E.is_flushed err.old) (E.is_flushed err.new)
        (E.failures err.old) (E.failures err.new) }
{
    let mut lines = LineReader::new();
    let mut is_first = true;
    let mut is_heard = true;
    'answering: for _ in 0..u64::MAX {
        let Some(device) = lines.next_line(alloc, input, MAX_BYTES)? else {
            return Ok(());
        };
        is_heard = renew(database, err, is_heard);
        let db = reopen(database.bytes());
        let text = text_of_device(alloc, &db, &device, form, is_first)?;
        write_text(out, &text)?;
        is_first = false;
    }
    Err(ToolError::TooManyLines)
}

/// The same as [`run_stream`], of a database that may be replaced between two answers: each is of the bytes that are there
/// when its line was read. They are checked once here, and whoever renews them checks those that come.
pub fn run_renewed<R: Renewal, I: Source, O: Sink, E: Sink>(
    alloc: Global,
    database: &mut R,
    form: Form,
    input: &mut I,
    out: &mut O,
    err: &mut E,
) -> Result<(), ToolError>
    ensures printed { R.stays database.old → OnOk result (IfSome (I.left input.old) (λ text.
        Wrote (IsTextOf (texts_of form (devices_of text)) (R.held database.old))
        (O.taken out.old) (O.taken out.new))) }
    ensures all { OnOk result
        (IfSome (I.left input.old) (λ text. line_error (devices_of text) ≡ None)) }
    ensures refusals { IfErr result (IsStreamRefusal (R.held database.old)) }
    ensures too_long { IsErrOf result ToolError.TooLong
        → IfSome (I.left input.old) (HasLongLine max_file) }
    ensures line { IfErr result (λ e. IfSome (I.left input.old)
        (λ text. IsLineError e (line_error (devices_of text)))) }
    ensures reads { FailedOnly ToolError.Read result (I.failures input.old) (I.failures input.new) }
    ensures writes { FailedOnly ToolError.Write result (O.failures out.old) (O.failures out.new) }
    ensures before { R.stays database.old
        → IfErr result (λ e. IfSome (I.left input.old) (λ text. IsPrintedBefore e
        (λ lines. IsTextOf (texts_of form lines) (R.held database.old)) (devices_of text)
        (O.taken out.old) (O.taken out.new))) }
    ensures untouched { IfErr result (IfBadDatabase
        ((input.new ≡ input.old) × (out.new ≡ out.old))) }
    ensures checked { ((fault : DbFault) × (result ≡ Err (ToolError.BadDatabase fault)))
        ⊎ ((t : Tree) × IsDatabase (R.held database.old) t) }
    ensures hands_on { HandsOn (O.is_flushed out.old) (O.is_flushed out.new)
        (O.failures out.old) (O.failures out.new) }
    ensures quiet { R.stays database.old → err.new ≡ err.old }
    ensures err_hands_on { HandsOn (E.is_flushed err.old) (E.is_flushed err.new)
        (E.failures err.old) (E.failures err.new) }
{
    check(database.bytes())?;
    answer_lines(alloc, database, form, input, out, err)
}

/// Checks the bytes, and then reads devices from `input`, one a line. Each is printed to `out` as soon as its line is read:
/// what [`answers`](crate::answers) answers of these devices. Memory doesn't grow with their number.
///
/// Bytes that are no database are an error before anything is read. Then these are: a failed read, a failed write, a line of
/// more bytes than `MAX_BYTES`, more lines than can be counted, and memory. Before a line that is too long all lines were
/// answered, each whole. After a failed read, and without memory, some were; after a failed write a prefix was printed.
pub fn run_stream<I: Source, O: Sink>(
    alloc: Global,
    bytes: &[u8],
    form: Form,
    input: &mut I,
    out: &mut O,
) -> Result<(), ToolError>
    ensures printed { OnOk result (IfSome (I.left input.old) (λ text.
        Wrote (IsTextOf (texts_of form (devices_of text)) bytes.now)
        (O.taken out.old) (O.taken out.new))) }
    ensures headline { OnOk result (IfSome (I.left input.old) (λ text.
        (etc usr : List Source) → IsCompiled etc usr bytes.now
        → Appends (O.taken out.old) (O.taken out.new)
        (last_texts_of form (devices_of text) etc usr))) }
    ensures all { OnOk result
        (IfSome (I.left input.old) (λ text. line_error (devices_of text) ≡ None)) }

    ensures refusals { IfErr result (IsStreamRefusal bytes.now) }
    ensures too_long { IsErrOf result ToolError.TooLong
        → IfSome (I.left input.old) (HasLongLine max_file) }
    ensures line { IfErr result (λ e. IfSome (I.left input.old)
        (λ text. IsLineError e (line_error (devices_of text)))) }
    ensures reads { FailedOnly ToolError.Read result (I.failures input.old) (I.failures input.new) }
    ensures writes { FailedOnly ToolError.Write result (O.failures out.old) (O.failures out.new) }
    ensures before { IfErr result (λ e. IfSome (I.left input.old) (λ text. IsPrintedBefore e
        (λ lines. IsTextOf (texts_of form lines) bytes.now) (devices_of text)
        (O.taken out.old) (O.taken out.new))) }
    ensures untouched { IfErr result (IfBadDatabase
        ((input.new ≡ input.old) × (out.new ≡ out.old))) }
    ensures hands_on { HandsOn (O.is_flushed out.old) (O.is_flushed out.new)
        (O.failures out.old) (O.failures out.new) }
{
    compiled_answers_are_last();
    run_renewed(alloc, &mut Kept { bytes }, form, input, out, &mut Nowhere)
}
