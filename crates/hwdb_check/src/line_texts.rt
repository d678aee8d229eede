//! The text of a line, by its number.
ghost use Rattle.std.specs.Prelude.{◌≡◌, ◌⊎◌, ◌+◌, ◌<◌, ◌≤◌, ℕ, List, length};
ghost use Rattle.hwdb_spec.specs.Lines.{lines};
ghost use Rattle.hwdb_spec_commands.specs.Reports.{text_of_line};
ghost use Rattle.hwdb_check.specs.Internal.{IsStart};

use hwdb_text::end_of;

/// The beginning of a line.
#[derive(Clone, Copy)]
pub struct LineStart {
    /// The number of the line, from 1.
    pub number: u32,
    /// How many bytes of the file come before it.
    pub at: usize,
}

/// The beginning of the first line of any file.
pub fn first_start() -> LineStart
    ensures start { (file : List ℕ) → IsStart file result }
    ensures first { result.number ≡ 1 }
{
    LineStart { number: 1, at: 0 }
}

/// The beginning of the next line.
fn next_start(bytes: &[u8], start: LineStart) -> LineStart
    requires start { IsStart bytes.now start }
    requires inside { start.at < length bytes.now }
    requires few { start.number < 4294967295 }
    ensures start { IsStart bytes.now result }
    ensures moves { start.at < result.at }
    ensures next { result.number ≡ start.number + 1 }
{
    let rest = &bytes[start.at..];
    let end = end_of(b'\n', rest);
    LineStart {
        number: start.number + 1,
        at: start.at + end + 1,
    }
}

/// The beginning of the line with a number, or the end of the file, from an earlier line on.
fn seek(bytes: &[u8], from: LineStart, number: u32) -> LineStart
    requires start { IsStart bytes.now from }
    requires before { from.number ≤ number }
    ensures start { IsStart bytes.now result }
    ensures before { result.number ≤ number }
    ensures found { (result.number ≡ number) ⊎ (length bytes.now ≤ result.at) }
{
    let mut start = from;
    while start.number < number && start.at < bytes.len() {
        start = next_start(bytes, start);
    }
    start
}

/// The text of the line that begins at a place; nothing at the end of the file.
fn text_at(bytes: &[u8], start: LineStart) -> &[u8]
    requires { IsStart bytes.now start }
    ensures { (number : ℕ) → start.number ≤ number
        → (start.number ≡ number) ⊎ (length bytes.now ≤ start.at)
        → result.now ≡ text_of_line (lines bytes.now) number }
{
    if start.at >= bytes.len() {
        return &[];
    }
    let rest = &bytes[start.at..];
    &rest[..end_of(b'\n', rest)]
}

/// The text of the line with a number, or nothing, and the beginning of that line, or the end of the file. It reads on
/// from `from`, which is the beginning of some line. If that line comes after the wanted one, it reads from the first
/// line on. So lines in order take one pass in all.
pub fn find_line(bytes: &[u8], from: LineStart, number: u32) -> (LineStart, &[u8])
    requires { IsStart bytes.now from }
    ensures start { IsStart bytes.now result.0 }
    ensures text { result.1.now ≡ text_of_line (lines bytes.now) number }
{
    if number == 0 {
        return (from, &[]);
    }
    let from = if number < from.number {
        first_start()
    } else {
        from
    };
    let start = seek(bytes, from, number);
    (start, text_at(bytes, start))
}
