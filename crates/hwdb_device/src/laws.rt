//! Laws over the definitions alone. Each function does nothing: its contract is the law.
ghost use Rattle.std.specs.List.{AllByRecursion};
ghost use Rattle.std.specs.Prelude.{◌≡◌, List, ℕ, true};
ghost use Rattle.hwdb_spec.specs.Answers.{is_match};
ghost use Rattle.hwdb_spec_commands.specs.DeviceRecords.{lasting, numbered, pattern_for};
ghost use Rattle.hwdb_device.specs.Laws.{SameAnswersSameText, TextIsOfFiles};
ghost use Rattle.hwdb_device.specs.RecordLaws.{IsOfModel, IsOfNumbers, OutlivesBios, OutlivesPort, of_machines};
ghost use Rattle.hwdb_device.specs.RecordRows.{KeysRow, MachineRows, MouseRow, NumberRows, OtherRows, PatternRow};
ghost use Rattle.hwdb_device.specs.Rows.{ClosestRow, JsonRow, LeftOutRows, ListRow, NearestRow, NoRow, StringsRow, TextRow};
ghost use Rattle.hwdb_device.specs.EveryRows.{AllRows, OnceRows};
ghost use Rattle.hwdb_device.specs.NearRows.{NearGivenRows};
ghost use Rattle.hwdb_device.specs.AskedRows.{ErrorRows, FormRows, LinkRows, MissingRows};

use hwdb_near::patterns_are_of_files;
use hwdb_query::compiled_answers_are_last;

/// What is printed depends on what each string gets, and of a database on nothing else but the patterns that are near.
pub fn same_answers_same_text()
    ensures same { SameAnswersSameText }
{}

/// Over the database of some files what is printed is said by the last assignments that the files have.
pub fn text_is_of_files()
    ensures files { TextIsOfFiles }
{
    compiled_answers_are_last();
    patterns_are_of_files();
    same_answers_same_text();
}

/// A pattern for a text matches it. So does the pattern of a record its string, of each device and on each machine.
pub fn pattern_is_matched()
    ensures bytes { (text : List ℕ) → is_match text (pattern_for text) ≡ true }
    ensures lasting { (machine text : List ℕ) → is_match text (lasting machine text) ≡ true }
{}

/// The pattern of a record matches the string of the same device in another port and of another release, and with another BIOS.
pub fn pattern_outlives()
    ensures port { AllByRecursion OutlivesPort numbered }
    ensures bios { AllByRecursion OutlivesBios of_machines }
{}

/// It matches no device with another vendor or product, and none on a machine of another vendor or model.
pub fn pattern_is_of_one()
    ensures numbers { AllByRecursion IsOfNumbers numbered }
    ensures model { AllByRecursion IsOfModel of_machines }
{}

/// Worked rows: patterns for strings, and the records of devices.
pub fn record_rows()
    ensures pattern { PatternRow }
    ensures numbers { NumberRows }
    ensures machine { MachineRows }
    ensures keys { KeysRow }
    ensures mouse { MouseRow }
    ensures other { OtherRows }
{}

/// Worked rows: what is printed of a keyboard.
pub fn device_rows()
    ensures text { TextRow }
    ensures strings { StringsRow }
    ensures list { ListRow }
    ensures none { NoRow }
{}

/// Worked rows: the whole text of a device with what is left out and what is near, and its lines of JSON.
pub fn text_rows()
    ensures nearest { NearestRow }
    ensures closest { ClosestRow }
    ensures left_out { LeftOutRows }
    ensures json { JsonRow }
{}

/// Worked rows: lines of the list, and what is said if no device is found or one can't be read.
pub fn asked_rows()
    ensures links { LinkRows }
    ensures missing { MissingRows }
    ensures errors { ErrorRows }
    ensures forms { FormRows }
{}

/// Worked rows: what is near to a text that means no device.
pub fn near_rows()
    ensures { NearGivenRows }
{}

/// Worked rows: the strings of all devices, and what is said of what can't be read.
pub fn every_rows()
    ensures once { OnceRows }
    ensures all { AllRows }
{}
