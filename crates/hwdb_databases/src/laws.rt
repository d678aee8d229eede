//! Laws of databases. Each function holds no code: its contract is a law of definitions.
ghost use Rattle.hwdb_databases.specs.Laws.{MembersAreTheMap, DumpSays, DumpTells, GiftsAreEffective, SamplesAreComplete, SamplesShowChanges};
ghost use Rattle.hwdb_databases.specs.Rows.{DeviceStatRows, EtcRows, NameRows, StatJsonRows, StatRows, TextRows};

use hwdb_query::explained_are_effective;
use hwdb_samples::{law_found, law_nothing_found, law_rules_give};

/// All that a tree assigns, in the order of its nodes and values, is the tree's map, by pattern and key.
pub fn members_are_the_map()
    ensures { MembersAreTheMap }
{}

/// The text of a dump, read as a file, says what the database assigns, each assignment once and in the dump's order.
pub fn dump_says()
    ensures { DumpSays }
{}

/// `ask` over the text of a dump tells each device what `query` tells it over the database.
pub fn dump_tells()
    ensures { DumpTells }
{}

/// What a database gives a device, as `diff` of devices compares it, is by key what `query` tells the device.
pub fn gifts_are_effective()
    ensures { GiftsAreEffective }
{
    explained_are_effective();
}

/// Each device of the samples gets something else from the new database. If no change is told of them and no pattern is undecided, the
/// new database gives each device what the old one does.
pub fn samples_are_complete()
    ensures shown { SamplesShowChanges }
    ensures complete { SamplesAreComplete }
{
    law_found();
    law_nothing_found();
    law_rules_give();
    gifts_are_effective();
}

/// Worked rows: what the definitions give when they are computed.
pub fn worked_rows()
    ensures names { NameRows }
    ensures texts { TextRows }
    ensures etc { EtcRows }
    ensures counts { StatRows }
    ensures of_devices { DeviceStatRows }
    ensures as_json { StatJsonRows }
{}
