//! What the program's calls say together.
ghost use Rattle.hwdb_tool.specs.Laws.{ListingsGiveOneChoice, ListingsGiveOneReading, UpdateThenQuery};

use hwdb_query::{compiled_answers_are_last, last_assignments_are_last};
use hwdb_text::laws::{names_are_those_that_count, names_ascend, one_ascending_list};

/// A query after an update prints for each key the value of the last assignment that the folders' files have, in the
/// words of `AreLast`. A law: it has no body, and takes no time.
pub fn update_then_query()
    ensures { UpdateThenQuery }
{
    compiled_answers_are_last();
    last_assignments_are_last();
}

/// Two listings of the text files of both folders give one choice of files and one reading of each, whatever order each has
/// them in. So they give one list of assignments and one of faults.
pub fn listings_give_one_reading()
    ensures choice { ListingsGiveOneChoice }
    ensures reading { ListingsGiveOneReading }
{
    names_are_those_that_count();
    names_ascend();
    one_ascending_list();
}
