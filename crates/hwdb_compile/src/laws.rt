//! Laws over the definitions alone. Each function does nothing: its contract is the law.
ghost use Rattle.hwdb_compile.specs.Laws.{EachPlaceSurvives, LastIsLatest, SurvivorsAreAssigned, SurvivorsAreLatest};

use hwdb_text::laws::{assignments_stand_by_line, one_value_a_line, priorities_count_up};

/// Of the assignments of all files with one pattern and key, one is compiled. None of them comes after it, by the
/// priority of its file, and then by its line.
pub fn survivors_are_latest()
    ensures assigned { SurvivorsAreAssigned }
    ensures each { EachPlaceSurvives }
    ensures latest { SurvivorsAreLatest }
{
    priorities_count_up();
    assignments_stand_by_line();
}

/// The list of all assignments goes file by file and line by line. In it the last one with a pattern and key is also
/// the latest with these, by the priority of its file and its line.
pub fn last_is_latest()
    ensures { LastIsLatest }
{
    priorities_count_up();
    assignments_stand_by_line();
    one_value_a_line();
}
