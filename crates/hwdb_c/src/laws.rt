//! Laws of files of which some blocks were read: what the C library does when it reads one, over what contracts say of it.
ghost use Rattle.hwdb_c.specs.Laws.{AllReadIsOne, EachMayBe, PassesBegin, ReadsKeep};

/// Before anything is read each file may be the one. A block that is read excludes none that has it, and all blocks leave
/// one file.
#[tactic(auto, using(crate::proofs::ReadLemmas::each_may_be, crate::proofs::ReadLemmas::reads_keep, crate::proofs::ReadLemmas::all_read_is_one))]
pub fn reads_are_of_the_file()
    ensures first { EachMayBe }
    ensures each { ReadsKeep }
    ensures all { AllReadIsOne }
{}

/// Before any node of a file was fed none is done, and the nodes section begins there.
#[tactic(auto, unfolding(hwdb_reader::specs::Passes::Views::Stand, hwdb_reader::specs::Passes::Views::pending))]
pub fn passes_begin()
    ensures { PassesBegin }
{}
