//! A file system that tells what else is in its folders of text files, and what is in its folders of rules files.
ghost use Rattle.std.specs.Prelude.{◌≡◌, map, IfErr, IfOk};
ghost use Rattle.hwdb_spec_commands.specs.Ignored.{AreIgnoredIn, text_folder};
ghost use Rattle.hwdb_spec_commands.specs.Refusals.{HasReason, IsUnlisted};
ghost use Rattle.hwdb_spec_commands.specs.RulePaths.{rules_folder};
ghost use Rattle.hwdb_spec_commands.specs.Told.{IsReadTo};

use crate::system::System;
use hwdb_rulefiles::Folder;
use hwdb_spec_commands::Refusal;
use std::alloc::Global;

/// A [`System`] that tells which files of its two folders of text files are none, and what is in its four folders of rules files.
pub trait TextFolders: System {
    /// The names of the ignored files in the folder of /usr/lib or of /etc, in no order; none if the folder isn't there. A
    /// folder that can't be listed is an error.
    fn ignored_names(&self, alloc: Global, root: &str, usr: bool) -> Result<Vec<Vec<u8>>, Refusal>
        ensures told { Self.tells → IsReadTo (λ names. map (λ n. n.items) names.items)
            ((Self.System.reads self.now).ignored (text_folder usr root.now))
            (text_folder usr root.now) result }
        ensures names { Self.tells → IfOk result
            (λ names. AreIgnoredIn (text_folder usr root.now) (Self.seen self.now)
            (map (λ n. n.items) names.items)) }
        ensures refused { IfErr result (IsUnlisted (text_folder usr root.now)) }
        ensures reason { IfErr result
            (HasReason (Self.may_fail self.now) ⊥ (Self.seen self.now)) };

    /// The names in a folder of rules files that count in no folder of text files, and aren't hidden: so those of rules files are
    /// among them. They are in no order; there are none if the folder isn't there. One that can't be listed is an error.
    fn names_beside_rules(
        &self,
        alloc: Global,
        root: &str,
        folder: Folder,
    ) -> Result<Vec<Vec<u8>>, Refusal>
        ensures told { Self.tells → IsReadTo (λ names. map (λ n. n.items) names.items)
            ((Self.System.reads self.now).ignored (rules_folder root.now folder))
            (rules_folder root.now folder) result }
        ensures names { Self.tells → IfOk result
            (λ names. AreIgnoredIn (rules_folder root.now folder) (Self.seen self.now)
            (map (λ n. n.items) names.items)) }
        ensures refused { IfErr result (IsUnlisted (rules_folder root.now folder)) }
        ensures reason { IfErr result
            (HasReason (Self.may_fail self.now) ⊥ (Self.seen self.now)) };
}
