//! A file system that reads the text files of one of its folders as those of a root.
ghost use Rattle.std.specs.Prelude.{◌≡◌, All, length, map, string_bytes, IfErr, IfOk};
ghost use Rattle.hwdb_spec_commands.specs.Reading.{AreUnread};
ghost use Rattle.hwdb_spec_commands.specs.Refusals.{HasReason};
ghost use Rattle.hwdb_spec.specs.Selected.{AreSelected};
ghost use Rattle.hwdb_plan.specs.Folders.{texts_of_folders};
ghost use Rattle.hwdb_plan.specs.Plans.{ReachesValue};
ghost use Rattle.hwdb_system.specs.Selections.{texts_in};
ghost use Rattle.hwdb_text.specs.Views.{IsStorableChoice, choice_of};

use crate::folders::Selection;
use crate::text_folders::TextFolders;
use hwdb_spec_commands::Refusal;
use std::alloc::Global;

/// A [`TextFolders`] that may read the text files below any folder of it, while its own root stays.
pub trait TextsBelow: TextFolders {
    /// The text files of both folders below a root, chosen and read as [`selected`](crate::selected) does. Each path leads on inside
    /// the root, as if it was `/`, whatever links are on the way.
    fn selected_below(&self, alloc: Global, root: &str) -> Result<Selection, Refusal>
        ensures told { Self.tells → ReachesValue texts_in (Self.System.reads self.now)
            (texts_of_folders root.now) result }
        ensures count { IfOk result (λ s. length s.texts.items ≡ length s.chosen.items) }
        ensures storable { IfOk result
            (λ s. All IsStorableChoice (map choice_of s.chosen.items)) }
        ensures selected { Self.tells → IfOk result
            (λ s. AreSelected root.now (Self.seen self.now) (map string_bytes s.listed.items)
            (map choice_of s.chosen.items) (map (λ t. t.items) s.texts.items)) }
        ensures refused { Self.tells → IfErr result (AreUnread root.now (Self.seen self.now)) }
        ensures reason { Self.tells → IfErr result
            (HasReason (Self.may_fail self.now) ⊥ (Self.seen self.now)) };
}
