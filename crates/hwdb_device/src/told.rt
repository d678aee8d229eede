//! What a string gets.
ghost use Rattle.std.specs.Prelude.{◌≡◌, option_map};
ghost use Rattle.hwdb_spec.specs.Folders;
ghost use Rattle.hwdb_spec_commands.specs.Lookups;
ghost use Rattle.hwdb_query.specs.Views.{explained_values};

use hwdb_query::Explained;
use hwdb_ruleasks::first_value;

/// Whether two texts are the same.
pub(crate) fn same(text: &[u8], other: &[u8]) -> bool
    ensures { result ≡ Folders.same text.now other.now }
{
    text.cmp(other).is_eq()
}

/// What a string gives a key.
#[tactic(auto, unfolding(hwdb_spec_commands::specs::Lookups::told_value))]
pub(crate) fn told_value<'t>(told: &'t [Explained<'_>], key: &[u8]) -> Option<&'t [u8]>
    ensures { option_map (λ v. v.now) result
        ≡ Lookups.told_value key.now (explained_values told.now) }
{
    let Some((first, more)) = told.split_first() else {
        return None;
    };
    if same(first.key, key) {
        return Some(first_value(&first.answers));
    }
    told_value(more, key)
}
