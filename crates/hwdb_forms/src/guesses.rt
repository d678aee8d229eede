//! The form that a pattern likely has, by its first byte. Most patterns of large files have one of these few.
ghost use Rattle.std.specs.Prelude.{◌≡◌, IfSome, map, true};
ghost use Rattle.hwdb_spec_commands.specs.FormTable.{asked};
ghost use Rattle.hwdb_spec_commands.specs.LikelyForms.{likely};
ghost use Rattle.hwdb_spec.specs.Patterns.{tokens};
ghost use Rattle.hwdb_spec.specs.Forms;
ghost use Rattle.hwdb_forms.specs.Internal.{AreFirstWays, IsAsked, IsLikely, fields_of, form_of, forms_of};

use crate::likely::likely_known;
use crate::pieces::{FormRow, Table};
use crate::plain::meets_plainly;
use crate::table::{bluetooth, known, oui, pci, usb};
use crate::templates::{Template, meets_template};

/// The form that a pattern likely has which begins with this byte, and its template.
fn guess(first: u8) -> Option<Template>
    ensures asked { IfSome result (λ t. IsAsked (form_of t.form)) }
    ensures likely { IfSome result (λ t. IsLikely (form_of t.form)) }
    ensures ways { IfSome result (λ t. AreFirstWays (fields_of t.form.fields.now)
        (map (λ way. way.now) t.ways.now)) }
{
    match first {
        b'O' => Some(Template {
            form: oui(),
            ways: &[b"XXXXXXXXXXXX"],
        }),
        b'p' => Some(Template {
            form: pci(),
            ways: &[b"vXXXXXXXXdXXXXXXXXsvXXXXXXXXsdXXXXXXXXbcXXscXXiYY"],
        }),
        b'u' => Some(Template {
            form: usb(),
            ways: &[b"vXXXXpXXXX", b"dXXXXdcXXdscXXdpXXicXXiscXXipXXinXX"],
        }),
        b'b' => Some(Template {
            form: bluetooth(),
            ways: &[b"vXXXXpXXXX", b"dXXXX"],
        }),
        _ => None,
    }
}

/// Whether it is seen byte by byte that the pattern matches a text of one of the forms.
fn meets_one(forms: &[FormRow], pattern: &[u8]) -> bool
    ensures { result ≡ true
        → Forms.can_match (map form_of forms.now) (tokens pattern.now) ≡ true }
{
    for form in forms {
        if meets_plainly(*form, pattern) {
            return true;
        }
    }
    false
}

/// Whether it is seen byte by byte that the pattern matches a text of a form that says more.
fn meets_known(pattern: &[u8]) -> bool
    ensures { result ≡ true → Forms.can_match asked (tokens pattern.now) ≡ true }
{
    meets_one(&known(), pattern)
}

/// The same of a form that says more, and that is likely.
fn meets_likely(pattern: &[u8]) -> bool
    ensures { result ≡ true → Forms.can_match likely (tokens pattern.now) ≡ true }
{
    meets_one(&likely_known(), pattern)
}

/// Whether it is seen by a template that the pattern matches a text that is asked, and a likely one.
fn meets_guess(pattern: &[u8]) -> bool
    ensures asked { result ≡ true → Forms.can_match asked (tokens pattern.now) ≡ true }
    ensures likely { result ≡ true → Forms.can_match likely (tokens pattern.now) ≡ true }
{
    if pattern.is_empty() {
        return false;
    }
    if let Some(template) = guess(pattern[0]) {
        return meets_template(template, pattern);
    }
    false
}

/// Whether it is seen at once that the pattern matches a text of the table.
pub(crate) fn is_fine_at_once(table: Table, pattern: &[u8]) -> bool
    ensures { result ≡ true → Forms.can_match (forms_of table) (tokens pattern.now) ≡ true }
{
    match table {
        Table::Asked => meets_guess(pattern) || meets_known(pattern),
        Table::Likely => meets_guess(pattern) || meets_likely(pattern),
    }
}
