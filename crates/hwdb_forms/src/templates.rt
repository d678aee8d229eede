//! Ways of digits and of bytes that are told, as templates. A template has a byte for each byte of a text, so that pieces take no
//! time. The forms of large files have such ways.
ghost use Rattle.std.specs.Prelude.{◌≡◌, ◌≤◌, IfSome, false, length, map, true};
ghost use Rattle.hwdb_spec.specs.Patterns.{tokens};
ghost use Rattle.hwdb_spec.specs.Forms.{is_in};
ghost use Rattle.hwdb_spec.specs.Forms;
ghost use Rattle.hwdb_spec.specs.declared.ByteSet.TheVariants.{UpperHex};
ghost use Rattle.hwdb_forms.specs.Internal.{AreFirstWays, IsCut, IsThroughWay, LedTo, fields_of, form_of, set_of, units};

use crate::pieces::{FormRow, Piece};
use crate::plain::{begins_plainly, ends, is_lone_star, is_wild};
use crate::sets::has;
use hwdb_spec::ByteSet;

/// A form, and a template for the first way of each of its fields.
#[derive(Clone, Copy)]
pub(crate) struct Template {
    pub(crate) form: FormRow,
    /// An X is for a digit from 0 to F, and a Y for one with small letters, too. Other bytes are for themselves.
    pub(crate) ways: &'static [&'static [u8]],
}

/// Whether the byte is a digit from 0 to F. Most are below A.
#[tactic(auto, using(crate::proofs::TemplateLemmas::low_digit, crate::proofs::TemplateLemmas::high_digit))]
#[inline(always)]
fn is_digit(byte: u8) -> bool
    ensures { result ≡ true → is_in UpperHex byte ≡ true }
{
    if byte <= b'9' {
        return byte >= b'0';
    }
    if byte < b'A' {
        return false;
    }
    byte <= b'F'
}

/// Whether the byte means itself, and a template's byte is for it.
#[inline(always)]
fn is_for(own: u8, byte: u8) -> bool
    ensures own { result ≡ true → is_in (set_of own) byte ≡ true }
    ensures plain { result ≡ true → Forms.is_wild byte ≡ false }
{
    if own == b'X' {
        return is_digit(byte);
    }
    if own == b'Y' {
        return has(ByteSet::AnyHex, byte);
    }
    if is_wild(byte) {
        return false;
    }
    has(ByteSet::Only(own), byte)
}

/// How many of the text's first bytes are as the template has them.
#[inline(always)]
fn template_count(template: &[u8], text: &[u8]) -> usize
    ensures most { result ≤ length template.now }
    ensures within { result ≤ length text.now }
    ensures cut { IsCut text.now result }
    ensures led { LedTo (units template.now) (tokens text.now) result result }
{
    let most = template.len().min(text.len());
    let mut at = 0;
    while at < most {
        if !is_for(template[at], text[at]) {
            return at;
        }
        at += 1;
    }
    at
}

/// How many of the text's first bytes go through the template. A star at the end of the text goes through all that is left.
fn through_template(template: &[u8], text: &[u8]) -> Option<usize>
    ensures { IfSome result (IsThroughWay (units template.now) text.now) }
{
    let taken = template_count(template, text);
    if taken == template.len() {
        return Some(taken);
    }
    if is_lone_star(&text[taken..]) {
        return Some(taken);
    }
    None
}

/// Whether it is seen by templates that the text matches some text of the fields.
fn meets_ways(fields: &[&[&[Piece]]], ways: &[&'static [u8]], text: &[u8]) -> bool
    requires { AreFirstWays (fields_of fields.now) (map (λ way. way.now) ways.now) }
    ensures { result ≡ true
        → Forms.head (Forms.fields_row (fields_of fields.now) (tokens text.now)) ≡ true }
{
    let mut done = 0;
    let mut at = 0;
    while done < ways.len() {
        match through_template(ways[done], &text[at..]) {
            Some(taken) => {
                at += taken;
                done += 1;
            }
            None => return false,
        }
    }
    ends(&text[at..])
}

/// Whether it is seen by the template that the pattern matches a text of its form.
pub(crate) fn meets_template(template: Template, pattern: &[u8]) -> bool
    requires { AreFirstWays (fields_of template.form.fields.now)
        (map (λ way. way.now) template.ways.now) }
    ensures { result ≡ true
        → Forms.meets_form (tokens pattern.now) (form_of template.form) ≡ true }
{
    let form = template.form;
    if !begins_plainly(form.prefix, pattern) {
        return false;
    }
    meets_ways(form.fields, template.ways, &pattern[form.prefix.len()..])
}
