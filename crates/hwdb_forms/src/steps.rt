//! Forms as steps, which a walk goes through token by token.
//!
//! A step has a place. It names places before its own: what comes after it in a text is there. So a form's last step is put first.
ghost use Rattle.std.specs.Prelude.{◌≡◌, ◌<◌, ◌++◌, ◌∷◌, [], length, map, IfOk};
ghost use Rattle.hwdb_spec.specs.Forms;
ghost use Rattle.hwdb_spec.specs.declared.ByteSet.TheVariants.{Only};
ghost use Rattle.hwdb_forms.specs.Internal.{HasWays, HaveWays, IsLaid, IsPut, fields_of, form_of, piece_of};

use crate::pieces::{FormRow, Piece};
use hwdb_spec::ByteSet;
use std::alloc::{AllocError, Global};

/// What is at a place of a form.
#[derive(Clone, Copy)]
pub(crate) enum Step {
    /// The text's end.
    End,
    /// This byte, and then what is at the other place.
    Byte(u8, usize),
    /// A byte of the set, and then what is at the other place.
    One(ByteSet, usize),
    /// Any number of bytes of the set, and then what is at the other place.
    Many(ByteSet, usize),
    /// What is at the one place or at the other.
    Either(usize, usize),
}

/// A form's steps, and the place of its first one.
#[derive(Drop)]
pub(crate) struct Steps {
    pub(crate) steps: Vec<Step>,
    pub(crate) entry: usize,
}

/// Adds a step, and says its place.
fn put(steps: &mut Vec<Step>, step: Step) -> Result<usize, AllocError>
    ensures put { IfOk result (λ place. steps.new.items ≡ steps.old.items ++ step ∷ []) }
    ensures place { IfOk result (λ place. place ≡ length steps.old.items) }
{
    let place = steps.len();
    steps.push(step)?;
    Ok(place)
}

/// Adds the step of this byte, before what is at a place.
fn put_byte(steps: &mut Vec<Step>, own: u8, after: usize) -> Result<usize, AllocError>
    requires { after < length steps.old.items }
    ensures { IfOk result (λ place. IsPut steps.old.items steps.new.items after place
        (λ rows us. Forms.byte_row (Only own) us (rows us))) }
{
    let place = put(steps, Step::Byte(own, after))?;
    Ok(place)
}

/// The same of one byte of the set.
fn put_one(steps: &mut Vec<Step>, set: ByteSet, after: usize) -> Result<usize, AllocError>
    requires { after < length steps.old.items }
    ensures { IfOk result (λ place. IsPut steps.old.items steps.new.items after place
        (λ rows us. Forms.byte_row set us (rows us))) }
{
    let place = put(steps, Step::One(set, after))?;
    Ok(place)
}

/// The same of any number of bytes of the set.
fn put_many(steps: &mut Vec<Step>, set: ByteSet, after: usize) -> Result<usize, AllocError>
    requires { after < length steps.old.items }
    ensures { IfOk result (λ place. IsPut steps.old.items steps.new.items after place
        (λ rows us. Forms.many_row set us (rows us))) }
{
    let place = put(steps, Step::Many(set, after))?;
    Ok(place)
}

/// The same of these bytes.
fn put_fixed(steps: &mut Vec<Step>, bytes: &[u8], after: usize) -> Result<usize, AllocError>
    requires { after < length steps.old.items }
    ensures { IfOk result (λ place. IsPut steps.old.items steps.new.items after place
        (λ rows us. Forms.fixed_row bytes.now us (rows us))) }
{
    let mut place = after;
    let mut at = bytes.len();
    while at > 0 {
        at -= 1;
        place = put_byte(steps, bytes[at], place)?;
    }
    Ok(place)
}

/// The same of so many bytes of the set.
fn put_counted(
    steps: &mut Vec<Step>,
    set: ByteSet,
    count: usize,
    after: usize,
) -> Result<usize, AllocError>
    requires { after < length steps.old.items }
    ensures { IfOk result (λ place. IsPut steps.old.items steps.new.items after place
        (λ rows us. Forms.counted_row set count us (rows us))) }
{
    let mut place = after;
    let mut done = 0;
    while done < count {
        place = put_one(steps, set, place)?;
        done += 1;
    }
    Ok(place)
}

/// The same of a piece.
fn put_piece(steps: &mut Vec<Step>, piece: Piece, after: usize) -> Result<usize, AllocError>
    requires { after < length steps.old.items }
    ensures { IfOk result (λ place. IsPut steps.old.items steps.new.items after place
        (λ rows us. Forms.piece_row (piece_of piece) us (rows us))) }
{
    match piece {
        Piece::Fixed(bytes) => put_fixed(steps, bytes, after),
        Piece::Counted(set, count) => put_counted(steps, set, count, after),
        Piece::Repeated(set) => put_many(steps, set, after),
    }
}

/// The same of pieces in order.
fn put_pieces(steps: &mut Vec<Step>, pieces: &[Piece], after: usize) -> Result<usize, AllocError>
    requires { after < length steps.old.items }
    ensures { IfOk result (λ place. IsPut steps.old.items steps.new.items after place
        (λ rows us. Forms.pieces_row (map piece_of pieces.now) us (rows us))) }
{
    let mut place = after;
    let mut at = pieces.len();
    while at > 0 {
        at -= 1;
        place = put_piece(steps, pieces[at], place)?;
    }
    Ok(place)
}

/// The same of one of several ways.
fn put_field(steps: &mut Vec<Step>, field: &[&[Piece]], after: usize) -> Result<usize, AllocError>
    requires after { after < length steps.old.items }
    requires ways { 0 < length field.now }
    ensures { IfOk result (λ place. IsPut steps.old.items steps.new.items after place
        (λ rows us. Forms.field_row (map (λ way. map piece_of way.now) field.now)
        us (rows us))) }
{
    let mut at = field.len() - 1;
    let mut place = put_pieces(steps, field[at], after)?;
    while at > 0 {
        at -= 1;
        let way = put_pieces(steps, field[at], after)?;
        place = put(steps, Step::Either(way, place))?;
    }
    Ok(place)
}

/// The steps of fields in order, and of the text's end after them.
fn fields_steps(alloc: Global, fields: &[&[&[Piece]]]) -> Result<Steps, AllocError>
    requires { HaveWays (fields_of fields.now) }
    ensures { IfOk result (λ s. IsLaid s.steps.items s.entry
        (Forms.fields_row (fields_of fields.now))) }
{
    let mut steps = Vec::new(alloc);
    let mut place = put(&mut steps, Step::End)?;
    let mut at = fields.len();
    while at > 0 {
        at -= 1;
        place = put_field(&mut steps, fields[at], place)?;
    }
    Ok(Steps {
        steps,
        entry: place,
    })
}

/// The steps of a form.
pub(crate) fn form_steps(alloc: Global, form: FormRow) -> Result<Steps, AllocError>
    requires { HasWays (form_of form) }
    ensures { IfOk result (λ s. IsLaid s.steps.items s.entry
        (λ us. Forms.fixed_row form.prefix.now us
        (Forms.fields_row (fields_of form.fields.now) us))) }
{
    let Steps { mut steps, entry } = fields_steps(alloc, form.fields)?;
    let entry = put_fixed(&mut steps, form.prefix, entry)?;
    Ok(Steps { steps, entry })
}
