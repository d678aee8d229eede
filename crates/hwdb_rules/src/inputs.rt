//! What kinds of input device udev sees in one: the builtin `input_id`.
ghost use Rattle.std.specs.Prelude.{◌≡◌, ◌+◌, ◌/◌, ◌%◌, ◌^◌, ◌==◌, ◌<◌, ◌≤◌, false, filter, get_or, if◌then◌else◌, length, map, reverse, IfOk};
ghost use Rattle.hwdb_spec_commands.specs.Sysfs.{attribute_text};
ghost use Rattle.hwdb_spec_commands.specs.Inputs;
ghost use Rattle.hwdb_spec_commands.specs.Inputs.{after_words, count_bits, has_bit, kinds_by_bits, with_bits};
ghost use Rattle.hwdb_spec_commands.specs.Lookups;
ghost use Rattle.hwdb_rules.specs.Views.{kinds_of, scene_of};
ghost use Rattle.hwdb_sysfs.specs.Views.{ancestor_of};
ghost use Rattle.hwdb_rules.specs.Internal.{bits_in};

use crate::ancestors::{Wanted, attribute_text, first_of, is_in};
use crate::scene::Scene;
use hwdb_properties::{after, before};
use hwdb_sysfs::Ancestor;
use std::alloc::{AllocError, Global};

/// What kinds a device has.
#[derive(Clone, Copy, Debug, PartialEq, Eq)]
pub struct Kinds {
    /// It is a mouse: ID_INPUT_MOUSE.
    pub mouse: bool,
    /// It is a touchpad: ID_INPUT_TOUCHPAD.
    pub touchpad: bool,
    /// It is a joystick: ID_INPUT_JOYSTICK.
    pub joystick: bool,
    /// It is an accelerometer: ID_INPUT_ACCELEROMETER.
    pub accelerometer: bool,
}

/// An input device's masks, each read from the right.
#[derive(Drop)]
pub(crate) struct Bits {
    pub(crate) events: Vec<u8>,
    pub(crate) axes: Vec<u8>,
    pub(crate) relative: Vec<u8>,
    pub(crate) keys: Vec<u8>,
    pub(crate) properties: Vec<u8>,
}

/// The keys of which a keyboard has four.
const WELL_KNOWN_KEYS: [usize; 10] = [29, 58, 69, 110, 113, 140, 144, 155, 164, 224];

/// A mask, read from the right, after so many words.
fn after_words(mask: &[u8], words: usize) -> &[u8]
    ensures { result.now ≡ after_words words mask.now }
{
    let mut left = mask;
    let mut more = words;
    while more > 0 {
        left = after(b' ', left);
        more -= 1;
    }
    left
}

/// The value of a digit to the base 16; of any other byte 0.
fn digit_value(byte: u8) -> u8
    ensures { result ≡ Inputs.digit_value byte }
{
    match byte {
        b'0'..=b'9' => byte - b'0',
        b'a'..=b'f' => byte - 87,
        _ => 0,
    }
}

/// The byte at a place; 0 after the end.
fn byte_at(text: &[u8], place: usize) -> u8
    ensures { result ≡ get_or text.now place 0 }
{
    if place < text.len() { text[place] } else { 0 }
}

/// Whether a bit of a digit is set.
fn is_bit(digit: u8, bit: usize) -> bool
    requires { bit < 4 }
    ensures { result ≡ digit / 2 ^ bit % 2 == 1 }
{
    match bit {
        0 => digit % 2 == 1,
        1 => digit / 2 % 2 == 1,
        2 => digit / 4 % 2 == 1,
        _ => digit / 8 % 2 == 1,
    }
}

/// Whether a bit is in a mask that is read from the right.
fn has_bit(mask: &[u8], bit: usize) -> bool
    ensures { result ≡ has_bit bit mask.now }
{
    let word = before(b' ', after_words(mask, bit / 64));
    is_bit(digit_value(byte_at(word, bit % 64 / 4)), bit % 4)
}

/// 1 if a bit is in a mask, else 0.
fn bit_in(mask: &[u8], bit: usize) -> usize
    ensures value { result ≡ if Inputs.has_bit bit mask.now then 1 else 0 }
    ensures within { result ≤ 1 }
{
    if has_bit(mask, bit) { 1 } else { 0 }
}

/// How many of so many bits from one on are in a mask.
#[tactic(auto, using(crate::proofs::BitLemmas::count_step, crate::proofs::BitLemmas::no_count))]
fn count_bits(mask: &[u8], first: usize, many: usize) -> usize
    requires { first + many < 1024 }
    ensures count { result ≡ count_bits first many mask.now }
    ensures within { result ≤ many }
{
    let mut count = 0;
    let mut seen = 0;
    while seen < many {
        count += bit_in(mask, first + seen);
        seen += 1;
    }
    count
}

/// How many of some bits are in a mask.
fn count_of(mask: &[u8], bits: &[usize]) -> usize
    ensures { result ≡ length (filter (λ bit. Inputs.has_bit bit mask.now) bits.now) }
{
    let mut count = 0;
    for bit in bits {
        if has_bit(mask, *bit) {
            count += 1;
        }
    }
    count
}

/// A mask of a device, read from the right. The only error, here and below, is `AllocError`.
fn mask(alloc: Global, ancestor: &Ancestor, name: &[u8]) -> Result<Vec<u8>, AllocError>
    ensures { IfOk result
        (λ m. m.items ≡ reverse (attribute_text name.now (ancestor_of ancestor.now))) }
{
    let mut mask = Vec::new(alloc);
    mask.extend_from_slice(attribute_text(ancestor, name))?;
    mask.reverse();
    Ok(mask)
}

impl Bits {
    /// The masks of a device.
    fn of(alloc: Global, ancestor: &Ancestor) -> Result<Bits, AllocError>
        ensures { IfOk result (λ b. bits_in b ≡ Inputs.bits_of (ancestor_of ancestor.now)) }
    {
        Ok(Bits {
            events: mask(alloc, ancestor, b"capabilities/ev")?,
            axes: mask(alloc, ancestor, b"capabilities/abs")?,
            relative: mask(alloc, ancestor, b"capabilities/rel")?,
            keys: mask(alloc, ancestor, b"capabilities/key")?,
            properties: mask(alloc, ancestor, b"properties")?,
        })
    }

    fn has_place(&self) -> bool
        ensures { result ≡ Inputs.has_place (bits_in self.now) }
    {
        has_bit(&self.axes, 0) && has_bit(&self.axes, 1)
    }

    fn is_accelerometer(&self) -> bool
        ensures { result ≡ Inputs.is_accelerometer (bits_in self.now) }
    {
        has_bit(&self.properties, 6)
            || !has_bit(&self.events, 1) && self.has_place() && has_bit(&self.axes, 2)
    }

    fn has_pen(&self) -> bool
        ensures { result ≡ Inputs.has_pen (bits_in self.now) }
    {
        has_bit(&self.keys, 331) || has_bit(&self.keys, 320)
    }

    fn has_finger(&self) -> bool
        ensures { result ≡ Inputs.has_finger (bits_in self.now) }
    {
        has_bit(&self.keys, 325) && !has_bit(&self.keys, 320) && !has_bit(&self.properties, 1)
    }

    fn has_mouse_button(&self) -> bool
        ensures { result ≡ Inputs.has_mouse_button (bits_in self.now) }
    {
        count_bits(&self.keys, 272, 16) > 0
    }

    fn has_motion(&self) -> bool
        ensures { result ≡ Inputs.has_motion (bits_in self.now) }
    {
        has_bit(&self.events, 2) && has_bit(&self.relative, 0) && has_bit(&self.relative, 1)
    }

    fn has_touches(&self) -> bool
        ensures { result ≡ Inputs.has_touches (bits_in self.now) }
    {
        has_bit(&self.axes, 53)
            && has_bit(&self.axes, 54)
            && !(has_bit(&self.axes, 47) && has_bit(&self.axes, 46))
    }

    fn is_screen(&self) -> bool
        ensures { result ≡ Inputs.is_screen (bits_in self.now) }
    {
        has_bit(&self.keys, 330) || has_bit(&self.properties, 1)
    }

    fn has_pad(&self) -> bool
        ensures { result ≡ Inputs.has_pad (bits_in self.now) }
    {
        has_bit(&self.keys, 256) && has_bit(&self.keys, 257) && !has_bit(&self.keys, 320)
    }

    fn has_wheel(&self) -> bool
        ensures { result ≡ Inputs.has_wheel (bits_in self.now) }
    {
        has_bit(&self.events, 2) && (has_bit(&self.relative, 8) || has_bit(&self.relative, 6))
    }

    fn joystick_buttons(&self) -> usize
        ensures count { result ≡ Inputs.joystick_buttons (bits_in self.now) }
        ensures within { result ≤ 76 }
    {
        if has_bit(&self.keys, 287) {
            return 0;
        }
        let buttons = count_bits(&self.keys, 288, 32);
        let happy = count_bits(&self.keys, 704, 40);
        let pad = count_bits(&self.keys, 544, 4);
        buttons + (happy + pad)
    }

    fn joystick_parts(&self) -> usize
        ensures { result ≡ Inputs.joystick_parts (bits_in self.now) }
    {
        let buttons = self.joystick_buttons();
        let axes = count_bits(&self.axes, 3, 21);
        buttons + axes
    }

    fn well_known_keys(&self) -> usize
        ensures { result
            ≡ length (filter (λ key. Inputs.has_bit key self.now.keys.items)
            Inputs.well_known_keys) }
    {
        count_of(&self.keys, &WELL_KNOWN_KEYS)
    }

    fn is_keyboard(&self) -> bool
        ensures { result ≡ Inputs.is_keyboard (bits_in self.now) }
    {
        has_bit(&self.events, 1) && self.well_known_keys() >= 4
    }

    fn is_tablet(&self) -> bool
        ensures { result ≡ Inputs.is_tablet (bits_in self.now) }
    {
        self.has_pen() && (self.has_place() || self.has_touches())
            || self.has_pad() && self.has_wheel() && !self.has_motion()
    }

    fn is_touchpad(&self) -> bool
        ensures { result ≡ Inputs.is_touchpad (bits_in self.now) }
    {
        self.has_finger() && !self.has_pen() && (self.has_place() || self.has_touches())
    }

    fn is_other(&self) -> bool
        ensures { result ≡ Inputs.is_other (bits_in self.now) }
    {
        self.has_pen() || self.has_finger() || self.has_mouse_button() || self.is_screen()
    }

    fn may_be_joystick(&self) -> bool
        ensures { result ≡ Inputs.may_be_joystick (bits_in self.now) }
    {
        self.joystick_parts() > 0 && !(self.has_place() && self.is_other())
    }

    fn is_wheeled_pad(&self) -> bool
        ensures { result
            ≡ if Inputs.has_wheel (bits_in self.now)
            then Inputs.has_pad (bits_in self.now) else false }
    {
        self.has_wheel() && self.has_pad()
    }

    fn is_joystick(&self) -> bool
        ensures { result ≡ Inputs.is_joystick (bits_in self.now) }
    {
        if !self.may_be_joystick() || self.is_keyboard() {
            return false;
        }
        if self.joystick_parts() < 2 {
            return false;
        }
        !self.is_wheeled_pad()
    }

    fn is_placed_mouse(&self) -> bool
        ensures { result ≡ Inputs.is_placed_mouse (bits_in self.now) }
    {
        self.has_place() && !self.has_pen() && !self.has_finger() && self.has_mouse_button()
    }

    fn is_moved_mouse(&self) -> bool
        ensures { result ≡ Inputs.is_moved_mouse (bits_in self.now) }
    {
        if self.is_tablet() || self.is_touchpad() || self.may_be_joystick() {
            return false;
        }
        self.has_mouse_button() && (self.has_motion() || !self.has_place())
    }

    fn is_mouse(&self) -> bool
        ensures { result ≡ Inputs.is_mouse (bits_in self.now) }
    {
        self.is_placed_mouse() || self.is_moved_mouse()
    }

    /// The kinds that are seen here, beside those before.
    fn kinds(&self, before: Kinds) -> Kinds
        ensures { kinds_of result ≡ with_bits (kinds_of before) (bits_in self.now) }
    {
        let accelerometer = self.is_accelerometer();
        Kinds {
            mouse: before.mouse || !accelerometer && self.is_mouse(),
            touchpad: before.touchpad || !accelerometer && self.is_touchpad(),
            joystick: before.joystick || !accelerometer && self.is_joystick(),
            accelerometer: before.accelerometer || accelerometer,
        }
    }
}

/// The kinds of a device, by the first of it and its parents that tells its events, beside those before.
///
/// # Errors
///
/// `AllocError` at any allocation that fails.
pub fn kinds_by_bits(alloc: Global, before: Kinds, chain: &[Ancestor]) -> Result<Kinds, AllocError>
    ensures { IfOk result
        (λ k. kinds_of k ≡ kinds_by_bits (kinds_of before) (map ancestor_of chain.now)) }
{
    match first_of(Wanted::Events, chain) {
        Some(found) => Ok(Bits::of(alloc, found.ancestor)?.kinds(before)),
        None => Ok(before),
    }
}

/// The kinds of a device after the builtin `input_id`, which is called for input devices.
pub fn kinds_seen(alloc: Global, before: Kinds, scene: &Scene<'_>) -> Result<Kinds, AllocError>
    ensures { IfOk result
        (λ k. kinds_of k ≡ Lookups.kinds_seen (kinds_of before) (scene_of scene.now)) }
{
    if is_in(scene.own, b"input") {
        kinds_by_bits(alloc, before, scene.chain)
    } else {
        Ok(before)
    }
}
