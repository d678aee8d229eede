//! What was read of a file in windows, as each node of a lookup has it.
ghost use Rattle.std.specs.Prelude.{◌≤◌, length};

/// What was read of a file.
#[derive(Clone, Copy)]
pub struct Seen<'a> {
    /// How many bytes it has.
    pub size: usize,
    /// Its string section, up to its end.
    pub strings: &'a [u8],
    /// The bytes of the windows, one after another.
    pub bytes: &'a [u8],
    /// Where each is in the file.
    pub places: &'a [usize],
    ghost inside: { length strings.now ≤ size },
}
