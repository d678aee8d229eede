//! Why a file or folder can't be read or written, in the system's words.
ghost use Rattle.std.specs.Prelude.{◌≤◌};
ghost use Rattle.hwdb_spec.specs.Failures.{IsOneLine};
ghost use Rattle.hwdb_spec.specs.declared.causes.TheConstants.{ROOM};

use std::fmt::{self, Write};
use std::io::{self, ErrorKind};

/// Why a file or folder can't be read or written.
#[derive(Clone, Copy, Debug, PartialEq, Eq)]
pub enum Cause {
    /// An error of the system, by its number (errno).
    System(i32),
    /// Memory for the call was refused.
    Memory,
    /// A write took nothing of something.
    Nothing,
    /// An error of the library that has no number.
    Unknown,
    /// A name that isn't UTF-8.
    Name,
    /// A folder stands in the file's place.
    Folder,
    /// A named pipe stands there; it isn't opened, since that would wait for its other end.
    Pipe,
    /// A socket stands there.
    Socket,
    /// A device stands there.
    Device,
    /// A link stands there, and nothing is where it leads.
    Link,
}

impl Cause {
    /// The cause that the library tells.
    pub fn of(error: &io::Error) -> Cause {
        match error.raw_os_error() {
            Some(number) => Cause::System(number),
            None if error.kind() == ErrorKind::OutOfMemory => Cause::Memory,
            None => Cause::Unknown,
        }
    }

    /// Whether the reader at the other end of a pipe went away.
    pub fn is_broken_pipe(self) -> bool {
        match self {
            Cause::System(number) => {
                io::Error::from_raw_os_error(number).kind() == ErrorKind::BrokenPipe
            }
            _ => false,
        }
    }

    /// The cause in words: the system's own, as strerror(3) has them, or such in its style. Doesn't allocate.
    pub fn message(self) -> Message {
        let mut message = Message::new();
        // A message that doesn't fit is cut.
        let _ = match self {
            Cause::System(number) => write!(message, "{}", io::Error::from_raw_os_error(number)),
            Cause::Memory => message.write_str("Cannot allocate memory"),
            Cause::Nothing => message.write_str("Nothing was written"),
            Cause::Unknown => message.write_str("Unknown error"),
            Cause::Name => message.write_str("the name is not UTF-8"),
            Cause::Folder => message.write_str("Is a directory"),
            Cause::Pipe => message.write_str("Is a named pipe"),
            Cause::Socket => message.write_str("Is a socket"),
            Cause::Device => message.write_str("Is a device"),
            Cause::Link => message.write_str("Is a link to nothing"),
        };
        message.drop_number();
        message
    }
}

/// The front of a text, as far as its first newline.
fn first_line(text: &[u8]) -> &[u8]
    ensures { IsOneLine result.now }
{
    let mut end = 0;
    while end < text.len() && text[end] != b'\n' {
        end += 1;
    }
    &text[..end]
}

/// How many bytes of a message are kept.
const ROOM: usize = 128;

/// The words of a cause, of which the first bytes are kept.
#[derive(Drop)]
pub struct Message {
    bytes: [u8; ROOM],
    len: usize,
    ghost within: { len ≤ ROOM },
}

impl Message {
    fn new() -> Message {
        Message {
            bytes: [0; ROOM],
            len: 0,
        }
    }

    /// The words, as far as the first newline: they are printed on one line.
    pub fn as_bytes(&self) -> &[u8]
        ensures { IsOneLine result.now }
    {
        first_line(self.kept())
    }

    /// What is kept of them.
    fn kept(&self) -> &[u8] {
        let bytes = &self.bytes[..];
        &bytes[..self.len]
    }

    /// Cuts the number that the library puts after the system's words.
    fn drop_number(&mut self) {
        let number = b" (os error ".as_slice();
        let cut = self
            .kept()
            .windows(number.len())
            .position(|part| part == number);
        if let Some(len) = cut {
            if len < self.len {
                self.len = len;
            }
        }
    }
}

impl fmt::Write for Message {
    fn write_str(&mut self, text: &str) -> fmt::Result {
        let text = text.as_bytes();
        let room = ROOM - self.len;
        let n = text.len().min(room);
        let end = self.len + n;
        let bytes = &mut self.bytes[..];
        bytes[self.len..end].copy_from_slice(&text[..n]);
        self.len = end;
        Ok(())
    }
}
