//! What a command prints, and its status.
ghost use Rattle.std.specs.Prelude.{[], ◌≡◌, ◌≤◌};

use std::alloc::Global;

/// What a command prints, and its status.
#[derive(Drop)]
pub struct Answer {
    /// What standard error gets, before the rest.
    pub err: Vec<u8>,
    /// What standard output gets.
    pub out: Vec<u8>,
    /// The status.
    pub status: u8,
    ghost small: { status ≤ 1 },
}

impl Answer {
    /// A text for standard output, and nothing for standard error.
    pub fn new(alloc: Global, out: Vec<u8>, status: u8) -> Answer
        requires { status ≤ 1 }
        ensures err { result.err.items ≡ [] }
        ensures out { result.out.items ≡ out.items }
        ensures status { result.status ≡ status }
    {
        Answer {
            err: Vec::new(alloc),
            out,
            status,
        }
    }

    /// A text for each output.
    pub fn with_error(err: Vec<u8>, out: Vec<u8>, status: u8) -> Answer
        requires { status ≤ 1 }
        ensures err { result.err.items ≡ err.items }
        ensures out { result.out.items ≡ out.items }
        ensures status { result.status ≡ status }
    {
        Answer { err, out, status }
    }
}
