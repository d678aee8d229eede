//! Where a pattern stops at a device.
ghost use Rattle.std.specs.Prelude.{◌≡◌, ◌≤◌, length, IfOk};
ghost use Rattle.hwdb_spec.specs.Fronts.{Stops};
ghost use Rattle.hwdb_spec_commands.specs.Near.{pattern_place, stop_of};
ghost use Rattle.hwdb_spec.specs.Patterns.{tokens};
ghost use Rattle.hwdb_near.specs.Views.{front_at};

use crate::laws::stops_are_computed;
use hwdb_pattern::{front_size, longest_front, token_texts};
use std::alloc::{AllocError, Global};

/// Where a pattern stops at a device.
#[derive(Clone, Copy, Debug, PartialEq, Eq)]
pub struct Stop {
    /// How many tokens of the pattern match.
    pub tokens: usize,
    /// How many bytes of the pattern these are.
    pub pattern: usize,
    /// The least number of bytes of the device that they match.
    pub device: usize,
}

/// Where a pattern stops: the longest front of its tokens that matches a front of the device, and the least such front of
/// the device.
///
/// Takes at most as many steps as the pattern's length times the device's, and a step is a part of an instruction. At a
/// `[` that begins no closed bracket a step looks through the rest of the pattern. The memory is a slice for each token,
/// and a byte for each byte of the device. The only error is `AllocError`.
pub fn stops(alloc: Global, pattern: &[u8], device: &[u8]) -> Result<Stop, AllocError>
    ensures stops { IfOk result (λ s. Stops (tokens pattern.now) device.now (front_at s)) }
    ensures computed { IfOk result (λ s. front_at s ≡ stop_of (tokens pattern.now) device.now) }
    ensures place { IfOk result (λ s. s.pattern ≡ pattern_place pattern.now (front_at s)) }
    ensures bytes { IfOk result (λ s. s.device ≤ length device.now) }
{
    stops_are_computed();
    let list = token_texts(alloc, pattern)?;
    let front = longest_front(alloc, &list, device)?;
    Ok(Stop {
        tokens: front.tokens,
        pattern: front_size(pattern, front.tokens),
        device: front.bytes,
    })
}
