ghost use Rattle.std.specs.Prelude.{◌≡◌, ◌++◌, OnOk, string_bytes, decimal};
ghost use Rattle.line_text.specs.Ranges.{between};

use crate::forms::{Bounds, Reject};
use itoa::Buffer;
use std::alloc::AllocError;

impl Bounds {
    /// The numbers from one to another. A line with a number outside them is bad.
    #[inline(always)]
    pub fn between(least: u64, most: u64) -> Bounds
        ensures { result ≡ between least most }
    {
        Bounds {
            least,
            most,
            above: Reject::Bad,
        }
    }
}

/// Adds a number to a text.
pub fn push_number(text: &mut String, number: u64) -> Result<(), AllocError>
    ensures { OnOk result (string_bytes text.new ≡ string_bytes text.old ++ decimal number) }
{
    let mut buffer = Buffer::new();
    text.push_str(buffer.format(number))
}
