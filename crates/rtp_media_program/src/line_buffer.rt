//! The line that is being read.

ghost use Rattle.std.specs.Prelude.{◌≡◌, ℕ, ◌≤◌, List, [], Option, None, Some, OnOk, IsTrue, ◌↔◌, length};
ghost use Rattle.std.specs.Prelude.{if◌then◌else◌};
ghost use Rattle.std.specs.Option.{option_copied};
ghost use Rattle.rtp_media_program.specs.Input.{longer};

use std::alloc::{AllocError, Global};
use std::marker::Model;

/// The most bytes of a line, without its line feed.
pub const MAX_LINE_LENGTH: usize = 1_048_576;

/// The bytes of the current line; discarded once there are too many.
#[derive(Drop)]
pub(crate) struct LineBuffer {
    bytes: Vec<u8>,
    is_too_long: bool,
}

impl Model for LineBuffer {
    ghost Value = { Option (List ℕ) };

    ghost view = { λ l. if l.is_too_long then None else Some l.bytes.items };

    ghost invariant = { λ l. length l.bytes.items ≤ 1048576 };
}

impl LineBuffer {
    pub(crate) fn new(alloc: Global) -> LineBuffer
        ensures { result ≡ Some [] }
    {
        LineBuffer {
            bytes: Vec::new(alloc),
            is_too_long: false,
        }
    }

    pub(crate) fn push(&mut self, byte: u8) -> Result<(), AllocError>
        ensures { OnOk result (self.new ≡ longer self.old byte) }
    {
        if self.is_too_long {
            return Ok(());
        }
        if self.bytes.len() == MAX_LINE_LENGTH {
            self.bytes.clear();
            self.is_too_long = true;
            return Ok(());
        }
        self.bytes.push(byte)?;
        Ok(())
    }

    pub(crate) fn clear(&mut self)
        ensures { self.new ≡ Some [] }
    {
        self.bytes.clear();
        self.is_too_long = false;
    }

    pub(crate) fn is_empty(&self) -> bool
        ensures { IsTrue result ↔ (self.now ≡ Some []) }
    {
        !self.is_too_long && self.bytes.is_empty()
    }

    pub(crate) fn text(&self) -> Option<&[u8]>
        ensures { option_copied result ≡ self.now }
    {
        if self.is_too_long {
            None
        } else {
            Some(self.bytes.as_slice())
        }
    }
}
