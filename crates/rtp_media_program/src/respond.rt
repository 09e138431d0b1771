//! Who answers the lines.

ghost use Rattle.std.specs.Prelude.{List, IfOk};
ghost use Rattle.rtp_media_program.specs.declared.command.Command.{Command};
ghost use Rattle.rtp_media_program.specs.declared.reply.Reply.{Reply};

use crate::command::Command;
use crate::reply::Reply;
use std::alloc::{AllocError, Global};

/// What follows the lines: it answers one command after the other.
pub trait Respond {
    /// From the first state to the second a command may give these replies.
    ghost gives: { Self → Command → Self → List Reply → Type 0 };

    /// The replies to a command, in the order in which they are printed.
    ///
    /// # Errors
    /// Only if memory for the replies runs out, which ends the run.
    fn respond(&mut self, alloc: Global, command: Command) -> Result<Vec<Reply>, AllocError>
        ensures { IfOk result (λ replies. gives self.old command self.new replies.items) };
}
