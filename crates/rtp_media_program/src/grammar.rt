//! Which words a command is.

ghost use Rattle.std.specs.Prelude.{◌≡◌, ◌↔◌, ℕ, List};
ghost use Rattle.rtp_media_program.specs.declared.command.Command.{Command};
ghost use Rattle.rtp_media_program.specs.LineForms.{command_of};
ghost use Rattle.rtp_media_program.specs.Says.{Says};

/// Words are read as a command if and only if they are the words of that command's line.
pub fn commands_are_their_words()
    ensures { (words : List (List ℕ)) (command : Command) → (command_of words ≡ Some command) ↔ Says words command }
{}
