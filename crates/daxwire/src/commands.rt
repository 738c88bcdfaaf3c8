ghost use Rattle.std.specs.Prelude.{◌≡◌};
ghost use Rattle.daxwire.specs.Commands.{command_named, command_of};

use program_io::Word;

/// What the program is asked to do.
#[derive(Clone, Copy, Debug, PartialEq, Eq)]
pub enum Command {
    /// To show a chain stream, one line for each frame.
    Show,
    /// To serve a chain stream, one output frame for each frame.
    Serve,
    /// To read a ring image, serve the chains that it offers, and print what came of them.
    Ring,
    /// To read a script and a transcript, and tell whether the transcript is legal for the script.
    Audit,
}

impl Command {
    /// The command that the words are; None where they are none.
    pub fn of(words: &[Word]) -> Option<Command>
        ensures { result ≡ command_of words.now }
    {
        match words {
            [word] => Command::named(word.as_slice()),
            _ => None,
        }
    }

    // The command of this name.
    #[tactic(auto, unfolding(crate::specs::Commands::command_named))]
    fn named(name: &[u8]) -> Option<Command>
        ensures { result ≡ command_named name.now }
    {
        if name == b"show".as_slice() {
            Some(Command::Show)
        } else if name == b"serve".as_slice() {
            Some(Command::Serve)
        } else if name == b"ring".as_slice() {
            Some(Command::Ring)
        } else if name == b"audit".as_slice() {
            Some(Command::Audit)
        } else {
            None
        }
    }
}
