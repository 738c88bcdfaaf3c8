ghost use Rattle.std.specs.Prelude.{◌≡◌};
ghost use Rattle.program_io.specs.Statuses.{number_of};

/// How a program ended. `number` is the exit status of its process.
#[derive(Clone, Copy, Debug, PartialEq, Eq)]
pub enum Status {
    /// All was done: what the command reads was read to its end, and all that it owes was written.
    Ok,
    /// What was read isn't well formed. The message that says where and why was written.
    Refused,
    /// The words of the command line name no command. The usage line was written.
    Usage,
    /// The source failed. What a command writes at its end wasn't begun; of what it writes as it
    /// reads, a front was written.
    ReadFault,
    /// The sink failed. A front of what was due was taken.
    WriteFault,
    /// Want of memory. What a command writes at its end wasn't begun; of what it writes as it
    /// reads, a front was written.
    Memory,
    /// The input is longer than the command's limit. The message that says so, where the command
    /// has one, was written.
    TooLong,
    /// Both texts are well formed, and the transcript isn't legal for the script. The line that
    /// says which rule it breaks was written.
    NotLegal,
}

impl Status {
    /// The exit status, 0 to 7 in the order in which the variants stand.
    #[tactic(auto, unfolding(crate::specs::Statuses::number_of))]
    pub fn number(self) -> u8
        ensures { result ≡ number_of self }
    {
        match self {
            Status::Ok => 0,
            Status::Refused => 1,
            Status::Usage => 2,
            Status::ReadFault => 3,
            Status::WriteFault => 4,
            Status::Memory => 5,
            Status::TooLong => 6,
            Status::NotLegal => 7,
        }
    }
}
