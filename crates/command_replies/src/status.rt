//! How a run ends.
ghost use Rattle.std.specs.Prelude.{◌≡◌};
ghost use Rattle.command_replies.specs.Statuses.{exit_code};

/// How a run ends; `docs/formats.md` has the table.
#[derive(Clone, Copy, Debug, PartialEq, Eq)]
pub enum Status {
    Done = 0,
    Refused = 1,
    BadWords = 2,
    ReadFault = 3,
    WriteFault = 4,
    NoMemory = 5,
}

impl Status {
    /// The exit code of the program for this end: 0 to 5, in the order of the variants.
    pub fn code(self) -> u8
        ensures { result ≡ exit_code self }
    {
        self as u8
    }
}
