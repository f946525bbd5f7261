//! How a run ends.

ghost use Rattle.std.specs.Prelude.{◌≡◌};
ghost use Rattle.audit_top.specs.Statuses.{exit_code};

/// How a run ended.
#[derive(Clone, Copy, Debug, PartialEq, Eq)]
pub enum Status {
    /// The text was put whole, and an audit found no conflict.
    Clean,
    /// An audit found conflicts.
    Conflicts,
    /// The arguments are not a command.
    Words,
    /// Reading or writing a file failed.
    File,
    /// A file is no dictionary.
    Refused,
    /// A limit is passed.
    Limit,
    /// The output failed.
    Output,
    /// Memory ran out.
    Memory,
    /// A certificate is not valid.
    Rejected,
}

impl Status {
    /// The number with which the program ends, from 0 to 8 in the order of the variants.
    pub fn code(self) -> u8
        ensures { result ≡ exit_code self }
    {
        match self {
            Status::Clean => 0,
            Status::Conflicts => 1,
            Status::Words => 2,
            Status::File => 3,
            Status::Refused => 4,
            Status::Limit => 5,
            Status::Output => 6,
            Status::Memory => 7,
            Status::Rejected => 8,
        }
    }
}
