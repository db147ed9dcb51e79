//! How a run ends.
ghost use Rattle.std.specs.Prelude.{◌≡◌};
ghost use Rattle.mastn.specs.Statuses.{number_of};

/// The answer of a run. Its number is the exit status of the program.
#[derive(Clone, Copy, Debug, PartialEq, Eq)]
pub enum Status {
    /// 0: the report was written whole.
    Done,
    /// 1: the report was written whole, and no schedule satisfies the given network.
    Inconsistent,
    /// 2: the words of the command line are no job.
    WordsBad,
    /// 3: the input does not begin with a network text.
    NetBad,
    /// 4: what follows the network is no script, or one with a command that is not built.
    ScriptBad,
    /// 5: a read failed.
    ReadFault,
    /// 6: a write failed, or took nothing.
    WriteFault,
    /// 7: memory ran out.
    OutOfMemory,
    /// 8: the input has more than 16,777,216 bytes.
    InputTooLong,
    /// 9: a journal or a certificate is refused.
    NotProved,
    /// 10: the network has more points than a certificate may have.
    TooLargeToCertify,
}

impl Status {
    /// The exit status of the program.
    pub fn number(self) -> u8
        ensures { result ≡ number_of self }
    {
        self as u8
    }
}
