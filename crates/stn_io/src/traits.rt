//! Where bytes come from and where they go.
//!
//! A fault is counted by the object that met it. Code that is generic over these traits cannot
//! raise a count, so "this answer comes only where the count rose" refuses a body that gives up.
ghost use Rattle.std.specs.Prelude.{◌≡◌, OnErr};
ghost use Rattle.std.specs.Io.{ReadsAtMost, WritesAtMost};
ghost use Rattle.std.specs.Io.KnownBytes.{ReadConsumes, WriteAppends};
ghost use Rattle.stn_io.specs.Bytes.{TakesSome};
ghost use Rattle.stn_io.specs.Causes.{HasCause};
ghost use Rattle.stn_io.specs.States.{SourceState, SinkState};

/// A call failed: it gave and took nothing, and the count of faults rose.
#[derive(Clone, Copy, Debug, PartialEq, Eq)]
pub struct Failed;

/// A source of bytes, with a count of the calls that failed. The count is a `u64` that stops at
/// its last value, and "rose" is also said of one that stands there.
pub trait Source {
    // What is left, where it is known, and how often a call has failed.
    ghost state: { Self → SourceState };

    /// Reads into the front of `out`, and answers how many bytes it gave.
    ///
    /// Of an `out` that is not empty, 0 bytes are the end of the input.
    ///
    /// # Errors
    ///
    /// `Failed` where the count rose. The bytes left and `out` are then as before.
    fn read(&mut self, out: &mut [u8]) -> Result<usize, Failed>
        ensures bound { ReadsAtMost result out.new }
        ensures bytes { ReadConsumes (state self.old).left (state self.new).left result out.new }
        ensures untouched { OnErr result (out.new ≡ out.old) }
        ensures cause { HasCause (state self.old).faults (state self.new).faults result };
}

/// A sink of bytes, with a count of the calls that failed. The count is a `u64` that stops at its
/// last value, and "rose" is also said of one that stands there.
pub trait Sink {
    // What was taken, where it is known, and how often a call has failed.
    ghost state: { Self → SinkState };

    /// Takes a front of the bytes, and answers how many: some, where there are any.
    ///
    /// # Errors
    ///
    /// `Failed` where the count rose. Nothing was then taken.
    fn write(&mut self, bytes: &[u8]) -> Result<usize, Failed>
        ensures bound { WritesAtMost result bytes.now }
        ensures some { TakesSome result bytes.now }
        ensures bytes { WriteAppends (state self.old).taken (state self.new).taken result bytes.now }
        ensures cause { HasCause (state self.old).faults (state self.new).faults result };
}
