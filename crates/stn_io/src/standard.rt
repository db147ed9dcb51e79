//! The readers and writers of std, with their errors counted.
ghost use Rattle.std.specs.Prelude.{◌≡◌, Option, OnErr, OnOk};
ghost use Rattle.std.specs.Io.{ReadsAtMost, WritesAtMost};
ghost use Rattle.std.specs.Io.KnownBytes.{ReadConsumes, WriteAppends};
ghost use Rattle.stn_io.specs.Bytes.{TakesSome};
ghost use Rattle.stn_io.specs.Causes.{HasCause, one_more};

use crate::traits::{Failed, Sink, Source};
use std::io::{Read, Write};

/// The most bytes that one call asks of a reader.
const PIECE: usize = 8192;

/// Any reader of std. It tells the bytes that are left where the reader does.
#[derive(Drop)]
pub struct StdSource<R: Read> {
    reader: R,
    faults: u64,
}

impl<R: Read> StdSource<R> {
    /// A source over this reader, of which no call has failed.
    pub fn new(reader: R) -> Self
        ensures { ⟦<StdSource<R> as Source>⟧.state result ≡ record { left = R.remaining reader; faults = 0 } }
    {
        StdSource { reader, faults: 0 }
    }
}

impl<R: Read> Source for StdSource<R> {
    ghost state = { λ s. record { left = R.remaining s.reader; faults = s.faults } };

    /// Passes one call on to the reader, for at most 8,192 bytes.
    ///
    /// # Errors
    ///
    /// `Failed` at each error of the reader. The count is then one more, and else as before.
    fn read(&mut self, out: &mut [u8]) -> Result<usize, Failed>
        ensures bound { ReadsAtMost result out.new }
        ensures bytes { ReadConsumes (⟦<StdSource<R> as Source>⟧.state self.old).left (⟦<StdSource<R> as Source>⟧.state self.new).left result out.new }
        ensures untouched { OnErr result (out.new ≡ out.old) }
        ensures cause { HasCause (⟦<StdSource<R> as Source>⟧.state self.old).faults (⟦<StdSource<R> as Source>⟧.state self.new).faults result }
        ensures counted { OnErr result ((⟦<StdSource<R> as Source>⟧.state self.new).faults ≡ one_more (⟦<StdSource<R> as Source>⟧.state self.old).faults) }
    {
        // A reader may leave anything in its buffer where it fails, so `out` is not lent to it.
        let mut piece = [0; PIECE];
        let most = out.len().min(PIECE);
        match self.reader.read(&mut piece[..most]) {
            Ok(count) => {
                out[..count].copy_from_slice(&piece[..count]);
                Ok(count)
            }
            Err(_) => {
                self.faults = self.faults.saturating_add(1);
                Err(Failed)
            }
        }
    }
}

/// Any writer of std. It tells the bytes that were taken where the writer does.
#[derive(Drop)]
pub struct StdSink<W: Write> {
    writer: W,
    faults: u64,
}

impl<W: Write> StdSink<W> {
    /// A sink over this writer, of which no call has failed.
    pub fn new(writer: W) -> Self
        ensures { ⟦<StdSink<W> as Sink>⟧.state result ≡ record { taken = W.contents writer; faults = 0 } }
    {
        StdSink { writer, faults: 0 }
    }
}

impl<W: Write> Sink for StdSink<W> {
    ghost state = { λ s. record { taken = W.contents s.writer; faults = s.faults } };

    /// Passes one call on to the writer.
    ///
    /// # Errors
    ///
    /// `Failed` at each error of the writer, and where it takes 0 bytes of a piece that is not
    /// empty. The count is then one more, and else as before.
    fn write(&mut self, bytes: &[u8]) -> Result<usize, Failed>
        ensures bound { WritesAtMost result bytes.now }
        ensures some { TakesSome result bytes.now }
        ensures bytes { WriteAppends (⟦<StdSink<W> as Sink>⟧.state self.old).taken (⟦<StdSink<W> as Sink>⟧.state self.new).taken result bytes.now }
        ensures cause { HasCause (⟦<StdSink<W> as Sink>⟧.state self.old).faults (⟦<StdSink<W> as Sink>⟧.state self.new).faults result }
        ensures counted { OnErr result ((⟦<StdSink<W> as Sink>⟧.state self.new).faults ≡ one_more (⟦<StdSink<W> as Sink>⟧.state self.old).faults) }
    {
        match self.writer.write(bytes) {
            Ok(count) if count > 0 || bytes.is_empty() => Ok(count),
            _ => {
                self.faults = self.faults.saturating_add(1);
                Err(Failed)
            }
        }
    }
}
