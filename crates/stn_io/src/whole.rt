//! All bytes of a source, and all bytes to a sink.
ghost use Rattle.std.specs.Prelude.{◌≡◌, ◌≢◌, ◌+◌, ◌<◌, ◌≤◌, [], Some, IfOk, IfErr, IfSome, OnOk, OnErr, length};
ghost use Rattle.std.specs.Io.KnownBytes.{Appends};
ghost use Rattle.stn_io.specs.Bytes.{Loses, LosesAtMost, TakesFront};
ghost use Rattle.stn_io.specs.Causes.{Rose};

use crate::traits::{Failed, Sink, Source};
use std::alloc::{AllocError, Global};

/// How many bytes are asked of a source at once.
const PIECE: usize = 65536;

/// Why not all bytes were read.
#[derive(Clone, Copy, Debug, PartialEq, Eq)]
pub enum ReadRefusal {
    /// A call of the source failed.
    ReadFault,
    /// There is more than the limit.
    TooLong,
    /// The bytes found no memory.
    OutOfMemory,
}

/// Not all bytes were written, since a call of the sink failed.
#[derive(Clone, Copy, Debug, PartialEq, Eq)]
pub struct WriteFault;

/// Reads to the end, if that comes within `limit` bytes.
///
/// The bytes that were read are gone from the source, also after an error.
///
/// # Errors
///
/// `TooLong` exactly where `limit + 1` bytes were read; no more than these are gone then.
/// `ReadFault` only where the source's count of faults rose; every other answer leaves the count.
/// `OutOfMemory` where the bytes find no memory.
pub fn read_all<S: Source>(
    alloc: Global,
    source: &mut S,
    limit: u32,
) -> Result<Vec<u8>, ReadRefusal>
    ensures bytes { IfOk result (λ v. IfSome (S.state source.old).left (λ xs. v.items ≡ xs)) }
    ensures ended { OnOk result (IfSome (S.state source.old).left (λ _. (S.state source.new).left ≡ Some [])) }
    ensures short { IfOk result (λ v. length v.items ≤ limit) }
    ensures kept { OnOk result ((S.state source.new).faults ≡ (S.state source.old).faults) }

    // One byte more than the limit was read exactly where the answer is `TooLong`.
    ensures long { result ≡ Err ReadRefusal.TooLong → Loses (S.state source.old).left (S.state source.new).left (limit + 1) }
    ensures longer { OnOk result (IfSome (S.state source.old).left (λ xs. length xs ≤ limit)) }
    ensures fewer { IfErr result (λ e. e ≢ ReadRefusal.TooLong → LosesAtMost (S.state source.old).left (S.state source.new).left limit) }

    ensures fault { result ≡ Err ReadRefusal.ReadFault → Rose (S.state source.old).faults (S.state source.new).faults }
    ensures quiet { IfErr result (λ e. e ≢ ReadRefusal.ReadFault → (S.state source.new).faults ≡ (S.state source.old).faults) }
    ensures later { (S.state source.old).faults ≤ (S.state source.new).faults }
{
    let Ok(mut buffer) = zeros(alloc, PIECE) else {
        return Err(ReadRefusal::OutOfMemory);
    };
    let piece = buffer.as_mut_slice();
    let mut all = Vec::new(alloc);
    let limit = limit as usize;
    'pieces: loop {
        let most = PIECE.min(limit + 1 - all.len());
        let Ok(count) = source.read(&mut piece[..most]) else {
            return Err(ReadRefusal::ReadFault);
        };
        if count == 0 {
            return Ok(all);
        }
        if count > limit - all.len() {
            return Err(ReadRefusal::TooLong);
        }
        let Ok(()) = all.extend_from_slice(&piece[..count]) else {
            return Err(ReadRefusal::OutOfMemory);
        };
    }
}

// So many bytes that are 0.
fn zeros(alloc: Global, count: usize) -> Result<Vec<u8>, AllocError>
    ensures { IfOk result (λ v. length v.items ≡ count) }
{
    let zeros = vec![in alloc; 0u8; count]?;
    Ok(zeros)
}

/// Writes all of the bytes, and takes no memory.
///
/// # Errors
///
/// `WriteFault` only where the sink's count of faults rose; a front of the bytes was then taken, and
/// not all of them.
pub fn write_all<K: Sink>(sink: &mut K, bytes: &[u8]) -> Result<(), WriteFault>
    ensures ok { OnOk result (Appends (K.state sink.old).taken (K.state sink.new).taken bytes.now) }
    ensures kept { OnOk result ((K.state sink.new).faults ≡ (K.state sink.old).faults) }
    ensures front { OnErr result (TakesFront (K.state sink.old).taken (K.state sink.new).taken bytes.now) }
    ensures fault { OnErr result (Rose (K.state sink.old).faults (K.state sink.new).faults) }
    ensures later { (K.state sink.old).faults ≤ (K.state sink.new).faults }
{
    let mut at = 0;
    while at < bytes.len() {
        match sink.write(&bytes[at..]) {
            Ok(count) => at += count,
            Err(Failed) => return Err(WriteFault),
        }
    }
    Ok(())
}
