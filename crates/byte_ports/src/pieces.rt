ghost use Rattle.std.specs.Prelude.{◌<◌, ◌+◌, ◌^◌, ◌++◌, ℕ, List, length, OnOk, IsErrOf};
ghost use Rattle.byte_ports.specs.Causes.{CountsRefusal};
ghost use Rattle.byte_ports.specs.Taken.{TakesCount, TakesAtMost, HandsOn};
ghost use Rattle.byte_ports.specs.Runs.{ReadsToFault, ReadsCount};

use crate::ports::{Failed, Source};

/// What takes the bytes of an input, one piece after the other.
pub trait Receiver {
    /// What it takes the bytes for. Bytes change nothing of that.
    ghost Purpose: { Type 0 };

    /// For this purpose it took these bytes. How they were cut into pieces makes no difference.
    ghost took: { Purpose → List ℕ → Self → Type 0 };

    /// Takes the next bytes.
    fn take(&mut self, piece: &[u8])
        requires { (purpose : Purpose) × (bytes : List ℕ) × took purpose bytes self.old }
        ensures more { (purpose : Purpose) (bytes : List ℕ) → took purpose bytes self.old
            → took purpose (bytes ++ piece.now) self.new };
}

/// Why an input wasn't read to its end.
#[derive(Clone, Copy, Debug, PartialEq, Eq)]
pub enum InputStop {
    Fault,
    TooLong,
}

/// Reads all bytes of the source up to its end, at most `limit` of them, and hands them on as they come, a part of the
/// buffer at a time.
/// `TooLong` comes exactly where `limit + 1` bytes were taken, and `Fault` where the source failed.
/// No byte past those is taken.
pub fn read_pieces<S: Source, T: Receiver>(
    source: &mut S,
    buffer: &mut [u8],
    limit: usize,
    receiver: &mut T,
) -> Result<(), InputStop>
    requires room { 0 < length buffer.old }
    requires limit { limit < 2 ^ 30 }
    requires begun { (purpose : T.Purpose) × (bytes : List ℕ) × T.took purpose bytes receiver.old }
    ensures ok { OnOk result (HandsOn S.left S.read_gives T.took limit source.old source.new receiver.old receiver.new) }
    ensures too_long { IsErrOf result InputStop.TooLong →
        TakesCount (S.left source.old) (S.left source.new) (limit + 1) }
    ensures taken { IsErrOf result InputStop.Fault → TakesAtMost (S.left source.old) (S.left source.new) limit }
    ensures cause { CountsRefusal (S.faults source.old) (S.faults source.new) (IsErrOf result InputStop.Fault) }
    // What the reads gave, also where the source tells nothing of its bytes; each read but the last gave a byte or more.
    ensures reads_fault { IsErrOf result InputStop.Fault →
        ReadsToFault S.read_gives (limit + 2) limit source.old source.new }
    ensures reads_too_long { IsErrOf result InputStop.TooLong →
        ReadsCount S.read_gives (limit + 2) (limit + 1) source.old source.new }
{
    let mut count = 0;
    'reads: loop {
        let room = (limit + 1 - count).min(buffer.len());
        match source.read(&mut buffer[..room]) {
            Ok(0) => return Ok(()),
            Ok(more) if count + more > limit => return Err(InputStop::TooLong),
            Ok(more) => {
                receiver.take(&buffer[..more]);
                count += more;
            }
            Err(Failed) => return Err(InputStop::Fault),
        }
    }
}
