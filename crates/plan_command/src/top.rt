//! The top call.

ghost use Rattle.std.specs.Prelude.{◌≡◌, None, map, string_bytes, IsErrOf};
ghost use Rattle.plan_command.specs.declared.request.Request.{Request};
ghost use Rattle.plan_command.specs.Words.{Spells, limit_of};
ghost use Rattle.plan_command.specs.Run.{call, err_view, Ends, Ending, ending_of, status_at, line_at, Says};
ghost use Rattle.plan_command.specs.Promises.{Keeps, Completes};

use crate::line::say;
use crate::serving::serve;
use crate::status::{Status, Stop};
use crate::words::read_words;
use byte_ports::{Sink, Source};
use search_workers::Gate;
use std::sync::Wait;
use std::thread::Threads;

// All but the line on `err`.
fn work<R: AllocGlobal + Threads + Wait + Sync, S: Source, K: Sink, G: Gate>(
    rt: &R,
    words: &[String],
    source: &mut S,
    out: &mut K,
    gate: &G,
) -> Result<Status, Stop>
    ensures ends { Ends (call S.read_gives (map string_bytes words.now) S.left S.faults K.wrote K.faults
        source.old source.new out.old out.new) (ending_of result) }
    ensures untouched { IsErrOf result Stop.Usage → source.new ≡ source.old }
    ensures makes_read_nothing { (request : Request) → Spells (map string_bytes words.now) request
        → limit_of request ≡ None → source.new ≡ source.old }
{
    match read_words(words) {
        None => Err(Stop::Usage),
        Some(request) => serve(rt, words, request, source, out, gate),
    }
}

/// Reads what the words ask for, answers it, and writes the answer to `out`, or says on `err` why not.
pub fn run<R: AllocGlobal + Threads + Wait + Sync, S: Source, K: Sink, E: Sink, G: Gate>(
    rt: &R,
    words: &[String],
    source: &mut S,
    out: &mut K,
    err: &mut E,
    gate: &G,
) -> Status
    // How it ended, and what it said of that on `err`.
    ensures ended { (end : Ending) × (result ≡ status_at end) ×
        Ends (call S.read_gives (map string_bytes words.now) S.left S.faults K.wrote K.faults source.old source.new
        out.old out.new) end
        × Says (err_view E.wrote E.faults E.wants err.old) (err_view E.wrote E.faults E.wants err.new) (line_at end) }

    // So it keeps what its status says: `planned` and the others of `specs/Promises`, for every number of workers and every
    // interleaving.
    ensures keeps { Keeps (call S.read_gives (map string_bytes words.now) S.left S.faults K.wrote K.faults
        source.old source.new out.old out.new) result }
    // And it ends as is due: an input is answered, or refused, where it is within the limit and no port fails.
    ensures completes { Completes (call S.read_gives (map string_bytes words.now) S.left S.faults K.wrote K.faults
        source.old source.new out.old out.new) result }

    // At Usage nothing is read or written: the source is left as it was, whatever it tells.
    ensures nothing_read { result ≡ Status.Usage → (source.new ≡ source.old) × (K.wrote out.new ≡ K.wrote out.old) }
    // So do `make` and `drill` leave it, however they end.
    ensures makes_read_nothing { (request : Request) → Spells (map string_bytes words.now) request
        → limit_of request ≡ None → source.new ≡ source.old }
{
    match work(rt, words, source, out, gate) {
        Ok(status) => status,
        Err(stop) => {
            say(err, stop);
            stop.status()
        }
    }
}
