ghost use Rattle.std.specs.Prelude.{◌≡◌, ◌+◌, ◌++◌, ◌∷◌, ◌≤◌, [], take, length};
ghost use Rattle.std.specs.Fmt.{decimal};
ghost use Rattle.plan_command.specs.Lines.{line_of, refusal_line};
ghost use Rattle.plan_command.specs.Run.{err_view, Says};

use crate::flown::flown_why_name;
use crate::pairing::duo_why_name;
use crate::status::{Refusal, Stop};
use byte_ports::{Sink, write_all};
use exact_parts::digits;
use scenario_text::text_kind_name;
use tree_checker::why_name;
use tree_format::plan_kind_name;

// Room for the longest line.
const ROOM: usize = 280;

// Puts a piece behind the first `at` bytes.
fn append(to: &mut [u8; ROOM], at: usize, piece: &[u8]) -> usize
    requires { at + length piece.now ≤ 280 }
    ensures text { take result to.new ≡ take at to.old ++ piece.now }
    ensures len { result ≡ at + length piece.now }
{
    to[at..at + piece.len()].copy_from_slice(piece);
    at + piece.len()
}

// Puts a number behind the first `at` bytes.
fn append_number(to: &mut [u8; ROOM], at: usize, number: u64) -> usize
    requires { at ≤ 100 }
    ensures text { take result to.new ≡ take at to.old ++ decimal number }
    ensures len { result ≤ at + 39 }
{
    let mut places = [0u8; 39];
    let len = digits(u128::from(number), &mut places);
    append(to, at, &places[..len])
}

// The line of a text's first fault: what is bad, the line's number, and the kind.
fn put_fault(to: &mut [u8; ROOM], head: &[u8], line: u64, kind: &[u8]) -> usize
    requires head { length head.now ≤ 40 }
    requires kind { length kind.now ≤ 40 }
    ensures text { take result to.new ≡ head.now ++ decimal line ++ 32 ∷ (kind.now ++ 10 ∷ []) }
    ensures len { result ≤ 280 }
{
    let at = append(to, 0, head);
    let at = append_number(to, at, line);
    let at = append(to, at, b" ");
    let at = append(to, at, kind);
    append(to, at, b"\n")
}

// The line of a reason in one word: what is bad, and the word.
fn put_word(to: &mut [u8; ROOM], head: &[u8], word: &[u8]) -> usize
    requires head { length head.now ≤ 40 }
    requires word { length word.now ≤ 40 }
    ensures text { take result to.new ≡ head.now ++ (word.now ++ 10 ∷ []) }
    ensures len { result ≤ 280 }
{
    let at = append(to, 0, head);
    let at = append(to, at, word);
    append(to, at, b"\n")
}

// The line of a number past its limit.
fn put_limit(to: &mut [u8; ROOM], head: &[u8], limit: u64) -> usize
    requires { length head.now ≤ 40 }
    ensures text { take result to.new ≡ head.now ++ decimal limit ++ 10 ∷ [] }
    ensures len { result ≤ 280 }
{
    let at = append(to, 0, head);
    let at = append_number(to, at, limit);
    append(to, at, b"\n")
}

// The line of a refusal, in memory that is there already.
#[tactic(auto, unfolding(crate::specs::Lines::refusal_line))]
fn put_refusal(refusal: Refusal, to: &mut [u8; ROOM]) -> usize
    ensures text { take result to.new ≡ refusal_line refusal }
    ensures len { result ≤ 280 }
{
    match refusal {
        Refusal::Rejected(at) => {
            put_fault(to, b"rejected ", at.line, why_name(at.why).as_bytes())
        }
        Refusal::BadScenario(fault) => put_fault(
            to,
            b"bad scenario: line ",
            fault.line,
            text_kind_name(fault.kind).as_bytes(),
        ),
        Refusal::BadPlan(fault) => put_fault(
            to,
            b"bad plan: line ",
            fault.line,
            plan_kind_name(fault.kind).as_bytes(),
        ),
        Refusal::BadFlown(why) => put_word(to, b"bad flown: ", flown_why_name(why).as_bytes()),
        Refusal::BadDuo(why) => put_word(to, b"bad duo: ", duo_why_name(why).as_bytes()),
        Refusal::TooManyNodes(limit) => put_limit(to, b"too many nodes: ", limit),
    }
}

// The line, in memory that is there already.
#[tactic(auto, unfolding(crate::specs::Lines::line_of))]
fn put_line(stop: Stop, to: &mut [u8; ROOM]) -> usize
    ensures text { take result to.new ≡ line_of stop }
    ensures len { result ≤ 280 }
{
    match stop {
        Stop::Usage => append(
            to,
            0,
            b"usage: osp plan [--workers N] [--nodes N] / check / report [--json yes] / make NUMBER / drill NUMBER [--workers N] / convert / gap [--workers N] [--nodes N] / checkgap / replan [--workers N] [--nodes N] flown NAME .. / map flown NAME .. / duo [--workers N] [--nodes N] start NAME\n",
        ),
        Stop::ReadFault => append(to, 0, b"read fault\n"),
        Stop::TooLong => append(to, 0, b"input too long\n"),
        Stop::Refused(refusal) => put_refusal(refusal, to),
        Stop::WriteFault => append(to, 0, b"write fault\n"),
        Stop::NoMemory => append(to, 0, b"no memory\n"),
    }
}

/// Says on `err` what stopped the run.
pub fn say<E: Sink>(err: &mut E, stop: Stop)
    ensures { Says (err_view E.wrote E.faults E.wants err.old) (err_view E.wrote E.faults E.wants err.new)
        (line_of stop) }
{
    let mut line = [0u8; ROOM];
    let len = put_line(stop, &mut line);
    let _ = write_all(err, &line[..len]);
}
