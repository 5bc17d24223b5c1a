ghost use Rattle.std.specs.Prelude.{◌≡◌, take, OnOk, OnErr};
ghost use Rattle.exact_parts.specs.Appending.{Begins};

use crate::no_memory::NoMemory;

/// Cuts a text back to its first `len` bytes where what was appended behind them found no memory.
#[tactic(auto, using(crate::proofs::Beginnings::begins_steps))]
pub fn cut_if_refused(
    out: &mut Vec<u8>,
    len: usize,
    appended: Result<(), NoMemory>,
) -> Result<(), NoMemory>
    ensures same { result ≡ appended }
    ensures kept { OnOk result (out.new.items ≡ out.old.items) }
    ensures cut { OnErr result (out.new.items ≡ take len out.old.items) }
{
    if appended.is_err() {
        out.truncate(len);
    }
    appended
}
