//! Numbers as decimal text.

ghost use Rattle.std.specs.Prelude.{◌≡◌, ◌<◌, ◌+◌, ◌++◌, drop, length, vec_len, vec_capacity, OnOk, OnErr};
ghost use Rattle.std.specs.Fmt.{decimal};

use crate::no_memory::NoMemory;
use itoa::Buffer;

/// Writes the decimal text of `n` at the front of `to`, leaves the rest of `to` as it is, and answers the text's length.
pub fn digits(n: u128, to: &mut [u8; 39]) -> usize
    ensures text { to.new ≡ decimal n ++ drop result to.old }
    ensures len { result ≡ length (decimal n) }
{
    let mut buffer = Buffer::new();
    let text = buffer.format(n).as_bytes();
    to[..text.len()].copy_from_slice(text);
    text.len()
}

/// Appends the decimal text of `n`. At `NoMemory` nothing is appended.
pub fn push_u128(out: &mut Vec<u8>, n: u128) -> Result<(), NoMemory>
    ensures ok { OnOk result (out.new.items ≡ out.old.items ++ decimal n) }
    ensures err { OnErr result (out.new.items ≡ out.old.items) }
    ensures full { OnErr result (vec_capacity out.old < vec_len out.old + length (decimal n)) }
{
    let mut buffer = Buffer::new();
    out.extend_from_slice(buffer.format(n).as_bytes())?;
    Ok(())
}
