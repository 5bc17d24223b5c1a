ghost use Rattle.std.specs.Prelude.{◌≡◌, ◌≤◌, length, take, drop, min};

use std::marker::Model;

/// Bytes that are given from their front on, seen as those still to come.
#[derive(Drop)]
pub(crate) struct Unread {
    bytes: Vec<u8>,
    at: usize,
}

impl Model for Unread {
    ghost use Rattle.std.specs.Prelude.{◌≤◌, List, ℕ, length, drop};

    ghost Value = { List ℕ };

    ghost view = { λ u. drop u.at u.bytes.items };

    ghost invariant = { λ u. u.at ≤ length u.bytes.items };
}

impl Unread {
    pub(crate) fn new(bytes: Vec<u8>) -> Unread
        ensures { result ≡ bytes.items }
    {
        Unread { bytes, at: 0 }
    }

    /// Gives the first bytes, at most `most` and as many as `to` has room for.
    pub(crate) fn give(&mut self, most: usize, to: &mut [u8]) -> usize
        ensures count { result ≡ min (min most (length to.old)) (length self.old) }
        ensures bytes { take result to.new ≡ take result self.old }
        ensures left { self.new ≡ drop result self.old }
    {
        let rest = &self.bytes[self.at..];
        let count = most.min(to.len()).min(rest.len());
        to[..count].copy_from_slice(&rest[..count]);
        self.at += count;
        count
    }
}
