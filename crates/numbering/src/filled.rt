// Tables of a fixed size, of which the front is filled.
ghost use Rattle.std.specs.Prelude.{◌≡◌, ◌+◌, ◌<◌, ◌≤◌, List, [], ◌∷◌, ◌++◌, length, take, IsTrue, ◌↔◌};

use keys::Pair;
use std::marker::Model;

// At most `N` values, which contracts see as a list.
#[derive(Drop)]
pub struct Filled<T, const N: usize> {
    pub(crate) items: [T; N],
    pub(crate) len: usize,
}

impl<T, const N: usize> Model for Filled<T, N> {
    ghost Value = { List T };

    ghost view = { λ s. take s.len s.items };

    ghost invariant = { λ s. s.len ≤ N };
}

// At most 512 numbers.
pub type Indices = Filled<u16, 512>;

// At most 2,048 pairs.
pub type Pairs = Filled<Pair, 2048>;

impl<T, const N: usize> Filled<T, N> {
    pub fn as_slice(&self) -> &[T]
        ensures values { result.now ≡ self.now }
        ensures few { length self.now ≤ N }
    {
        &self.items[..self.len]
    }
}

impl<T: Copy, const N: usize> Filled<T, N> {
    // No values. The slots hold one that doesn't count.
    pub(crate) fn new(slot: T) -> Filled<T, N>
        ensures { result ≡ [] }
    {
        Filled {
            items: [slot; N],
            len: 0,
        }
    }

    pub(crate) fn is_full(&self) -> bool
        ensures full { IsTrue result ↔ (N ≤ length self.now) }
        ensures few { length self.now ≤ N }
    {
        self.len == N
    }

    // The first `len` values of a table.
    pub(crate) fn front(items: [T; N], len: usize) -> Filled<T, N>
        requires { len ≤ N }
        ensures { result ≡ take len items }
    {
        Filled { items, len }
    }

    // Puts a value after the others.
    pub(crate) fn push(&mut self, value: T)
        requires { length self.old < N }
        ensures { self.new ≡ self.old ++ value ∷ [] }
    {
        self.items[self.len] = value;
        self.len += 1;
    }
}
