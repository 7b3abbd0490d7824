//! Lists that contracts see as lists.

ghost use Rattle.std.specs.Prelude.{◌≡◌, ℕ, ◌%◌, ◌<◌, ◌≤◌, List, length, IfOk};

use std::alloc::{AllocError, Global};
use std::marker::Model;

/// A list of bytes.
#[derive(Debug, Drop)]
pub struct Bytes {
    items: Vec<u8>,
}

impl Model for Bytes {
    ghost Value = { List ℕ };

    ghost view = { λ b. b.items.items };
}

impl Bytes {
    /// The bytes of a vector. Takes no memory.
    pub fn from_vec(items: Vec<u8>) -> Bytes
        ensures { result ≡ items.items }
    {
        Bytes { items }
    }

    /// The vector that has these bytes. Takes no memory.
    pub fn into_vec(self) -> Vec<u8>
        ensures { result.items ≡ self }
    {
        let Bytes { items } = self;
        items
    }

    /// Lends the bytes.
    pub fn as_slice(&self) -> &[u8]
        ensures { result.now ≡ self.now }
    {
        &self.items
    }

    /// An equal list, in memory of its own.
    pub fn duplicate(&self, alloc: Global) -> Result<Bytes, AllocError>
        ensures { IfOk result (λ copy. copy ≡ self.now) }
    {
        Ok(Bytes {
            items: Vec::from_slice(alloc, &self.items)?,
        })
    }
}

/// The digests of a path in a Merkle tree, 32 bytes each, from the leaf upwards, one after the
/// other.
#[derive(Debug, Drop)]
pub struct Path {
    digests: Vec<u8>,
}

impl Model for Path {
    ghost Value = { List ℕ };

    ghost view = { λ p. p.digests.items };

    ghost invariant = { λ p. length p.digests.items % 32 ≡ 0 };
}

impl Path {
    /// The digests of a vector. Takes no memory.
    pub fn from_vec(digests: Vec<u8>) -> Path
        requires { length digests.items % 32 ≡ 0 }
        ensures { result ≡ digests.items }
    {
        Path { digests }
    }

    /// The vector that has these digests. Takes no memory.
    pub fn into_vec(self) -> Vec<u8>
        ensures value { result.items ≡ self }
        ensures whole { length result.items % 32 ≡ 0 }
    {
        let Path { digests } = self;
        digests
    }

    /// Lends the digests.
    pub fn as_slice(&self) -> &[u8]
        ensures value { result.now ≡ self.now }
        ensures whole { length self.now % 32 ≡ 0 }
    {
        &self.digests
    }

    /// An equal list, in memory of its own.
    pub fn duplicate(&self, alloc: Global) -> Result<Path, AllocError>
        ensures { IfOk result (λ copy. copy ≡ self.now) }
    {
        Ok(Path {
            digests: Vec::from_slice(alloc, &self.digests)?,
        })
    }
}

/// A list of payloads: what shards send, each a list of bytes.
#[derive(Debug, Drop)]
pub struct Payloads {
    items: Vec<Bytes>,
}

impl Model for Payloads {
    ghost Value = { List (List ℕ) };

    ghost view = { λ p. p.items.items };
}

impl Payloads {
    /// The payloads of a vector. Takes no memory.
    pub fn from_vec(items: Vec<Bytes>) -> Payloads
        ensures { result ≡ items.items }
    {
        Payloads { items }
    }

    /// The vector that has these payloads. Takes no memory.
    pub fn into_vec(self) -> Vec<Bytes>
        ensures { result.items ≡ self }
    {
        let Payloads { items } = self;
        items
    }

    /// Lends the payloads.
    pub fn as_slice(&self) -> &[Bytes]
        ensures { result.now ≡ self.now }
    {
        &self.items
    }

    /// An equal list, in memory of its own.
    pub fn duplicate(&self, alloc: Global) -> Result<Payloads, AllocError>
        ensures { IfOk result (λ copy. copy ≡ self.now) }
    {
        let mut items = Vec::with_capacity(alloc, self.items.len())?;
        for payload in &self.items {
            items.push(payload.duplicate(alloc)?)?;
        }
        Ok(Payloads { items })
    }
}

/// A list of numbers of shards.
#[derive(Debug, Drop)]
pub struct Shards {
    numbers: Vec<u16>,
}

impl Model for Shards {
    ghost Value = { List ℕ };

    ghost view = { λ s. s.numbers.items };
}

impl Shards {
    /// The numbers of a vector. Takes no memory.
    pub fn from_vec(numbers: Vec<u16>) -> Shards
        ensures { result ≡ numbers.items }
    {
        Shards { numbers }
    }

    /// The vector that has these numbers. Takes no memory.
    pub fn into_vec(self) -> Vec<u16>
        ensures { result.items ≡ self }
    {
        let Shards { numbers } = self;
        numbers
    }

    /// Lends the numbers.
    pub fn as_slice(&self) -> &[u16]
        ensures { result.now ≡ self.now }
    {
        &self.numbers
    }

    /// An equal list, in memory of its own.
    pub fn duplicate(&self, alloc: Global) -> Result<Shards, AllocError>
        ensures { IfOk result (λ copy. copy ≡ self.now) }
    {
        Ok(Shards {
            numbers: Vec::from_slice(alloc, &self.numbers)?,
        })
    }
}
