//! Pairs of texts that a collision is shown by.

ghost use Rattle.std.specs.Prelude.{◌≡◌, ℕ, ◌<◌, ◌≤◌, List, All, length, take};

use crate::lists::Bytes;
use std::marker::Model;

/// Two texts that have one digest.
#[derive(Debug, Drop)]
pub struct Collision {
    pub left: Bytes,
    pub right: Bytes,
}

/// The most bytes of a short text.
const MOST: usize = 65;

/// A text of at most 65 bytes, in place.
///
/// The texts that a tree or an identifier digests are no longer, but for leaves of symbols.
#[derive(Debug, Drop)]
pub struct ShortText {
    bytes: [u8; MOST],
    size: u8,
}

impl Model for ShortText {
    ghost Value = { List ℕ };

    ghost view = { λ t. take t.size t.bytes };

    ghost invariant = { λ t. (t.size ≤ 65) × All (λ b. b < 256) (take t.size t.bytes) };
}

impl ShortText {
    /// A copy of the bytes. Takes no memory.
    pub fn create(bytes: &[u8]) -> ShortText
        requires { length bytes.now ≤ 65 }
        ensures { result ≡ bytes.now }
    {
        let mut text = [0; MOST];
        text[..bytes.len()].copy_from_slice(bytes);
        ShortText {
            bytes: text,
            size: bytes.len() as u8,
        }
    }

    /// Lends the bytes.
    pub fn bytes(&self) -> &[u8]
        ensures value { result.now ≡ self.now }
        ensures size { length result.now ≤ 65 }
        ensures range { All (λ b. b < 256) result.now }
    {
        &self.bytes[..usize::from(self.size)]
    }
}

/// Two texts that have one digest: what metadata of one identifier differ in.
#[derive(Debug, Drop)]
pub struct MetaClash {
    pub left: ShortText,
    pub right: ShortText,
}
