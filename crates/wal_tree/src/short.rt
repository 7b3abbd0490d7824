//! Short texts that a digest is taken of.

ghost use Rattle.std.specs.Prelude.{◌≡◌, ◌+◌, ◌≤◌, ◌∷◌, ◌++◌, length};
ghost use Rattle.wal_tree.specs.Path.{parent_text};

use crate::hash::Digest;
use crate::parts::put;
use wal_shape::ShortText;

/// The text of a prefix and two parts, of at most 64 bytes together. Takes no memory.
pub fn short_text(prefix: u8, first: &[u8], second: &[u8]) -> ShortText
    requires { length first.now + length second.now ≤ 64 }
    ensures { result ≡ prefix ∷ (first.now ++ second.now) }
{
    let mut text = [0; 65];
    let middle = 1 + first.len();
    let end = middle + second.len();
    text[0] = prefix;
    put(&mut text, 1, first);
    put(&mut text, middle, second);
    ShortText::create(&text[..end])
}

/// The text whose digest stands above the entry at this place and its sibling.
pub(crate) fn parent_text_of(place: u16, entry: &Digest, sibling: &[u8]) -> ShortText
    requires { length sibling.now ≡ 32 }
    ensures { result ≡ parent_text place entry.now sibling.now }
{
    if place % 2 == 0 {
        short_text(1, entry, sibling)
    } else {
        short_text(1, sibling, entry)
    }
}
