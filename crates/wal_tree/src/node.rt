ghost use Rattle.std.specs.Prelude.{◌≡◌};
ghost use Rattle.wal_tree.specs.Tree.{leaf, node};

use crate::hash::{Digest, Hash32};

/// The entry that completes a level of odd length.
pub const EMPTY: Digest = [0; 32];

/// The digest of the leaf with this content: that of `0x00` and the content (RFC 6962, section
/// 2.1).
pub fn leaf_digest<H: Hash32>(content: &[u8]) -> Digest
    ensures { result ≡ leaf H.digest content.now }
{
    H::hash3(b"", &[0], content)
}

/// The digest of the inner node with these children.
pub fn join<H: Hash32>(left: &Digest, right: &Digest) -> Digest
    ensures { result ≡ node H.digest left.now right.now }
{
    H::hash3(&[1], left, right)
}
