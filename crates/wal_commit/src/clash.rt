//! Two metadata with one identifier show two texts with one digest.

ghost use Rattle.std.specs.Prelude.{◌≡◌, ◌≢◌};
ghost use Rattle.wal_shape.specs.MetaRef.{metadata_shown};
ghost use Rattle.wal_tree.specs.Collision.{IsCollision};
ghost use Rattle.wal_commit.specs.Identifier.{AreDigestedFor, identifier_of, identifier_text};

use crate::identifier::{split_spelling, tag_of};
use wal_shape::{MetaClash, MetaRef, ShortText};
use wal_tree::{Hash32, collide_short_lists, root, short_text};

/// The bytes of a pair of roots.
const PAIR: u32 = 64;

/// Two texts with one digest, which two metadata of one identifier differ in: what the identifiers
/// digest, or else, on the way up from the first pair of roots that differs, the lowest leaf or
/// node whose digests agree. Takes no memory.
pub fn collide_metadata<H: Hash32>(a: MetaRef<'_>, b: MetaRef<'_>) -> MetaClash
    requires differ { metadata_shown a ≢ metadata_shown b }
    requires one { identifier_of H.digest (metadata_shown a)
        ≡ identifier_of H.digest (metadata_shown b) }
    ensures collision { IsCollision H.digest result.left result.right }
    // The left text is the first metadata's, and the right one the other's.
    ensures texts { AreDigestedFor H.digest (metadata_shown a.entry)
        (metadata_shown b.entry) result.left result.right }
{
    let left = identified::<H>(a);
    let right = identified::<H>(b);
    if left.bytes() != right.bytes() {
        return MetaClash { left, right };
    }
    let (_, pairs_a) = split_spelling(a);
    let (_, pairs_b) = split_spelling(b);
    collide_short_lists::<H>(pairs_a, pairs_b, PAIR)
}

/// The text of the identifier of the metadata.
fn identified<H: Hash32>(m: MetaRef<'_>) -> ShortText
    ensures { result ≡ identifier_text H.digest (metadata_shown m.entry) }
{
    let (head, pairs) = split_spelling(m);
    short_text(tag_of(m.format()), head, &root::<H>(pairs, PAIR))
}
