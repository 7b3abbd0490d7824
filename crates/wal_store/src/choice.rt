//! Letting all go that is not chosen, in one pass over a keep.

ghost use Rattle.std.specs.Prelude.{◌≡◌, Bool, if◌then◌else◌};
ghost use Rattle.std.specs.FinMap as map;

use crate::contract::Keep;
use wal_shape::BlobId;

/// A choice among identifiers.
pub trait Choice {
    ghost use Rattle.wal_shape.specs.declared.metadata.BlobId.{BlobId};

    /// Which identifiers are chosen.
    ghost chooses: { Self → BlobId → Bool };

    /// Whether an identifier is chosen.
    fn is_chosen(&self, id: &BlobId) -> bool
        ensures { result ≡ chooses self.now id.now };
}

/// Lets all identifiers go that are not chosen.
pub fn retain<K: Keep, C: Choice>(keep: &mut K, choice: &C)
    ensures retained { K.contents keep.new
        ≡ map.retain_keys (K.contents keep.old) (C.chooses choice.now) }
    ensures limit { K.limit keep.new ≡ K.limit keep.old }
{
    let mut last = None;
    for _ in 0..keep.count() {
        match keep.next_id(last) {
            Some(id) => {
                drop_unchosen(keep, choice, &id);
                last = Some(id);
            }
            None => return,
        }
    }
}

/// Lets an identifier go that is not chosen.
fn drop_unchosen<K: Keep, C: Choice>(keep: &mut K, choice: &C, id: &BlobId)
    ensures kept { K.contents keep.new
        ≡ (if C.chooses choice.now id.now then K.contents keep.old
        else map.remove (K.contents keep.old) id.now) }
    ensures limit { K.limit keep.new ≡ K.limit keep.old }
{
    if !choice.is_chosen(id) {
        keep.drop_id(id);
    }
}
