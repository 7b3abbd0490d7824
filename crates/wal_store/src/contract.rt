//! What each keep is: a finite map from identifiers to holdings.

ghost use Rattle.std.specs.Prelude.{◌≡◌, ℕ, ◌+◌, ◌<◌, ◌≤◌, Bool, false, not, List, [], Option};
ghost use Rattle.std.specs.Prelude.{Some, None, IsSome, IfSome, OnOk, OnErr, length, take, drop};
ghost use Rattle.std.specs.Prelude.{slice_get, unwrap_or};
ghost use Rattle.std.specs.Option.{option_map};
ghost use Rattle.std.specs.FinMap as map;
ghost use Rattle.wal_shape.specs.Shape.{most_bytes};
ghost use Rattle.wal_store.specs.Parts.{is_empty};
ghost use Rattle.wal_store.specs.Contents.{Contents, parts_at, cost, part_at, with_bytes};
ghost use Rattle.wal_store.specs.Contents.{without_part};
ghost use Rattle.wal_store.specs.Answer.{IsPutAnswer};
ghost use Rattle.wal_store.specs.Places.{next_id};

use wal_shape::{BlobId, Part};

/// Why a part is not stored.
#[derive(Clone, Copy, Debug, PartialEq, Eq, Drop)]
pub enum KeepError {
    /// More pages are needed than are free.
    Full {
        /// The pages of the part, and one more for a new identifier.
        needed: u32,
        /// The limit less the pages of all holdings.
        free: u32,
    },
    /// There was no memory.
    Memory,
}

/// A finite map from identifiers to holdings of up to four parts.
///
/// A page has 4,096 bytes. A holding costs one page, and each of its parts the pages that its bytes
/// fill. A holding without parts is gone.
pub trait Keep {
    /// What is held under each identifier.
    ghost contents: { Self → Contents };

    /// The most pages that all holdings may cost, where there is such a limit.
    ghost limit: { Self → Option ℕ };

    /// Whether a put may answer that there was no memory.
    ghost may_want: { Bool };

    /// Stores the bytes of a part. A refusal changes nothing.
    fn put(&mut self, id: &BlobId, part: Part, bytes: &[u8]) -> Result<(), KeepError>
        requires absent { part_at (contents self.old) id.now part ≡ None }
        requires some { 1 ≤ length bytes.now }
        requires most { length bytes.now ≤ most_bytes }
        ensures stored { OnOk result
            (contents self.new ≡ with_bytes (contents self.old) id.now part bytes.now) }
        ensures refused { OnErr result (contents self.new ≡ contents self.old) }
        ensures answer { IsPutAnswer (limit self.old) may_want
            (contents self.old) id.now bytes.now result }
        ensures limit { limit self.new ≡ limit self.old };

    /// The number of bytes of a part, where it is held. An identifier has a holding exactly where a
    /// part is held under it.
    fn size(&self, id: &BlobId, part: Part) -> Option<u32>
        ensures value { result ≡ option_map length (part_at (contents self.now) id.now part) }
        ensures there { map.contains_key (contents self.now) id.now
            ≡ not (is_empty (parts_at (contents self.now) id.now)) }
        ensures range { IfSome result (λ n. (1 ≤ n) × (n ≤ most_bytes)) };

    /// Copies the bytes of a part that stand from a place on.
    fn copy(&self, id: &BlobId, part: Part, at: u32, out: &mut [u8])
        requires held { IsSome (part_at (contents self.now) id.now part) }
        requires range { at + length out.old
            ≤ length (unwrap_or (part_at (contents self.now) id.now part) []) }
        ensures { out.new
            ≡ take (length out.old)
            (drop at (unwrap_or (part_at (contents self.now) id.now part) [])) };

    /// Lets a part go. What is not held stays so.
    fn drop_part(&mut self, id: &BlobId, part: Part)
        ensures dropped { contents self.new ≡ without_part (contents self.old) id.now part }
        ensures limit { limit self.new ≡ limit self.old };

    /// Lets all parts of an identifier go.
    fn drop_id(&mut self, id: &BlobId)
        ensures dropped { contents self.new ≡ map.remove (contents self.old) id.now }
        ensures limit { limit self.new ≡ limit self.old };

    /// How many identifiers have a holding.
    fn count(&self) -> u32
        ensures value { result ≡ map.len (contents self.now) }
        ensures budget { IfSome (limit self.now) (λ most. cost (contents self.now) ≤ most) };

    /// The identifier at a place, in ascending order of their bytes. Its holding has a part.
    fn id_at(&self, place: u32) -> BlobId
        requires { place < map.len (contents self.now) }
        ensures value { slice_get (map.keys (contents self.now)) place ≡ Some result }
        ensures kept { is_empty (parts_at (contents self.now) result) ≡ false };

    /// The first identifier past this one, in ascending order of their bytes, or the first of all.
    /// So one pass over a keep asks for each identifier once, and may let it go.
    fn next_id(&self, last: Option<BlobId>) -> Option<BlobId>
        ensures value { result ≡ next_id (contents self.now) last }
        ensures kept { IfSome result (λ id. is_empty (parts_at (contents self.now) id) ≡ false) };
}
