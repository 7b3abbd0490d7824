//! What holds after any list of gets.

ghost use Rattle.std.specs.Prelude.{◌≡◌, ℕ, ◌<◌, ◌≤◌, List, [], slice_index};
ghost use Rattle.wal_shape.specs.declared.metadata.BlobId.{BlobId};
ghost use Rattle.wal_shape.specs.Spelling.{metadata_text};
ghost use Rattle.wal_tree.specs.Collision.{CanCollide};
ghost use Rattle.wal_evidence.specs.declared.evidence.Evidence.{Evidence};
ghost use Rattle.wal_theorem.specs.OfBytes.{BasisOfBytes};
ghost use Rattle.wal_gateway.specs.declared.answer.GetAnswer.{GetAnswer as AnswerOf};
ghost use Rattle.wal_gateway.specs.Getting.{AnswersAll, Cache, Get};
ghost use Rattle.wal_gateway.specs.Gotten.{AreOnlyAnswers};
ghost use Rattle.wal_gateway.specs.Kept.{ContradictsKept, IsSoundCache};

use wal_tree::Hash32;

/// After any list of gets from an empty list, each blob in the list has its identifier, no
/// identifier is there twice, and the list is at most as long as it may be.
pub fn gets_are_sound<H: Hash32>()
    ensures empty { (capacity : ℕ) → 1 ≤ capacity
        → IsSoundCache H.digest (record { pairs = []; capacity = capacity }) }
    ensures kept { (start : Cache) (gets : List Get) (answers : List AnswerOf) (left : Cache)
        → AnswersAll H.digest start gets answers left → IsSoundCache H.digest start
        → IsSoundCache H.digest left }
{}

/// Any list of gets has one answer each, and leaves one list; the two texts of a collision are not
/// compared.
pub fn gets_have_one_answer<H: Hash32>()
    ensures gets { (start : Cache) (gets : List Get) (answers : List AnswerOf) (left : Cache)
        → AnswersAll H.digest start gets answers left
        → AreOnlyAnswers H.digest start gets answers left }
{}

/// Evidence spelled in bytes that contradicts a blob in a sound list makes it impossible that no
/// two texts of bytes have one digest.
pub fn contrary_evidence_collides<H: Hash32>()
    ensures { (cache : Cache) (id : BlobId) (e : Evidence) → IsSoundCache H.digest cache
        → ContradictsKept H.digest cache id e
        → ((i : ℕ) → slice_index (metadata_text e.metadata) i < 256) → BasisOfBytes e.basis
        → CanCollide H.digest }
{}
