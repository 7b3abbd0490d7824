//! Laws of the record of a blob.

ghost use Rattle.std.specs.Prelude.{◌≡◌, ℕ, ◌+◌, ◌<◌, ◌≤◌, ◌↔◌, List, [], true, false, IfSome, IfNone};
ghost use Rattle.std.specs.Prelude.{fold};
ghost use Rattle.wal_record.specs.Follow.{IsTimely, enter, kept};
ghost use Rattle.wal_record.specs.Follow.{IsPosted, Posts, ServesAlike, follow, takes, takes_all};
ghost use Rattle.wal_record.specs.Context.{Context, context_of, step, turn};
ghost use Rattle.wal_record.specs.Questions.{ack_word, attest_word, certificate_in, claim, home_in};
ghost use Rattle.wal_record.specs.Questions.{is_invalid_in, lives, must_hold_in, ready, ready_count, register, signed_at};
ghost use Rattle.wal_record.specs.Record.{BlobRecord, blob_record, no_record, votes_of, within};
ghost use Rattle.wal_record.specs.declared.outcome.Answer.{Answer};
ghost use Rattle.wal_ledger.specs.Answers.{Acks, Attests, IsCertificate, Readies, Registers};
ghost use Rattle.wal_ledger.specs.Kept.{IsLawful};
ghost use Rattle.wal_ledger.specs.Ledger.{IsCertified, IsInvalid, LedgerState, Log, MustHold, entered};
ghost use Rattle.wal_ledger.specs.Ledger.{home_of, is_begin, is_finish, is_live, is_moving, names};
ghost use Rattle.wal_ledger.specs.Ledger.{ready_total, signers, until_of, writing};
ghost use Rattle.wal_ledger.specs.Shards.{committee_size, count_below};
ghost use Rattle.wal_ledger.specs.declared.answers.AckAnswer.{AckAnswer};
ghost use Rattle.wal_ledger.specs.declared.answers.AttestAnswer.{AttestAnswer};
ghost use Rattle.wal_ledger.specs.declared.answers.ReadyAnswer.{ReadyAnswer};
ghost use Rattle.wal_ledger.specs.declared.answers.RegisterAnswer.{RegisterAnswer};
ghost use Rattle.wal_ledger.specs.declared.entry.Body.{Body};
ghost use Rattle.wal_ledger.specs.declared.entry.Kind.{Kind};
ghost use Rattle.wal_ledger.specs.declared.entry.Kind.TheVariants.{Denies, Holds};
ghost use Rattle.wal_shape.specs.Owners.{are_owners};
ghost use Rattle.wal_shape.specs.declared.metadata.BlobId.{BlobId};

/// What a ledger answers of a blob is told by the context and the blob's record.
pub fn questions()
    ensures live { (log : Log) (id : BlobId)
        → is_live log id ≡ lives (context_of log) (blob_record log id) }
    ensures until { (log : Log) (id : BlobId) → until_of log id ≡ (blob_record log id).until }
    ensures signed { (log : Log) (id : BlobId) (kind : Kind) (epoch shard : ℕ) → IsLawful log
        → shard < committee_size log.f → writing log ≤ epoch + 1
        → signed_at (votes_of log id kind) epoch shard ≡ signers log id kind epoch shard }
    ensures home { (log : Log) (id : BlobId) → IsLawful log
        → home_of log id ≡ home_in (context_of log) (blob_record log id) }
    ensures certificate { (log : Log) (id : BlobId) → IsLawful log
        → IfSome (certificate_in (context_of log) (blob_record log id))
        (λ quorum. IsCertificate log id quorum.epoch
        (count_below (committee_size log.f) quorum.signed)
        × (quorum.signed ≡ within (committee_size log.f) (signers log id Holds quorum.epoch)))
        × IfNone (certificate_in (context_of log) (blob_record log id))
        (IsCertified log id → ⊥) }
    ensures invalid { (log : Log) (id : BlobId) → IsLawful log
        → (is_invalid_in (context_of log) (blob_record log id) ≡ true) ↔ IsInvalid log id }
    ensures must_hold { (log : Log) (id : BlobId) → IsLawful log
        → (must_hold_in (context_of log) (blob_record log id) ≡ true) ↔ MustHold log id }
    ensures ready { (log : Log) → ready_total log ≡ ready_count (context_of log) }
{}

/// An entry changes the record of the blob that it names by a step, leaves those of other blobs,
/// and turns the context.
pub fn steps()
    ensures start { (f first : ℕ) (owners : List ℕ) (id : BlobId)
        → blob_record (record { f = f; first = first; owners = owners; entries = [] }) id
        ≡ no_record }
    ensures lawful { (f first : ℕ) (owners : List ℕ) → 1 ≤ f → f ≤ 333 → first ≤ 65535
        → are_owners (committee_size f) owners ≡ true
        → IsLawful (record { f = f; first = first; owners = owners; entries = [] }) }
    ensures taken { (log : Log) (body : Body) → IsLawful log → takes (context_of log) body ≡ true
        → IsLawful (entered log body) }
    ensures named { (log : Log) (body : Body) (id : BlobId) → IsLawful log → names id body ≡ true
        → blob_record (entered log body) id ≡ step (context_of log) (blob_record log id) body }
    ensures other { (log : Log) (body : Body) (id : BlobId) → IsLawful log
        → (is_begin body ≡ true → is_moving log ≡ false) → names id body ≡ false
        → blob_record (entered log body) id ≡ blob_record log id }
    ensures context { (log : Log) (body : Body) → IsLawful log
        → (is_begin body ≡ true → is_moving log ≡ false)
        → (is_finish body ≡ true → is_moving log ≡ true)
        → context_of (entered log body) ≡ turn (context_of log) body }
    ensures run { (id : BlobId) (log : Log) (bodies : List Body) → IsLawful log
        → takes_all (context_of log) bodies ≡ true → IsLawful (fold entered log bodies)
        × (fold (follow id) (record { context = context_of log; blob = blob_record log id }) bodies
        ≡ record {
          context = context_of (fold entered log bodies);
          blob = blob_record (fold entered log bodies) id;
        }) }
{}

/// The answer of a ledger that has room, and the blob's record after it, are told by the context
/// and the record.
pub fn answers()
    ensures register { (old new : LedgerState) (id : BlobId) (until : ℕ) (answer : RegisterAnswer)
        → IsLawful old.log → 0 < old.spare → Registers old id until answer new
        → (answer, blob_record new.log id)
        ≡ register (context_of old.log) (blob_record old.log id) until }
    ensures ack { (old new : LedgerState) (id : BlobId) (shard : ℕ) (answer : AckAnswer)
        → IsLawful old.log → shard < committee_size old.log.f → 0 < old.spare
        → Acks old shard id answer new
        → let told = claim Holds (context_of old.log) (blob_record old.log id) shard in
        (answer ≡ ack_word told.0) × (blob_record new.log id ≡ told.1) }
    ensures attest { (old new : LedgerState) (id : BlobId) (shard : ℕ) (answer : AttestAnswer)
        → IsLawful old.log → shard < committee_size old.log.f → 0 < old.spare
        → Attests old shard id answer new
        → let told = claim Denies (context_of old.log) (blob_record old.log id) shard in
        (answer ≡ attest_word told.0) × (blob_record new.log id ≡ told.1) }
    ensures ready { (old new : LedgerState) (shard : ℕ) (answer : ReadyAnswer) → IsLawful old.log
        → shard < committee_size old.log.f → 0 < old.spare → Readies old shard answer new
        → (answer, context_of new.log) ≡ ready (context_of old.log) shard }
    ensures post { (old new : LedgerState) (body : Body) (answer : Answer) → IsLawful old.log
        → 0 < old.spare → Posts old body answer new → IsPosted old.log body answer new.log }
{}

/// Of a blob that is not live nothing need be kept.
pub fn keeping()
    ensures alike { (context : Context) (blob : BlobRecord) → ServesAlike context blob }
    ensures start { IsTimely no_record }
    ensures entered { (context : Context) (blob : BlobRecord) (body : Body) → IsTimely blob
        → IsTimely (enter context blob body).1 }
    ensures home { (context : Context) (blob : BlobRecord) → IsTimely blob
        → home_in context (kept context blob) ≡ home_in context blob }
{}
