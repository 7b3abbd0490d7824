//! Certificates of blobs.

ghost use Rattle.std.specs.Prelude.{◌≡◌, IfOk, IfErr};
ghost use Rattle.wal_ledger.specs.Shards.{committee_size, count_below};
ghost use Rattle.wal_ledger.specs.Ledger.{IsCertified, acknowledgers, writing};
ghost use Rattle.wal_ledger.specs.Answers.{IsCertificate};

use crate::answers::{Certificate, Pending};
use wal_ledger::Ledger;
use wal_shape::BlobId;

/// The certificate of a live blob. Takes no memory.
pub fn certificate(id: &BlobId, ledger: &Ledger) -> Result<Certificate, Pending>
    ensures id { IfOk result (λ c. c.id ≡ id.now) }
    ensures certified { IfOk result (λ c. IsCertificate ledger.now.log id.now c.epoch c.count) }
    ensures pending { IfErr result (λ _. IsCertified ledger.now.log id.now → ⊥) }
    ensures count { IfErr result
        (λ p. p.0 ≡ count_below (committee_size ledger.now.log.f)
        (acknowledgers ledger.now.log id.now (writing ledger.now.log))) }
{
    match ledger.certificate(id) {
        Some((epoch, count)) => Ok(Certificate {
            id: *id,
            epoch,
            count,
        }),
        None => Err(Pending(ledger.acks(id))),
    }
}
