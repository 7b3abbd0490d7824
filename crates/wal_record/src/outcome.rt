//! What entries are answered.

ghost use Rattle.std.specs.Prelude.{◌≡◌};
ghost use Rattle.wal_record.specs.Questions.{ack_word, attest_word};

use wal_ledger::{AckAnswer, AttestAnswer, RegisterAnswer};

/// What is answered where a shard says that it holds a blob, or that a blob is badly encoded.
#[derive(Clone, Copy, Debug, PartialEq, Eq)]
pub enum Said {
    /// So many shards have said so in this epoch, which is no quorum yet.
    Counted(u32),
    /// So many shards have, which is a quorum.
    Quorum(u32),
    /// This shard had said so in this epoch.
    Already,
    /// The blob is not live.
    Unregistered,
    /// The blob is not kept beyond the writing epoch.
    Expires,
}

/// What an entry is answered that names a blob.
#[derive(Clone, Copy, Debug, PartialEq, Eq)]
pub enum Answer {
    /// A registration.
    Registration(RegisterAnswer),
    /// An acknowledgement.
    Acknowledgement(AckAnswer),
    /// An attestation that the blob is badly encoded.
    Attestation(AttestAnswer),
    /// The entry names no blob.
    Nothing,
}

impl Said {
    /// As the ledger answers an acknowledgement.
    pub fn of_ack(self) -> AckAnswer
        ensures { result ≡ ack_word self }
    {
        match self {
            Said::Counted(count) => AckAnswer::Counted(count),
            Said::Quorum(count) => AckAnswer::Certified(count),
            Said::Already => AckAnswer::Already,
            Said::Unregistered => AckAnswer::Unregistered,
            Said::Expires => AckAnswer::Expires,
        }
    }

    /// As the ledger answers an attestation.
    pub fn of_attest(self) -> AttestAnswer
        ensures { result ≡ attest_word self }
    {
        match self {
            Said::Counted(count) => AttestAnswer::Counted(count),
            Said::Quorum(count) => AttestAnswer::Invalid(count),
            Said::Already => AttestAnswer::Already,
            Said::Unregistered => AttestAnswer::Unregistered,
            Said::Expires => AttestAnswer::Expires,
        }
    }
}
