//! The requests that have one answer.

ghost use Rattle.std.specs.Prelude.{◌≡◌, ◌≤◌, ◌<◌, true, false, Ok};
ghost use Rattle.wal_ledger.specs.Shards.{committee_size};
ghost use Rattle.wal_frame.specs.Shown.{frame_shown};
ghost use Rattle.wal_ledger.specs.declared.entry.Kind.TheVariants.{Holds, Denies};
ghost use Rattle.wal_shard.specs.Putting.{CanBePut};
ghost use Rattle.wal_serve.specs.Reply.{no_request};
ghost use Rattle.wal_serve.specs.inside.Reply.{HasCode};
ghost use Rattle.wal_serve.specs.Requests.{Registered, Vouched, Entered};
ghost use Rattle.wal_serve.specs.Answers.{AnswersEntry, AnswersForget, AnswersPut};
ghost use Rattle.wal_serve.specs.inside.Requests.{IsNoRequest};
ghost use Rattle.wal_serve.specs.inside.Session.{Gives, Stays, served};

use crate::reply::{
    Reply, ack_reply, attest_reply, done, put_reply, refusal_reply, refused, register_reply, unfit,
};
use crate::session::Session;
use wal_frame::FrameRef;
use wal_shape::{BlobId, MetaClash};
use wal_shard::Declined;
use wal_store::Keep;
use wal_tree::Hash32;

impl<H: Hash32, K: Keep> Session<'_, H, K> {
    /// A metadata, a sliver or a proof is put to the shard.
    pub(crate) fn put(&mut self, frame: &FrameRef<'_>) -> Result<Reply, MetaClash>
        requires part { CanBePut (frame_shown frame.now) }
        ensures gives { Gives (AnswersPut H.digest K.may_want (frame_shown frame.now))
            self.old result self.new }
        ensures stays { Stays self.old self.new }
        ensures code { HasCode result }
        ensures part { CanBePut (frame_shown frame.now) }
    {
        put_reply(self.shard.put(self.work, self.state.ledger(), frame))
    }

    /// The shard is asked to acknowledge a blob.
    pub(crate) fn acknowledge(&mut self, id: &BlobId) -> Reply
        ensures gives { Gives (AnswersEntry (Vouched Holds (served self.old) id.now))
            self.old (Ok result) self.new }
        ensures stays { Stays self.old self.new }
        ensures code { result.code ≤ 15 }
    {
        match self.shard.acknowledge(self.state.ledger(), id) {
            Ok(()) => ack_reply(self.state.ack(self.shard.index(), id)),
            Err(refusal) => refusal_reply(refusal),
        }
    }

    /// The shard is asked to attest that a blob is badly encoded.
    pub(crate) fn attest(&mut self, id: &BlobId) -> Reply
        ensures gives { Gives (AnswersEntry (Vouched Denies (served self.old) id.now))
            self.old (Ok result) self.new }
        ensures stays { Stays self.old self.new }
        ensures code { result.code ≤ 15 }
    {
        match self.shard.attest(self.state.ledger(), id) {
            Ok(()) => attest_reply(self.state.attest(self.shard.index(), id)),
            Err(refusal) => refusal_reply(refusal),
        }
    }

    /// The shard is asked to forget the slivers of a blob.
    pub(crate) fn forget(&mut self, id: &BlobId) -> Reply
        ensures gives { Gives (AnswersForget id.now) self.old (Ok result) self.new }
        ensures stays { Stays self.old self.new }
        ensures code { result.code ≤ 15 }
    {
        match self.shard.forget(self.state.ledger(), id) {
            Ok(()) => done(0),
            Err(Declined) => refused(5),
        }
    }

    /// A blob is registered.
    pub(crate) fn register(&mut self, id: &BlobId, until: u32) -> Reply
        ensures gives { Gives (AnswersEntry (Registered (served self.old).ledger id.now until))
            self.old (Ok result) self.new }
        ensures stays { Stays self.old self.new }
        ensures code { result.code ≤ 15 }
    {
        let moving = self.state.ledger().moving();
        prove!(!moving);
        register_reply(self.state.register(id, until))
    }

    /// Whether a shard is of the committee.
    fn is_shard(&self, shard: u16) -> bool
        ensures is { result ≡ true → shard < committee_size (served self.now).ledger.log.f }
        ensures not { result ≡ false → shard < committee_size (served self.now).ledger.log.f → ⊥ }
    {
        u32::from(shard) <= 3 * self.state.f()
    }

    /// A shard's acknowledgement is entered.
    pub(crate) fn enter_ack(&mut self, shard: u16, id: &BlobId) -> Reply
        ensures gives { Gives (AnswersEntry (Entered Holds (served self.old).ledger shard id.now))
            self.old (Ok result) self.new }
        ensures stays { Stays self.old self.new }
        ensures code { result.code ≤ 15 }
    {
        if !self.is_shard(shard) {
            return unfit(6);
        }
        ack_reply(self.state.ack(shard, id))
    }

    /// A shard's attestation is entered.
    pub(crate) fn enter_attest(&mut self, shard: u16, id: &BlobId) -> Reply
        ensures gives { Gives (AnswersEntry (Entered Denies (served self.old).ledger shard id.now))
            self.old (Ok result) self.new }
        ensures stays { Stays self.old self.new }
        ensures code { result.code ≤ 15 }
    {
        if !self.is_shard(shard) {
            return unfit(6);
        }
        attest_reply(self.state.attest(shard, id))
    }
}

/// A frame that is no request.
pub(crate) fn refuse(_frame: &FrameRef<'_>) -> Reply
    requires { IsNoRequest (frame_shown _frame.now) }
    ensures value { result ≡ no_request }
    ensures none { IsNoRequest (frame_shown _frame.now) }
    ensures code { result.code ≤ 15 }
{
    unfit(5)
}
