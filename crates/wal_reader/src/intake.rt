//! Taking a stream in pieces.

ghost use Rattle.std.specs.Prelude.{◌≡◌, ◌+◌, ◌<◌, ◌≤◌, ◌↔◌, ℕ, List, [], ◌++◌, length};
ghost use Rattle.std.specs.Prelude.{slice_index, true, false, IsOk, IfOk, OnOk, Err, IfErr, IsTrue};
ghost use Rattle.wal_frame.specs.Frame.{envelope};
ghost use Rattle.wal_frame.specs.Stream as stream;
ghost use Rattle.wal_reader.specs.Heard.{HasHeard, IsSettledState};
ghost use Rattle.wal_reader.specs.Outcome.{IsAnswer};
ghost use Rattle.wal_reader.specs.Settled.{IsSettled};
ghost use Rattle.wal_reader.specs.Standing.{FinishesStream};
ghost use Rattle.wal_reader.specs.declared.errors.FinishError.TheVariants as finish;
ghost use Rattle.wal_reader.specs.declared.errors.FeedError.TheVariants.{TooLong};
ghost use Rattle.wal_reader.specs.Intake.{IsCut, StandsAt};
ghost use Rattle.wal_reader.specs.inside.Intake.{CannotMatter, HasRoom, Hears, IsLacking, IsSound};
ghost use Rattle.wal_reader.specs.inside.Intake.{IsUnfinished, Moves, Refuses, Takes, shown};

use crate::errors::{FeedError, FinishError};
use crate::heard::Heard;
use crate::outcome::ReadAnswer;
use std::alloc::{AllocError, Global};
use wal_frame::{Envelope, envelope, size_in};
use wal_shape::BlobId;
use wal_tree::Hash32;

/// The most bytes of a stream that are taken.
const LIMIT: u64 = 134_217_728;

/// The length of an envelope's head.
const HEAD: usize = 7;

/// The length of the longest metadata in its envelope.
const ROOM: usize = 64_019;

/// What is kept of a stream.
#[derive(Drop)]
pub(crate) struct Intake<H: Hash32> {
    /// The payloads of its whole envelopes, as far as they can matter.
    pub(crate) heard: Heard<H>,
    /// The number of bytes that were taken.
    pub(crate) taken: u64,
    /// The place where the envelope begins that is not all there.
    pub(crate) place: u64,
    /// The bytes of that envelope.
    pub(crate) kept: Vec<u8>,
    /// The number of bytes that are missing of it, where it is read past.
    pub(crate) missing: u64,
}

/// The number of bytes that are missing of a head, or behind a whole head of an envelope.
fn lacking(bytes: &[u8]) -> u64
    requires { IsUnfinished bytes.now }
    ensures some { 0 < result }
    ensures head { length bytes.now < 7 → length bytes.now + result ≡ 7 }
    ensures size { 7 ≤ length bytes.now → length bytes.now + result ≡ 7 + stream.size_in bytes.now }
    ensures whole { 7 ≤ length bytes.now → IsLacking bytes.now result }
{
    if bytes.len() < HEAD {
        return (HEAD - bytes.len()) as u64;
    }
    7 + u64::from(size_in(bytes)) - bytes.len() as u64
}

/// Hears the payload of the envelope that the bytes are, if it is whole.
fn hear_whole<H: Hash32>(
    alloc: Global,
    heard: &mut Heard<H>,
    bytes: &[u8],
) -> Result<bool, AllocError>
    requires { slice_index bytes.now 0 ≡ 0x57 }
    ensures hears { IfOk result (Hears H.digest bytes.now heard.old heard.new) }
    ensures memory { IsSettledState heard.old → IsOk result × IsSettledState heard.new }
{
    match envelope(bytes) {
        Envelope::Whole { payload, .. } => {
            heard.hear(alloc, payload)?;
            Ok(true)
        }
        Envelope::Part => Ok(false),
        Envelope::Wrong => unreachable!(),
    }
}

/// The answer from what was heard.
fn answer_of<H: Hash32>(alloc: Global, heard: Heard<H>) -> Result<ReadAnswer, FinishError>
    ensures answer { (id : List ℕ) (payloads : List (List ℕ)) → HasHeard H.digest id heard payloads
        → IfOk result (IsAnswer H.digest id payloads) }
    ensures memory { IfErr result (λ e. e ≡ finish.Memory) }
{
    match heard.answer(alloc) {
        Ok(answer) => Ok(answer),
        Err(_) => Err(FinishError::Memory),
    }
}

impl<H: Hash32> Intake<H> {
    /// Nothing was taken. The buffer is taken for the longest metadata.
    pub(crate) fn create(alloc: Global, id: &BlobId) -> Result<Intake<H>, AllocError>
        ensures { IfOk result (λ i. IsSound (shown i) × StandsAt H.digest id.now.0 (shown i) []) }
    {
        let kept = Vec::with_capacity(alloc, ROOM)?;
        let heard = Heard::create(alloc, id);
        Ok(Intake {
            heard,
            taken: 0,
            place: 0,
            kept,
            missing: 0,
        })
    }

    /// Whether the payload of the envelope that is kept is too long to matter.
    fn is_too_long(&self) -> bool
        ensures too_long { result ≡ true
            → (7 ≤ length self.now.kept.items)
            × CannotMatter H.digest self.now.heard (stream.size_in self.now.kept.items) }
        ensures other { result ≡ false → HasRoom (shown self.now) }
    {
        self.kept.len() >= HEAD && u64::from(size_in(&self.kept)) > self.heard.most()
    }

    /// Begins to read past the envelope that is kept.
    fn pass_over(&mut self)
        requires sound { IsSound (shown self.old) }
        requires kept { self.old.missing ≡ 0 }
        requires head { 7 ≤ length self.old.kept.items }
        requires past { CannotMatter H.digest self.old.heard (stream.size_in self.old.kept.items) }
        ensures takes { Takes H.digest (shown self.old) (shown self.new) [] }
        ensures some { 0 < self.new.missing }
        ensures none { self.new.kept.items ≡ [] }
        ensures sound { IsSound (shown self.new) }
        ensures same { (self.new.heard ≡ self.old.heard) × (self.new.taken ≡ self.old.taken) }
    {
        self.missing = lacking(&self.kept);
        self.kept.clear();
    }

    /// Reads past bytes of the envelope that is read past.
    fn pass<'a>(&mut self, piece: &'a [u8]) -> &'a [u8]
        requires sound { IsSound (shown self.old) }
        requires past { 0 < self.old.missing }
        requires none { self.old.kept.items ≡ [] }
        requires some { 0 < length piece.now }
        requires limit { self.old.taken + length piece.now ≤ 134217728 }
        ensures { Moves H.digest (shown self.old) (shown self.new) piece.now result.now }
    {
        let count = self.missing.min(piece.len() as u64);
        self.missing -= count;
        self.taken += count;
        let left = &piece[count as usize..];
        if self.missing > 0 {
            return left;
        }
        self.place = self.taken;
        left
    }

    /// Keeps bytes of an envelope, and hears its payload once it is whole.
    fn keep<'a>(&mut self, alloc: Global, piece: &'a [u8]) -> Result<&'a [u8], AllocError>
        requires sound { IsSound (shown self.old) }
        requires kept { self.old.missing ≡ 0 }
        requires some { 0 < length piece.now }
        requires limit { self.old.taken + length piece.now ≤ 134217728 }
        requires first { slice_index (self.old.kept.items ++ piece.now) 0 ≡ 0x57 }
        requires room { HasRoom (shown self.old) }
        ensures moves { IfOk result
            (λ left. Moves H.digest (shown self.old) (shown self.new) piece.now left.now) }
        ensures memory { IsSettledState self.old.heard → IsOk result }
    {
        let count = lacking(&self.kept).min(piece.len() as u64);
        self.kept.extend_from_slice(&piece[..count as usize])?;
        self.taken += count;
        let left = &piece[count as usize..];
        if hear_whole(alloc, &mut self.heard, &self.kept)? {
            self.kept.clear();
            self.place = self.taken;
            return Ok(left);
        }
        Ok(left)
    }

    /// Hears the payload of a whole envelope behind the ones that were taken.
    fn hear(&mut self, alloc: Global, payload: &[u8]) -> Result<(), AllocError>
        requires sound { IsSound (shown self.old) }
        requires none { self.old.kept.items ≡ [] }
        requires kept { self.old.missing ≡ 0 }
        requires limit { self.old.taken + 7 + length payload.now ≤ 134217728 }
        requires fits { stream.IsPayload payload.now }
        ensures takes { OnOk result ((sender : ℕ)
            → Takes H.digest (shown self.old) (shown self.new) (envelope sender payload.now)) }
        ensures count { OnOk result (self.new.taken ≡ self.old.taken + 7 + length payload.now) }
        ensures sound { OnOk result (IsSound (shown self.new)) }
        ensures memory { IsSettledState self.old.heard
            → IsOk result × IsSettledState self.new.heard }
    {
        self.heard.hear(alloc, payload)?;
        self.taken += 7 + payload.len() as u64;
        self.place = self.taken;
        Ok(())
    }

    /// Takes the front of a piece behind whole envelopes.
    fn begin<'a>(&mut self, alloc: Global, piece: &'a [u8]) -> Result<&'a [u8], FeedError>
        requires sound { IsSound (shown self.old) }
        requires none { self.old.kept.items ≡ [] }
        requires kept { self.old.missing ≡ 0 }
        requires some { 0 < length piece.now }
        requires limit { self.old.taken + length piece.now ≤ 134217728 }
        ensures moves { IfOk result
            (λ left. Moves H.digest (shown self.old) (shown self.new) piece.now left.now) }
        ensures refuses { IfErr result (Refuses H.digest (shown self.old) piece.now) }
    {
        match envelope(piece) {
            Envelope::Whole { payload, rest, .. } => {
                self.hear(alloc, payload)?;
                Ok(rest)
            }
            Envelope::Part => Ok(self.keep(alloc, piece)?),
            Envelope::Wrong => Err(FeedError::Malformed(self.taken)),
        }
    }

    /// Takes the front of a piece.
    fn advance<'a>(&mut self, alloc: Global, piece: &'a [u8]) -> Result<&'a [u8], FeedError>
        requires sound { IsSound (shown self.old) }
        requires some { 0 < length piece.now }
        requires limit { self.old.taken + length piece.now ≤ 134217728 }
        ensures moves { IfOk result
            (λ left. Moves H.digest (shown self.old) (shown self.new) piece.now left.now) }
        ensures refuses { IfErr result (Refuses H.digest (shown self.old) piece.now) }
    {
        if self.missing > 0 {
            return Ok(self.pass(piece));
        }
        if self.kept.is_empty() {
            return self.begin(alloc, piece);
        }
        if self.is_too_long() {
            self.pass_over();
            return Ok(self.pass(piece));
        }
        Ok(self.keep(alloc, piece)?)
    }

    /// Takes a piece.
    pub(crate) fn take(&mut self, alloc: Global, piece: &[u8]) -> Result<(), FeedError>
        requires { IsSound (shown self.old) }
        ensures takes { OnOk result (Takes H.digest (shown self.old) (shown self.new) piece.now) }
        ensures sound { OnOk result (IsSound (shown self.new)) }
        ensures refuses { IfErr result (Refuses H.digest (shown self.old) piece.now) }
        ensures long { 134217728 < self.old.taken + length piece.now → result ≡ Err TooLong }
    {
        if piece.len() as u64 > LIMIT - self.taken {
            return Err(FeedError::TooLong);
        }
        let mut left = piece;
        'envelopes: while !left.is_empty() {
            left = self.advance(alloc, left)?;
        }
        Ok(())
    }

    /// Whether no more than another metadata can change the answer.
    pub(crate) fn is_settled(&self) -> bool
        ensures value { IsTrue result ↔ IsSettledState self.now.heard }
        ensures settled { (id : List ℕ) (stream : List ℕ)
            → StandsAt H.digest id (shown self.now) stream
            → (payloads : List (List ℕ)) (front rest : List ℕ) → IsCut payloads front rest stream
            → (IsTrue result ↔ IsSettled H.digest id payloads) }
    {
        self.heard.is_settled()
    }

    /// The answer of `read` over the payloads of the stream that was taken.
    pub(crate) fn finish(self, alloc: Global) -> Result<ReadAnswer, FinishError>
        ensures finishes { (id : List ℕ) (stream : List ℕ)
            → StandsAt H.digest id (shown self) stream → FinishesStream H.digest id stream result }
        ensures short { result ≡ Err finish.TooLong → ⊥ }
    {
        let Intake {
            heard,
            taken: _,
            place,
            kept,
            missing,
        } = self;
        if missing > 0 {
            return Err(FinishError::Malformed(place));
        }
        if kept.is_empty() {
            return answer_of(alloc, heard);
        }
        Err(FinishError::Malformed(place))
    }
}
