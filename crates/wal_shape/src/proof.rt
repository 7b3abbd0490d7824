//! Proofs of bad encoding.

ghost use Rattle.std.specs.Prelude.{◌≡◌, ℕ, ◌<◌, ◌≤◌, ◌++◌, List, [], length, drop, Option, Some};
ghost use Rattle.std.specs.Prelude.{None, Ok, option_map, slice_get, IfSome, IfNone, IfOk, OnOk};
ghost use Rattle.wal_shape.specs.declared.opening.Opening.{Opening};
ghost use Rattle.wal_shape.specs.Opening.{IsBody, opening_shown};
ghost use Rattle.wal_shape.specs.EncodingProof.{EncodingProof, IsProof};
ghost use Rattle.wal_shape.specs.Spelling.{body_text, proof_text, axis_number};
ghost use Rattle.wal_shape.specs.FieldReading.{Gives};
ghost use Rattle.wal_shape.specs.BodyReading.{body_at};
ghost use Rattle.wal_shape.specs.ProofReading.{openings_in, proof_with};
ghost use Rattle.wal_shape.specs.inside.ProofReading.{SpellProof, head_at, head_in, bodies_end};
ghost use Rattle.std.proofs.Props.{props};

use crate::axis::Axis;
use crate::body::{BodyFault, DIGEST_SIZE, MOST_INDEX, split_body};
use crate::fields::{u8_at, u16_at};
use crate::lists::Bytes;
use crate::opening::{Opening, OpeningRef, Openings};
use std::alloc::{AllocError, Global};
use std::marker::Model;

/// What stands before the openings of a proof.
#[derive(Clone, Copy, Debug)]
struct Head {
    axis: Axis,
    index: u16,
    count: u16,
}

/// The most openings.
const MOST_OPENINGS: u16 = 1000;

/// The number of bytes of the axis, the index and the number of openings.
const HEAD_SIZE: usize = 5;

/// The head that the bytes begin with, and the bytes after it.
#[tactic(auto, unfolding(crate::specs::inside::ProofReading::head_at))]
fn split_head(bytes: &[u8]) -> Result<(Head, &[u8]), BodyFault>
    ensures { Gives (λ x. (x.0, x.1.now)) result (head_at bytes.now) }
{
    let (number, rest) = u8_at(bytes, 0, 1)?;
    let (index, rest) = u16_at(rest, 1, MOST_INDEX)?;
    let (count, rest) = u16_at(rest, 3, MOST_OPENINGS)?;
    let axis = match number {
        0 => Axis::Primary,
        _ => Axis::Secondary,
    };
    Ok((Head { axis, index, count }, rest))
}

/// The bytes after so many bodies, if all can be read.
fn after_bodies(bytes: &[u8], count: u16) -> Option<&[u8]>
    ensures { option_map (λ rest. rest.now) result ≡ bodies_end count bytes.now }
{
    let mut rest = bytes;
    for _ in 0..count {
        match split_body(rest) {
            Ok((_, after)) => rest = after,
            Err(_) => return None,
        }
    }
    Some(rest)
}

/// The head of the proof that the bytes spell, if they spell one.
#[tactic(auto, unfolding(crate::specs::inside::ProofReading::head_in))]
fn read_head(bytes: &[u8]) -> Option<Head>
    ensures { result ≡ head_in bytes.now }
{
    match split_head(bytes) {
        Ok((head, bodies)) => match after_bodies(bodies, head.count) {
            Some(rest) => rest.is_empty().then_some(head),
            None => None,
        },
        Err(_) => None,
    }
}

/// The head of the proof that the bytes spell, the whole of them.
fn proof_head(bytes: &[u8]) -> Option<Head>
    ensures whole { IfSome result (λ head. SpellProof head bytes.now) }
    ensures none { IfNone result ((p : EncodingProof) → IsProof p → proof_text p ≡ bytes.now → ⊥) }
{
    read_head(bytes)
}

/// The opening at this place among so many bodies.
fn opening_at(bodies: &[u8], count: u16, place: u16) -> OpeningRef<'_>
    requires place { place < count }
    requires bodies { bodies_end count bodies.now ≡ Some [] }
    ensures opening { slice_get (openings_in count bodies.now) place ≡ Some (opening_shown result) }
    ensures body { IsBody (opening_shown result) }
{
    match after_bodies(bodies, place) {
        Some(rest) => match split_body(rest) {
            Ok((opening, _)) => opening,
            Err(_) => unreachable!(),
        },
        None => unreachable!(),
    }
}

/// A proof of bad encoding that lies in lent bytes.
///
/// The bytes are the axis (one, 0 for primary and 1 for secondary) and the index (two) of the
/// sliver, the number of openings (two), and the body of each opening, numbers most significant
/// byte first.
#[derive(Clone, Copy, Debug)]
pub struct ProofRef<'a> {
    head: Head,
    bytes: &'a [u8],
    pub ghost whole: { SpellProof head bytes.now } by { Prim.hlevel props },
}

impl<'a> ProofRef<'a> {
    ghost use Rattle.wal_shape.specs.ProofRef.{proof_shown};

    /// Reads a proof from the whole of the bytes.
    pub fn new(bytes: &'a [u8]) -> Option<ProofRef<'a>>
        ensures proof { IfSome result (λ p. IsProof (proof_shown p)) }
        ensures spelled { IfSome result (λ p. proof_text (proof_shown p) ≡ bytes.now) }
        ensures only { (p : EncodingProof) → IsProof p → proof_text p ≡ bytes.now
            → IfSome result (λ r. proof_shown r ≡ p) }
        ensures none { IfNone result
            ((p : EncodingProof) → IsProof p → proof_text p ≡ bytes.now → ⊥) }
    {
        match proof_head(bytes) {
            Some(head) => Some(ProofRef { head, bytes }),
            None => None,
        }
    }

    /// The axis of the sliver.
    #[tactic(auto, unfolding(crate::specs::ProofRef::proof_shown))]
    pub fn axis(&self) -> Axis
        ensures { result ≡ (proof_shown self.now).axis }
    {
        self.head.axis
    }

    /// The index of the sliver.
    pub fn index(&self) -> u16
        ensures value { result ≡ (proof_shown self.now).index }
        ensures proof { IsProof (proof_shown self.now) }
    {
        self.head.index
    }

    /// The number of openings.
    pub fn count(&self) -> u16
        ensures value { result ≡ length (proof_shown self.now).openings }
        ensures proof { IsProof (proof_shown self.now) }
    {
        self.head.count
    }

    /// Lends the spelling.
    pub fn bytes(&self) -> &'a [u8]
        ensures { result.now ≡ proof_text (proof_shown self.now) }
    {
        self.bytes
    }

    /// Lends the opening at this place.
    pub fn opening(&self, place: u16) -> OpeningRef<'a>
        requires { place < length (proof_shown self.now).openings }
        ensures opening { slice_get (proof_shown self.now).openings place
            ≡ Some (opening_shown result) }
        ensures body { IsBody (opening_shown result) }
    {
        let (_, bodies) = self.bytes.split_at(HEAD_SIZE);
        opening_at(bodies, self.head.count, place)
    }
}

/// A proof of bad encoding that owns its spelling, as `ProofRef` reads it.
#[derive(Debug, Drop)]
pub struct BadProof {
    head: Head,
    bytes: Bytes,
}

impl Model for BadProof {
    ghost use Rattle.wal_shape.specs.EncodingProof.{EncodingProof};
    ghost use Rattle.wal_shape.specs.ProofReading.{proof_of};
    ghost use Rattle.wal_shape.specs.inside.ProofReading.{SpellProof};

    ghost Value = { EncodingProof };

    ghost view = { λ p. proof_of p.head p.bytes };

    ghost invariant = { λ p. SpellProof p.head p.bytes };
}

/// Writes the body of an opening.
fn put_body(out: &mut Vec<u8>, opening: &Opening) -> Result<(), AllocError>
    requires { IsBody opening.now }
    ensures { OnOk result (out.new.items ≡ out.old.items ++ body_text opening.now) }
{
    let symbol = opening.symbol.as_slice();
    let path = opening.path.as_slice();
    out.extend_from_slice(&opening.cross.to_be_bytes())?;
    out.extend_from_slice(&(symbol.len() as u32).to_be_bytes())?;
    out.extend_from_slice(symbol)?;
    out.push((path.len() / DIGEST_SIZE) as u8)?;
    out.extend_from_slice(path)?;
    Ok(())
}

/// The spelling of a proof.
fn spelling_of(alloc: Global, head: Head, openings: &[Opening]) -> Result<Vec<u8>, AllocError>
    requires proof { IsProof (proof_with head openings.now) }
    requires count { head.count ≡ length openings.now }
    ensures { IfOk result (λ bytes. bytes.items ≡ proof_text (proof_with head openings.now)) }
{
    let mut out = Vec::new(alloc);
    out.push(head.axis.number())?;
    out.extend_from_slice(&head.index.to_be_bytes())?;
    out.extend_from_slice(&head.count.to_be_bytes())?;
    for opening in openings {
        put_body(&mut out, opening)?;
    }
    Ok(out)
}

impl BadProof {
    ghost use Rattle.wal_shape.specs.ProofRef.{proof_shown};

    /// Takes the bytes as the spelling of a proof, the whole of them. Takes no memory.
    pub fn create(bytes: Bytes) -> Option<BadProof>
        ensures proof { IfSome result IsProof }
        ensures spelled { IfSome result (λ p. proof_text p ≡ bytes) }
        ensures only { (p : EncodingProof) → IsProof p → proof_text p ≡ bytes → result ≡ Some p }
        ensures none { IfNone result ((p : EncodingProof) → IsProof p → proof_text p ≡ bytes → ⊥) }
    {
        match proof_head(bytes.as_slice()) {
            Some(head) => Some(BadProof { head, bytes }),
            None => None,
        }
    }

    /// The proof of this sliver by these openings.
    pub fn of(
        alloc: Global,
        axis: Axis,
        index: u16,
        openings: &Openings,
    ) -> Result<BadProof, AllocError>
        requires { IsProof (record { axis = axis; index = index; openings = openings.now }) }
        ensures { IfOk result
            (λ p. p ≡ record { axis = axis; index = index; openings = openings.now }) }
    {
        let openings = openings.as_slice();
        let head = Head {
            axis,
            index,
            count: openings.len() as u16,
        };
        let bytes = spelling_of(alloc, head, openings)?;
        Ok(BadProof {
            head,
            bytes: Bytes::from_vec(bytes),
        })
    }

    /// A copy of a lent proof, in memory of its own.
    pub fn copied(alloc: Global, p: ProofRef<'_>) -> Result<BadProof, AllocError>
        requires { IsProof (proof_shown p) }
        ensures { IfOk result (λ copy. copy ≡ proof_shown p.entry) }
    {
        let bytes = Vec::from_slice(alloc, p.bytes())?;
        match BadProof::create(Bytes::from_vec(bytes)) {
            Some(copy) => Ok(copy),
            None => unreachable!(),
        }
    }

    /// Lends the proof.
    #[tactic(auto, unfolding(crate::specs::ProofRef::proof_shown))]
    pub fn view(&self) -> ProofRef<'_>
        ensures value { proof_shown result ≡ self.now }
        ensures proof { IsProof self.now }
    {
        ProofRef {
            head: self.head,
            bytes: self.bytes.as_slice(),
        }
    }
}
