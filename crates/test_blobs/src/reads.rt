//! Reads of the worked blob, whole and in pieces, and the verdict on evidence.

use std::alloc::{AllocError, Global};
use std::test::Fail;
use test_data::{ID, PROVED, SIX_WORDS, STREAM};
use wal_evidence::{Basis, Evidence, ProofVerdict, Verdict, proof_check, verdict};
use wal_frame::split;
use wal_matrix::Work;
use wal_reader::{FeedError, FinishError, Outcome, ReadAnswer, Reader, read};
use wal_shape::{BadProof, BlobId, Bytes, Metadata};
use wal_tree::Sha;

/// Whether the answer is the blob, by evidence.
fn is_blob(answer: &ReadAnswer) -> bool {
    match &answer.outcome {
        Outcome::Bytes(bytes) => bytes.as_slice() == SIX_WORDS.as_slice()
            && answer.evidence.is_some(),
        _ => false,
    }
}

/// Whether the payloads of the stream give the blob.
fn is_read(alloc: Global) -> Result<bool, AllocError> {
    match split(alloc, &STREAM) {
        Ok(payloads) => Ok(is_blob(&read::<Sha>(alloc, &BlobId(ID), &payloads)?)),
        Err(_) => Ok(false),
    }
}

/// How many bytes of the stream a reader takes, one by one, before it settles, where it then gives
/// the blob.
fn settles_behind(alloc: Global) -> Result<Option<usize>, AllocError> {
    let mut reader = Reader::<Sha>::create(alloc, &BlobId(ID))?;
    let mut before = 1usize;
    for byte in &STREAM {
        if reader.feed(alloc, &[*byte]).is_err() {
            return Ok(None);
        }
        if !reader.settled() {
            before = before.saturating_add(1);
        }
    }
    match reader.finish(alloc) {
        Ok(answer) if is_blob(&answer) => Ok(Some(before)),
        _ => Ok(None),
    }
}

// The last byte of the second primary sliver settles.
#[test]
fn the_worked_blob_is_read(rt: HostRuntime) -> Result<(), Fail> {
    assert!(rt; is_read(rt.alloc())? && settles_behind(rt.alloc())? == Some(431));
    Ok(())
}

/// Whether the stream of slivers 1 and 0 and then the metadata, behind a payload that is no frame,
/// gives the blob in two pieces, the first of so many bytes.
fn is_read_cut(alloc: Global, length: usize) -> Result<bool, AllocError> {
    let mut stream = Vec::from_slice(alloc, &[0x57, 0, 3, 0, 0, 0, 1, 0xff])?;
    stream.extend_from_slice(&STREAM[378..431])?;
    stream.extend_from_slice(&STREAM[274..327])?;
    stream.extend_from_slice(&STREAM[..274])?;
    let (Some(front), Some(back)) = (stream.get(..length), stream.get(length..)) else {
        return Ok(false);
    };
    let mut reader = Reader::<Sha>::create(alloc, &BlobId(ID))?;
    let fed = reader.feed(alloc, front).is_ok() && reader.feed(alloc, back).is_ok();
    match reader.finish(alloc) {
        Ok(answer) => Ok(fed && is_blob(&answer)),
        Err(_) => Ok(false),
    }
}

#[test]
fn two_pieces_cut_anywhere_give_the_blob(rt: HostRuntime) -> Result<(), Fail> {
    let mut all = true;
    for length in 0..389 {
        all &= is_read_cut(rt.alloc(), length)?;
    }
    assert!(rt; all);
    Ok(())
}

/// What a reader answers to three pieces, and why it has no answer at the end.
fn told(
    alloc: Global,
    pieces: [&[u8]; 3],
) -> Result<([Result<(), FeedError>; 3], Option<FinishError>), AllocError> {
    let mut reader = Reader::<Sha>::create(alloc, &BlobId(ID))?;
    let fed = [
        reader.feed(alloc, pieces[0]),
        reader.feed(alloc, pieces[1]),
        reader.feed(alloc, pieces[2]),
    ];
    Ok((fed, reader.finish(alloc).err()))
}

#[test]
fn a_wrong_byte_is_refused_again(rt: HostRuntime) -> Result<(), Fail> {
    let (fed, end) = told(rt.alloc(), [&[0x57, 0, 0, 0, 0, 0, 1, 1], &[0x58], &[0x57]])?;
    let wrong = Err(FeedError::Malformed(8));
    assert!(rt; fed == [Ok(()), wrong, wrong] && end == Some(FinishError::Malformed(8)));
    Ok(())
}

#[test]
fn a_part_of_an_envelope_is_malformed_at_the_end(rt: HostRuntime) -> Result<(), Fail> {
    let (fed, end) = told(rt.alloc(), [&[0x57, 0, 0, 0, 0], &[], &[]])?;
    assert!(rt; fed == [Ok(()); 3] && end == Some(FinishError::Malformed(0)));
    Ok(())
}

/// Evidence with the proof of the false row.
fn evidence(alloc: Global) -> Result<Option<Evidence>, AllocError> {
    let metadata = Metadata::create(Bytes::from_vec(Vec::from_slice(alloc, &PROVED[8..274])?));
    let proof = BadProof::create(Bytes::from_vec(Vec::from_slice(alloc, &PROVED[314..])?));
    Ok(match (metadata, proof) {
        (Some(metadata), Some(proof)) => Some(Evidence {
            metadata,
            basis: Basis::Proof(proof),
        }),
        _ => None,
    })
}

/// Whether this is evidence with a proof, and a rejection.
fn is_rejected(alloc: Global, e: &Evidence) -> Result<bool, AllocError> {
    let mut work = Work::create(alloc, 1)?;
    let m = e.metadata.view();
    if m.f() != 1 {
        return Ok(false);
    }
    let Basis::Proof(p) = &e.basis else {
        return Ok(false);
    };
    match proof_check::<Sha>(&mut work, m, &p.view()) {
        ProofVerdict::Inconsistent => {
            Ok(matches!(verdict::<Sha>(alloc, &mut work, e)?, Verdict::Reject))
        }
        _ => Ok(false),
    }
}

#[test]
fn a_proof_is_a_rejection(rt: HostRuntime) -> Result<(), Fail> {
    let alloc = rt.alloc();
    let rejected = match evidence(alloc)? {
        Some(e) => is_rejected(alloc, &e)? && is_rejected(alloc, &e.duplicate(alloc)?)?,
        None => false,
    };
    assert!(rt; rejected);
    Ok(())
}
