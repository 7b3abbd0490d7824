//! Frames of each kind, and the stream of the worked blob.

use std::alloc::{AllocError, Global};
use std::test::Fail;
use test_data::{PROVED, STREAM};
use wal_frame::{OutBuf, SplitError, frame_bytes, read_frame, split, write_frame};

/// Whether the bytes are read as a frame, and written again, alone and in an envelope.
fn is_written_again(alloc: Global, bytes: &[u8]) -> Result<bool, AllocError> {
    let mut out = OutBuf::create(alloc, 300)?;
    match read_frame(bytes) {
        Ok(frame) if bytes.len() + 7 <= out.spare() as usize => {
            write_frame(&mut out, 0x0102, &frame);
            let alone = frame_bytes(alloc, &frame)?;
            Ok(out.bytes().ends_with(bytes) && alone.as_slice() == bytes)
        }
        _ => Ok(false),
    }
}

/// What stands before and behind the identifier in a frame of each kind that has one.
const KINDS: [(&[u8], &[u8]); 12] = [
    (&[0x11], &[1, 0, 3, 0, 0, 0, 4, 0, 7, 0, 14]),
    (&[0x12], &[0, 0, 1, 0, 2, 0, 0, 0, 2, 0, 7, 0]),
    (&[0x13], &[1, 0, 2, 0, 1, 0, 3, 0, 0, 0, 2, 0, 7, 0]),
    (&[0x20], &[]),
    (&[0x21], &[1, 0, 3]),
    (&[0x22], &[]),
    (&[0x23], &[]),
    (&[0x24], &[]),
    (&[0x31, 1, 9, 33, 8], &[]),
    (&[0x40], &[0, 1, 0, 0]),
    (&[0x41, 3, 231], &[]),
    (&[0x42, 3, 231], &[]),
];

fn are_written_again(alloc: Global) -> Result<bool, AllocError> {
    let mut all = true;
    for (front, back) in KINDS {
        let mut bytes = Vec::from_slice(alloc, front)?;
        bytes.extend_from_slice(&[0xaa; 32])?;
        bytes.extend_from_slice(back)?;
        all &= is_written_again(alloc, &bytes)?;
    }
    Ok(all)
}

#[test]
fn every_kind_is_written_again(rt: HostRuntime) -> Result<(), Fail> {
    assert!(rt; are_written_again(rt.alloc())?);
    Ok(())
}

/// The metadata of the other format: the version, and any numbers and roots.
fn second_format() -> [u8; 268] {
    let mut bytes = [2; 268];
    bytes[0] = 0x14;
    bytes[2..11].copy_from_slice(&PROVED[8..17]);
    bytes
}

#[test]
fn metadata_and_answers_are_written_again(rt: HostRuntime) -> Result<(), Fail> {
    let alloc = rt.alloc();
    let metadata = is_written_again(alloc, &PROVED[7..274])?
        && is_written_again(alloc, &second_format())?;
    assert!(rt; metadata && is_written_again(alloc, &[0x30, 6, 0, 0, 0, 2, 0, 0, 0, 1])?);
    Ok(())
}

/// Whether the stream has nine payloads, of which the first is the metadata.
fn is_split(alloc: Global) -> bool {
    match split(alloc, &STREAM) {
        Ok(payloads) => match payloads.as_slice().first() {
            Some(first) => payloads.as_slice().len() == 9 && first.as_slice() == &STREAM[7..274],
            None => false,
        },
        Err(_) => false,
    }
}

#[test]
fn the_stream_of_the_worked_blob(rt: HostRuntime) {
    let cut = split(rt.alloc(), &STREAM[..689]).err();
    assert!(rt; is_split(rt.alloc()) && cut == Some(SplitError::Malformed(639)));
}
