//! Runs under the toy digest, worked by hand: all roots over twelve bytes for one fault are 1 and
//! zeros, and so is the root over the pairs of roots.

use std::alloc::{AllocError, Global};
use std::test::Fail;
use test_data::SIX_WORDS;
use wal_port::{MemSink, MemSource};
use wal_run::run;
use wal_tree::Toy32;

pub(crate) fn words_of(alloc: Global, words: &[&str]) -> Result<Vec<String>, AllocError> {
    let mut all = Vec::new(alloc);
    for word in words {
        all.push(String::from_str(alloc, word)?)?;
    }
    Ok(all)
}

/// The status and the sink after a run under the toy digest in which no read or write fails.
pub(crate) fn run_on(
    alloc: Global,
    words: &[&str],
    input: Vec<u8>,
) -> Result<(u8, MemSink), AllocError> {
    let words = words_of(alloc, words)?;
    let mut source = MemSource::create(input, 4096, Vec::new(alloc));
    let mut sink = MemSink::create(alloc, 100_000, 4096, Vec::new(alloc))?;
    let status = run::<Toy32, _, _>(alloc, &words, &mut source, &mut sink);
    Ok((status, sink))
}

/// Words, an input, the status and the text.
const ROWS: [(&[&str], &[u8], u8, &[u8]); 4] = [
    (
        &["id", "1"],
        &[],
        0,
        b"0200010000000000000000010000000000000000000000000000000000000000\n",
    ),
    (
        &["id", "1"],
        &SIX_WORDS,
        0,
        b"020001000000000000000c010000000000000000000000000000000000000000\n",
    ),
    // One byte more, and a symbol has four bytes.
    (
        &["id", "1"],
        &[0, 1, 0, 2, 0, 3, 0, 4, 0, 5, 0, 6, 7],
        0,
        b"020001000000000000000d010000000000000000000000000000000000000000\n",
    ),
    (
        &["id", "1", "--format", "2"],
        &SIX_WORDS,
        0,
        b"03020001000000000000000c0100000000000000000000000000000000000000\n",
    ),
];

/// Whether the run ends so and writes so.
fn ends(
    alloc: Global,
    words: &[&str],
    input: Vec<u8>,
    status: u8,
    text: &[u8],
) -> Result<bool, AllocError> {
    let (ended, sink) = run_on(alloc, words, input)?;
    Ok(ended == status && sink.bytes() == text)
}

fn all_end(alloc: Global) -> Result<bool, AllocError> {
    let mut all = true;
    for (words, input, status, text) in ROWS {
        all &= ends(alloc, words, Vec::from_slice(alloc, input)?, status, text)?;
    }
    Ok(all)
}

#[test]
fn identifiers_of_twelve_bytes_and_about(rt: HostRuntime) -> Result<(), Fail> {
    assert!(rt; all_end(rt.alloc())?);
    Ok(())
}

/// Whether so many zero bytes have this identifier, or are too many.
fn zeros_end(alloc: Global, count: usize, status: u8, text: &[u8]) -> Result<bool, AllocError> {
    ends(
        alloc,
        &["id", "1"],
        vec![in alloc; 0u8; count]?,
        status,
        text,
    )
}

#[test]
fn the_longest_blob(rt: HostRuntime) -> Result<(), Fail> {
    let alloc = rt.alloc();
    let longest = b"0200010000000001000000010000000000000000000000000000000000000000\n";
    assert!(rt;
        zeros_end(alloc, 16_777_216, 0, longest)? && zeros_end(alloc, 16_777_217, 9, b"too long\n")?
    );
    Ok(())
}

/// Appends the envelope of the metadata of six words, with this byte at the front of the first two
/// roots.
fn put_metadata(stream: &mut Vec<u8>, first: u8) -> Result<(), AllocError> {
    stream.extend_from_slice(&[
        0x57, 0, 0, 0, 0, 1, 0x0b, 0x10, 0, 1, 0, 0, 0, 0, 0, 0, 0, 12,
    ])?;
    for root in 0..8 {
        stream.push(if root < 2 { first } else { 1 })?;
        stream.extend_from_slice(&[0; 31])?;
    }
    Ok(())
}

/// Whether two metadata of one identifier are told of by the leaves of their first pairs.
fn metadata_collide(alloc: Global) -> Result<bool, AllocError> {
    let mut stream = Vec::new(alloc);
    put_metadata(&mut stream, 1)?;
    put_metadata(&mut stream, 0)?;
    let words = [
        "read",
        "020001000000000000000c010000000000000000000000000000000000000000",
    ];
    let text =
        b"collision 0001000000000000000000000000000000000000000000000000000000000000000100000000000000000000000000000000000000000000000000000000000000 0000000000000000000000000000000000000000000000000000000000000000000000000000000000000000000000000000000000000000000000000000000000\n";
    ends(alloc, &words, stream, 10, text)
}

#[test]
fn two_metadata_of_one_identifier_collide(rt: HostRuntime) -> Result<(), Fail> {
    assert!(rt; metadata_collide(rt.alloc())?);
    Ok(())
}
