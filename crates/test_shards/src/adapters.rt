//! A reader and a writer of std as source and sink.

use std::alloc::Global;
use std::test::Fail;
use wal_port::{StdSink, StdSource, WriteFault, put_all, take_all};

const TEXT: &[u8] = b"a walrus";

/// Whether a reader gives the text, and a writer takes it.
fn moves_text(alloc: Global) -> Result<bool, Fail> {
    let bytes = take_all(alloc, &mut StdSource::create(TEXT), 8)?;
    let mut written = Vec::new(alloc);
    put_all(&mut StdSink::create(&mut written), &bytes)?;
    Ok(bytes.as_slice() == TEXT && written.as_slice() == TEXT)
}

#[test]
fn a_text_is_moved(rt: HostRuntime) -> Result<(), Fail> {
    assert!(rt; moves_text(rt.alloc())?);
    Ok(())
}

// A full writer takes nothing.
#[test]
fn a_write_that_takes_nothing_is_a_fault(rt: HostRuntime) {
    let mut room = [0; 7];
    let mut full = StdSink::create(room.as_mut_slice());
    assert!(rt; put_all(&mut full, TEXT) == Err(WriteFault));
}
