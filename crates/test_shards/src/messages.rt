//! Messages of the blob of six words for one fault under the toy digest. Its matrix has the rows 1
//! 2 3 0, 4 5 6 7, 11 12 9 14 and 14 11 12 9.

ghost use Rattle.std.specs.Prelude.{◌<◌};

use std::alloc::Global;
use std::test::Fail;
use test_data::SIX_WORDS;
use wal_frame::join;
use wal_shape::{Bytes, Format};
use wal_tree::Toy32;
use wal_writer::Write;

/// The envelopes of primary sliver 2 and of secondary sliver 2.
const SLIVERS_OF_TWO: [u8; 104] = [
    0x57, 0, 2, 0, 0, 0, 46, 0x11, 2, 0, 1, 0, 0, 0, 0, 0, 0, 0, 12, 1, 0, 0, 0, 0, 0, 0, 0, 0, 0,
    0, 0, 0, 0, 0, 0, 0, 0, 0, 0, 0, 0, 0, 2, 0, 0, 0, 6, 0, 11, 0, 12, 0, 9, 0x57, 0, 2, 0, 0, 0,
    44, 0x11, 2, 0, 1, 0, 0, 0, 0, 0, 0, 0, 12, 1, 0, 0, 0, 0, 0, 0, 0, 0, 0, 0, 0, 0, 0, 0, 0, 0,
    0, 0, 0, 0, 1, 0, 2, 0, 0, 0, 4, 0, 3, 0, 6,
];

/// In format two the envelope of secondary sliver 3, which shard 0 holds.
const SECONDARY_OF_ZERO: [u8; 51] = [
    0x57, 0, 0, 0, 0, 0, 44, 0x11, 3, 2, 0, 1, 0, 0, 0, 0, 0, 0, 0, 12, 1, 0, 0, 0, 0, 0, 0, 0, 0,
    0, 0, 0, 0, 0, 0, 0, 0, 0, 0, 0, 1, 0, 3, 0, 0, 0, 4, 0, 0, 0, 7,
];

/// The message to a shard, in envelopes from its number.
fn sent(alloc: Global, format: Format, shard: u16) -> Result<Bytes, Fail>
    requires { shard < 4 }
{
    let write = Write::<Toy32>::start(alloc, 1, format, &SIX_WORDS)?;
    let payloads = write.message(alloc, shard)?;
    let bytes = join(alloc, shard, &payloads)?;
    Ok(bytes)
}

#[test]
fn messages_of_six_words(rt: HostRuntime) -> Result<(), Fail> {
    let two = sent(rt.alloc(), Format::One, 2)?;
    let zero = sent(rt.alloc(), Format::Two, 0)?;
    assert!(rt;
        two.as_slice().len() == 378
            && two.as_slice().ends_with(&SLIVERS_OF_TWO)
            && zero.as_slice().ends_with(&SECONDARY_OF_ZERO)
    );
    Ok(())
}
