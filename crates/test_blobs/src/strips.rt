//! Identifiers of blobs of long symbols, which are made strip by strip.

ghost use Rattle.std.specs.Prelude.{◌≡◌, ◌<◌, ◌^◌, length};

use std::alloc::Global;
use std::test::Fail;
use wal_commit::{blob_id, identify, metadata_of};
use wal_matrix::extend;
use wal_shape::Shape;
use wal_tree::{Hash32, Sha, Toy32};

/// Fills the bytes so that neighbouring blocks differ.
fn fill(bytes: &mut [u8])
    ensures { length bytes.new ≡ length bytes.old }
{
    for place in 0..bytes.len() {
        bytes[place] = (place % 251) as u8;
    }
}

/// Whether the identifier of such a blob is that of the metadata over its whole matrix.
fn is_one_identifier<H: Hash32>(alloc: Global, faults: u32, long: usize) -> Result<bool, Fail>
    requires { long < 2 ^ 31 }
{
    let shape = Shape::new(faults, long as u64)?;
    let mut bytes = vec![in alloc; 0u8; long]?;
    fill(&mut bytes);
    let matrix = extend(alloc, &shape, &bytes)?;
    let metadata = metadata_of::<H>(alloc, &matrix)?;
    Ok(blob_id::<H>(alloc, &shape, &bytes)? == identify::<H>(metadata.view()))
}

/// At f = 1 the last strip is short; at f = 2 the symbols leave one over eight.
#[test]
fn identifiers_of_long_symbols(rt: HostRuntime) -> Result<(), Fail> {
    let alloc = rt.alloc();
    let one = is_one_identifier::<Sha>(alloc, 1, 200_000)?
        && is_one_identifier::<Toy32>(alloc, 1, 200_000)?;
    assert!(rt; one && is_one_identifier::<Sha>(alloc, 2, 165_000)?);
    Ok(())
}
