//! A sliver that was extended once and hashed once, for any number of openings.

ghost use Rattle.std.specs.Prelude.{◌≡◌, ◌*◌, ◌<◌, ◌≤◌, IfOk, length};
ghost use Rattle.wal_kernel.specs.Region.{region};
ghost use Rattle.wal_matrix.specs.Word.{IsWordOf};
ghost use Rattle.wal_shape.specs.Metadata.{IsMetadata};
ghost use Rattle.wal_shape.specs.MetaRef.{metadata_shown};
ghost use Rattle.wal_shape.specs.Shape.{shard_count, sliver_symbols, symbol_size};
ghost use Rattle.wal_tree.specs.Path.{path_over};
ghost use Rattle.wal_challenge.specs.inside.Levels.{AreLevels};

use crate::levels::{levels_over, path_in};
use std::alloc::{AllocError, Global};
use wal_matrix::{Work, codeword_of};
use wal_shape::{Axis, Bytes, MetaRef, Opening, Path, Payloads};
use wal_tree::Hash32;

/// The codeword of a sliver, and the levels of the tree over its symbols.
#[derive(Drop)]
pub struct Line {
    pub symbols: Bytes,
    pub levels: Payloads,
}

/// The line of a sliver of this axis.
pub fn line_of<H: Hash32>(
    alloc: Global,
    work: &mut Work,
    m: MetaRef<'_>,
    axis: Axis,
    sliver: &[u8],
) -> Result<Line, AllocError>
    requires f { work.old.f ≡ (metadata_shown m).f }
    requires long { length sliver.now
        ≡ sliver_symbols axis (metadata_shown m).f
        * symbol_size (metadata_shown m).f (metadata_shown m).length }
    ensures word { IfOk result
        (λ l. IsWordOf axis (metadata_shown m.entry).f
        (symbol_size (metadata_shown m.entry).f (metadata_shown m.entry).length)
        sliver.now l.symbols) }
    ensures levels { IfOk result (λ l.
        AreLevels H.digest (symbol_size (metadata_shown m.entry).f (metadata_shown m.entry).length)
        l.symbols l.levels) }
    ensures f { work.new.f ≡ work.old.f }
    // The reference shows a metadata.
    ensures fit { IsMetadata (metadata_shown m.entry) }
{
    let size = m.shape().symbol_size();
    let symbols = codeword_of(alloc, work, axis, size, sliver)?;
    let levels = levels_over::<H>(alloc, &symbols, size as usize)?;
    Ok(Line {
        symbols: Bytes::from_vec(symbols),
        levels: Payloads::from_vec(levels),
    })
}

/// The symbol at a place of a line, with its path and this cross.
pub fn open_line<H: Hash32>(
    alloc: Global,
    line: &Line,
    count: u16,
    size: u32,
    place: u16,
    cross: u16,
) -> Result<Opening, AllocError>
    requires some { 1 ≤ size }
    requires long { length line.now.symbols ≡ count * size }
    requires levels { AreLevels H.digest size line.now.symbols line.now.levels }
    requires place { place < count }
    ensures cross { IfOk result (λ o. o.cross ≡ cross) }
    ensures symbol { IfOk result (λ o. o.symbol ≡ region size line.now.symbols place) }
    ensures path { IfOk result (λ o. o.path ≡ path_over H.digest size line.now.symbols place) }
{
    let symbols = line.symbols.as_slice();
    let size = size as usize;
    let place = place as usize;
    let start = size * place;
    let symbol = Vec::from_slice(alloc, &symbols[start..start + size])?;
    let path = path_in::<H>(alloc, line.levels.as_slice(), symbols, size, place)?;
    Ok(Opening {
        cross,
        symbol: Bytes::from_vec(symbol),
        path: Path::from_vec(path),
    })
}
