//! Many trees of one shape, built at once while their leaves come in order, a column of leaves at a
//! time.

ghost use Rattle.std.specs.Prelude.{◌≡◌, ℕ, ◌+◌, ◌*◌, ◌<◌, ◌≤◌, [], ◌∷◌, ◌++◌, List, None, All};
ghost use Rattle.std.specs.Prelude.{IfOk, OnOk, OnErr, length, map, slice_index_or, take, drop};
ghost use Rattle.wal_lanes.specs.inside.Lanes.{put_at};
ghost use Rattle.wal_tree.specs.Tree.{node, root_of};
ghost use Rattle.wal_tree.specs.Stack.{climb, pushed};
ghost use Rattle.wal_tree.specs.Stacks.{HaveLost, StandsFor, entry_of, held_entry, row_stack};
ghost use Rattle.wal_tree.specs.inside.Stacks.{HasRows, column_bytes};

use crate::hash::{Digest, Hash32};
use crate::node::EMPTY;
use crate::parts::{piece_at, put};
use crate::stack::{above, last};
use std::alloc::{AllocError, Global};
use std::marker::Model;

/// The trees of many rows, each as the stack of the entries that are still to be joined: one column
/// for each level, lowest first, with the entries of all rows.
#[derive(Drop)]
pub struct Stacks {
    rows: usize,
    levels: Vec<Option<Vec<u8>>>,
}

impl Model for Stacks {
    ghost use Rattle.std.specs.Prelude.{◌≤◌, All, map};
    ghost use Rattle.wal_tree.specs.Stacks.{StacksState};
    ghost use Rattle.wal_tree.specs.inside.Stacks.{HasRows, column_bytes};

    ghost Value = { StacksState };

    ghost view = { λ s. record { rows = s.rows; levels = map column_bytes s.levels.items } };

    ghost invariant = { λ s. (s.rows ≤ 1000)
        × All (HasRows s.rows) (map column_bytes s.levels.items) };
}

impl Stacks {
    /// So many rows, of which no leaf has come yet.
    pub fn new(alloc: Global, rows: u16) -> Stacks
        requires few { rows ≤ 1000 }
        ensures rows { result.rows ≡ rows }
        ensures empty { (digest : List ℕ → List ℕ) (r : ℕ)
            → StandsFor digest (row_stack r result.levels) [] }
    {
        Stacks {
            rows: rows as usize,
            levels: Vec::new(alloc),
        }
    }

    /// Takes the digests of the next leaf of each row. After want of memory some of the lowest
    /// levels are lost, and the trees stand for nothing any more.
    pub fn push<H: Hash32>(&mut self, alloc: Global, column: Vec<u8>) -> Result<(), AllocError>
        requires long { length column.items ≡ self.old.rows * 32 }
        ensures rows { self.new.rows ≡ self.old.rows }
        ensures pushed { OnOk result ((r : ℕ) (entries : List (List ℕ)) → r < self.old.rows
            → StandsFor H.digest (row_stack r self.old.levels) entries
            → StandsFor H.digest (row_stack r self.new.levels)
            (entries ++ entry_of r column.items ∷ [])) }
        ensures lost { OnErr result (HaveLost self.old.levels self.new.levels) }
    {
        carry::<H>(alloc, self.rows, &mut self.levels, column)
    }

    /// The root over the leaves of a row that have come.
    pub fn root<H: Hash32>(&self, row: u16) -> Digest
        requires row { row < self.now.rows }
        ensures { (entries : List (List ℕ))
            → StandsFor H.digest (row_stack row self.now.levels) entries
            → result ≡ root_of H.digest entries }
    {
        fold_columns::<H>(&self.levels, self.rows, row as usize)
    }
}

// Moves the column up while its place is taken.
fn carry<H: Hash32>(
    alloc: Global,
    rows: usize,
    levels: &mut Vec<Option<Vec<u8>>>,
    column: Vec<u8>,
) -> Result<(), AllocError>
    requires few { rows ≤ 1000 }
    requires long { length column.items ≡ rows * 32 }
    requires levels { All (HasRows rows) (map column_bytes levels.old.items) }
    ensures levels { All (HasRows rows) (map column_bytes levels.new.items) }
    ensures pushed { OnOk result ((r : ℕ) → r < rows
        → row_stack r (map column_bytes levels.new.items)
        ≡ pushed H.digest (row_stack r (map column_bytes levels.old.items))
        (entry_of r column.items)) }
    ensures lost { OnErr result
        (HaveLost (map column_bytes levels.old.items) (map column_bytes levels.new.items)) }
{
    let mut entry = column;
    for level in 0..levels.len() {
        match levels[level].take() {
            Some(left) => entry = join_columns::<H>(alloc, rows, &left, &entry)?,
            None => {
                levels[level] = Some(entry);
                return Ok(());
            }
        }
    }
    levels.push(Some(entry))?;
    Ok(())
}

// The inner nodes over the entries of two columns, row by row.
fn join_columns<H: Hash32>(
    alloc: Global,
    rows: usize,
    left: &[u8],
    right: &[u8],
) -> Result<Vec<u8>, AllocError>
    requires few { rows ≤ 1000 }
    requires left { length left.now ≡ rows * 32 }
    requires right { length right.now ≡ rows * 32 }
    ensures long { IfOk result (λ v. length v.items ≡ rows * 32) }
    ensures nodes { IfOk result (λ v. (r : ℕ) → r < rows
        → entry_of r v.items ≡ node H.digest (entry_of r left.now) (entry_of r right.now)) }
{
    let mut pairs = vec![in alloc; 0u8; rows * 64]?;
    interleave(left, right, rows, &mut pairs);
    let mut above = vec![in alloc; 0u8; rows * 32]?;
    H::digest_pieces(1, &pairs, 64, &mut above);
    Ok(above)
}

// Writes the entries of two columns, each beside the other of its row.
fn interleave(left: &[u8], right: &[u8], rows: usize, pairs: &mut [u8])
    requires few { rows ≤ 1000 }
    requires left { length left.now ≡ rows * 32 }
    requires right { length right.now ≡ rows * 32 }
    requires room { length pairs.old ≡ rows * 64 }
    ensures room { length pairs.new ≡ rows * 64 }
    ensures pairs { (r : ℕ) → r < rows
        → take 64 (drop (r * 64) pairs.new) ≡ entry_of r left.now ++ entry_of r right.now }
{
    for row in 0..rows {
        put_pair(left, right, row, pairs);
    }
}

// Writes the entries of one row.
fn put_pair(left: &[u8], right: &[u8], row: usize, pairs: &mut [u8])
    requires left { row * 32 + 32 ≤ length left.now }
    requires right { row * 32 + 32 ≤ length right.now }
    requires room { row * 64 + 64 ≤ length pairs.old }
    ensures { pairs.new
        ≡ put_at (row * 64) pairs.old (entry_of row left.now ++ entry_of row right.now) }
{
    put(pairs, row * 64, piece_at(left, 32, row));
    put(pairs, row * 64 + 32, piece_at(right, 32, row));
}

// The entry of a row at a level.
fn entry_at(levels: &[Option<Vec<u8>>], level: usize, rows: usize, row: usize) -> Option<Digest>
    requires level { level < length levels.now }
    requires row { row < rows }
    requires levels { All (HasRows rows) (map column_bytes levels.now) }
    ensures { result ≡ held_entry row (slice_index_or (map column_bytes levels.now) level None) }
{
    match &levels[level] {
        Some(column) => Some(digest_at(column, row)),
        None => None,
    }
}

// The digest of a row of a column.
fn digest_at(column: &[u8], row: usize) -> Digest
    requires { row * 32 + 32 ≤ length column.now }
    ensures { result ≡ entry_of row column.now }
{
    let mut digest = EMPTY;
    digest.copy_from_slice(piece_at(column, 32, row));
    digest
}

// The root over the leaves of a row for which the columns stand.
fn fold_columns<H: Hash32>(levels: &[Option<Vec<u8>>], rows: usize, row: usize) -> Digest
    requires row { row < rows }
    requires levels { All (HasRows rows) (map column_bytes levels.now) }
    ensures { result ≡ climb H.digest (row_stack row (map column_bytes levels.now)) [] }
{
    let height = levels.len();
    let mut pending = None;
    for level in 0..height {
        let entry = entry_at(levels, level, rows, row);
        if level + 1 == height {
            return last::<H>(entry, pending);
        }
        pending = above::<H>(entry, pending);
    }
    EMPTY
}
