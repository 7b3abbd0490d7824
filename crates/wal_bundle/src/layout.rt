//! Which columns members fill, and the least symbols for which there is room.

ghost use Rattle.std.specs.Prelude.{◌≡◌, ℕ, ◌+◌, ◌*◌, ◌%◌, ◌^◌, ◌<◌, ◌≤◌, ◌↔◌, length, IsTrue};
ghost use Rattle.wal_bundle.specs.Layout.{ColumnsFit, IsBundleSize, column_bytes, columns_for};
ghost use Rattle.wal_bundle.specs.Layout.{first_column, index_columns, member_columns};
ghost use Rattle.wal_bundle.specs.Layout.{used_columns};

/// The columns of `size` bytes that so many bytes need.
#[tactic(auto, unfolding(crate::specs::Layout::columns_for))]
pub(crate) fn columns_for(size: u64, bytes: u64) -> u64
    requires { 0 < size }
    ensures value { result ≡ columns_for size bytes }
    ensures most { result ≤ bytes }
{
    bytes.div_ceil(size)
}

/// The columns of the index of so many members.
pub(crate) fn index_columns(size: u64, count: usize) -> u64
    requires some { 0 < size }
    requires few { count ≤ 666 }
    ensures value { result ≡ index_columns size count }
    ensures most { result ≤ 3998 }
{
    columns_for(size, 2 + 6 * count as u64)
}

/// The columns of members of these lengths.
#[tactic(auto, unfolding(crate::specs::Layout::member_columns))]
fn member_columns(size: u64, lengths: &[u32]) -> u64
    requires some { 0 < size }
    requires few { length lengths.now ≤ 666 }
    ensures value { result ≡ member_columns size lengths.now }
    ensures most { result ≤ 2 ^ 32 * length lengths.now }
{
    let mut columns = 0;
    for length in lengths {
        columns += columns_for(size, u64::from(*length));
    }
    columns
}

/// The column that member k begins with.
#[tactic(auto, unfolding(crate::specs::Layout::first_column))]
pub(crate) fn first_column(size: u64, lengths: &[u32], k: usize) -> u64
    requires some { 0 < size }
    requires few { length lengths.now ≤ 666 }
    requires within { k < length lengths.now }
    ensures { result ≡ first_column size lengths.now k }
{
    index_columns(size, lengths.len()) + member_columns(size, &lengths[..k])
}

/// All columns that are used.
#[tactic(auto, unfolding(crate::specs::Layout::used_columns))]
pub(crate) fn used_columns(size: u64, lengths: &[u32]) -> u64
    requires some { 0 < size }
    requires few { length lengths.now ≤ 666 }
    ensures { result ≡ used_columns size lengths.now }
{
    index_columns(size, lengths.len()) + member_columns(size, lengths)
}

/// Whether the columns that are used are among those of the source block, for symbols of `2 * half`
/// bytes.
fn has_room(f: u32, lengths: &[u32], half: u64) -> bool
    requires few { f ≤ 333 }
    requires members { length lengths.now ≤ 666 }
    requires some { 1 ≤ half }
    requires most { half < 2 ^ 32 }
    ensures { IsTrue result ↔ ColumnsFit f lengths.now (2 * half) }
{
    let size = (u64::from(f) + 1) * (2 * half);
    used_columns(size, lengths) <= 2 * u64::from(f) + 1
}

/// Whether twice `half` is the least even size of a symbol for which there is room.
pub(crate) fn is_bundle_size(f: u32, lengths: &[u32], half: u64) -> bool
    requires few { f ≤ 333 }
    requires members { length lengths.now ≤ 666 }
    requires some { 1 ≤ half }
    requires most { half < 2 ^ 32 }
    ensures { IsTrue result ↔ IsBundleSize f lengths.now (2 * half) }
{
    has_room(f, lengths, half) && (half == 1 || !has_room(f, lengths, half - 1))
}

/// Half of the least even size of a symbol for which there is room, or one more than `most` where
/// that is above `2 * most`.
pub(crate) fn least_half(f: u32, lengths: &[u32], most: u64) -> u64
    requires few { f ≤ 333 }
    requires members { length lengths.now ≤ 666 }
    requires most { most < 2 ^ 31 }
    ensures some { 1 ≤ result }
    ensures least { result ≤ most → IsBundleSize f lengths.now (2 * result) }
    ensures none { most < result → (t : ℕ) → t % 2 ≡ 0 → 2 ≤ t → ColumnsFit f lengths.now t
        → 2 * most < t }
{
    let mut low = 1;
    let mut high = most + 1;
    while low < high {
        let middle = (low + high) / 2;
        if has_room(f, lengths, middle) {
            high = middle;
        } else {
            low = middle + 1;
        }
    }
    low
}
