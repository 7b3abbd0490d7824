ghost use Rattle.std.specs.Prelude.{◌≡◌, ◌+◌, ◌*◌, ◌≤◌, ◌++◌, drop, length, take};
ghost use Rattle.wal_lanes.specs.inside.Lanes.{put_at};

/// The piece of `size` bytes at this place.
pub fn piece_at(content: &[u8], size: usize, place: usize) -> &[u8]
    requires { place * size + size ≤ length content.now }
    ensures { result.now ≡ take size (drop (place * size) content.now) }
{
    &content[place * size..place * size + size]
}

/// Puts the bytes in place of those from `at` on.
pub fn put(out: &mut [u8], at: usize, bytes: &[u8])
    requires { at + length bytes.now ≤ length out.old }
    ensures put { out.new ≡ put_at at out.old bytes.now }
    ensures front { take (at + length bytes.now) out.new ≡ take at out.old ++ bytes.now }
    ensures size { length out.new ≡ length out.old }
{
    out[at..at + bytes.len()].copy_from_slice(bytes);
}
