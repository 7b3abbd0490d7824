//! Which refusal a call reported, by its status and its text.

ghost use Rattle.std.specs.Prelude.{◌≡◌, map};
ghost use Rattle.walrus_c.specs.Codes.{code_of, first_code};

use crate::words::NO_WORDS;
use wal_run::{
    COLLISION, MALFORMED, NO_MEMORY, REJECTED, SHORT, SINK_FAILED, SOURCE_FAILED, TOO_LONG, USAGE,
};

/// For each refusal its number, its status, and the words with which its text begins; none where
/// the text may be any.
const REFUSALS: [(u32, u8, &[u8]); 34] = [
    (201, USAGE, b"usage: "),
    (301, REJECTED, b"reject\n"),
    (302, REJECTED, b"inconsistent\n"),
    (303, REJECTED, b"bad index\n"),
    (304, REJECTED, b"wrong "),
    (305, REJECTED, b"W"),
    (401, SHORT, b"no metadata\n"),
    (402, SHORT, b"short "),
    (403, SHORT, b"no proof\n"),
    (404, SHORT, b"wrong count\n"),
    (405, SHORT, b"repeated\n"),
    (406, SHORT, b"bad opening "),
    (407, SHORT, b"consistent\n"),
    (408, SHORT, b"disk full needed "),
    (409, SHORT, b"too many members\n"),
    (410, SHORT, b"bundle too long\n"),
    (411, SHORT, b"missing column "),
    (412, SHORT, b"no member of "),
    (413, SHORT, b"no shard\n"),
    (414, SHORT, b"no primary\n"),
    (415, SHORT, b"no secondary\n"),
    (416, SHORT, b"wrong count "),
    (501, NO_MEMORY, b""),
    (601, SOURCE_FAILED, b""),
    (701, SINK_FAILED, b""),
    (801, MALFORMED, b"malformed at "),
    (802, MALFORMED, b"not json\n"),
    (803, MALFORMED, b"bad schedule\n"),
    (804, MALFORMED, b"too many events\n"),
    (805, MALFORMED, b"bad event "),
    (806, MALFORMED, b""),
    (901, TOO_LONG, b""),
    (1001, COLLISION, b""),
    (1101, NO_WORDS, b""),
];

// The number of the first row of this status whose words are a prefix of the text, or 0.
fn first_code(mut rows: &[(u32, u8, &[u8])], status: u8, text: &[u8]) -> u32
    ensures { result
        ≡ first_code (map (λ row. (row.0, row.1, row.2.now)) rows.entry.now) status text.now }
{
    while let [row, rest @ ..] = rows {
        if row.1 == status && text.starts_with(row.2) {
            return row.0;
        }
        rows = rest;
    }
    0
}

/// The code of a text that was written with this status.
pub fn code_of(status: u8, text: &[u8]) -> u32
    ensures { result ≡ code_of status text.now }
{
    first_code(&REFUSALS, status, text)
}
