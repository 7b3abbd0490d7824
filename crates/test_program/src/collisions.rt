//! Replays that end in a collision. Under the toy digest all blobs of twelve bytes for one fault
//! have one metadata, and all blobs of thirty bytes for two faults one identifier: their metadata
//! are the same where the words of each row and column sum to zero, as those of a multiple of the
//! codeword 7 6 5 4 3 2 1 do.

use crate::runs::run_on;
use std::alloc::{AllocError, Global};
use std::test::Fail;
use wal_tree::{Hash32, Toy32};

/// How schedules begin, the front of metadata, and the one identifier, in a format.
#[derive(Clone, Copy)]
struct Setting {
    head: &'static str,
    front: &'static str,
    id: &'static str,
}

/// For one fault, in each format.
const ONE_FAULT: [Setting; 2] = [
    Setting {
        head: r#"{"f":1,"epoch":0,"faulty":[],"events":["#,
        front: "10",
        id: "020001000000000000000c010000000000000000000000000000000000000000",
    },
    Setting {
        head: r#"{"f":1,"epoch":0,"format":2,"faulty":[],"events":["#,
        front: "1402",
        id: "03020001000000000000000c0100000000000000000000000000000000000000",
    },
];

const TWO_FAULTS: [Setting; 2] = [
    Setting {
        head: r#"{"f":2,"epoch":0,"faulty":[],"events":["#,
        front: "10",
        id: "020002000000000000001e010000000000000000000000000000000000000000",
    },
    Setting {
        head: r#"{"f":2,"epoch":0,"format":2,"faulty":[],"events":["#,
        front: "1402",
        id: "03020002000000000000001e0100000000000000000000000000000000000000",
    },
];

/// What a sign stands for: the identifier, the front of metadata, and the roots 1 and zeros, zeros,
/// and that over a line of ones.
fn meaning(setting: Setting, sign: u8) -> &'static str {
    match sign {
        b'@' => setting.id,
        b'#' => setting.front,
        b'%' => "0100000000000000000000000000000000000000000000000000000000000000",
        b'_' => "0000000000000000000000000000000000000000000000000000000000000000",
        b'~' => "0100000000010000000000000000000000000000000000000000000000000000",
        _ => "",
    }
}

/// The schedule of these events.
fn schedule(alloc: Global, setting: Setting, events: &[&str]) -> Result<Vec<u8>, AllocError> {
    let mut text = Vec::from_slice(alloc, setting.head.as_bytes())?;
    for piece in events {
        for byte in piece.as_bytes() {
            let part = meaning(setting, *byte);
            if part.is_empty() {
                text.push(*byte)?;
            } else {
                text.extend_from_slice(part.as_bytes())?;
            }
        }
    }
    text.extend_from_slice(b"]}")?;
    Ok(text)
}

/// Whether the words are two different texts with one digest.
fn collide(alloc: Global, left: &str, right: &str) -> Result<bool, Fail> {
    let left = hex::decode(alloc, left)?;
    let right = hex::decode(alloc, right)?;
    Ok(
        left.as_slice() != right.as_slice()
            && Toy32::hash3(left.as_slice(), &[], &[]) == Toy32::hash3(right.as_slice(), &[], &[]),
    )
}

/// Whether the replay of these events ends with the line of a collision, after so many others.
fn ends_in_collision(
    alloc: Global,
    setting: Setting,
    events: &[&str],
    before: usize,
) -> Result<bool, Fail> {
    let input = schedule(alloc, setting, events)?;
    let (status, sink) = run_on(alloc, &["replay"], input)?;
    let report = str::from_utf8(sink.bytes()).unwrap_or("");
    let mut lines = report.split('\n').skip(before);
    let mut words = lines.next().unwrap_or("").split(' ');
    let told = words.next() == Some("collision");
    let left = words.next().unwrap_or("");
    let right = words.next().unwrap_or("");
    Ok(status == 10 && told && collide(alloc, left, right)? && lines.next() == Some(""))
}

/// The place of the first row that does not end so in one of these settings.
fn first_without(
    alloc: Global,
    settings: &[Setting],
    rows: &[(&[&str], usize)],
) -> Result<Option<usize>, Fail> {
    for setting in settings {
        for (place, row) in rows.iter().enumerate() {
            if !ends_in_collision(alloc, *setting, row.0, row.1)? {
                return Ok(Some(place));
            }
        }
    }
    Ok(None)
}

const WRITE_WORDS: &str = r#"{"do":"write","blob":"000100020003000400050006","to":[]},"#;

const WRITE_ZEROS: &str = r#"{"do":"write","blob":"000000000000000000000000","to":[]}"#;

const REGISTER: &str = r#"{"do":"register","id":"@","until":5},"#;

const READ: &str = r#"{"do":"read","id":"@","replies":["#;

/// The metadata of twelve bytes, and one with zeros for the first pair of roots.
const METADATA: &str = r##"{"bytes":"#0001000000000000000c%%%%%%%%"}"##;

const OTHER: &str = r##"{"bytes":"#0001000000000000000c__%%%%%%"}"##;

/// The slivers of the six words, and of zeros, and the end of a read.
const WORDS: &str =
    r#",{"bytes":"11@00000000000006000100020003"},{"bytes":"11@00000100000006000400050006"}]}"#;

const ZEROS: &str =
    r#",{"bytes":"11@00000000000006000000000000"},{"bytes":"11@00000100000006000000000000"}]}"#;

/// Events, and the number of lines before that of the collision.
const ROWS: [(&[&str], usize); 6] = [
    (&[WRITE_WORDS, WRITE_ZEROS, r#",{"do":"finish"}"#], 1),
    (
        &[
            READ,
            METADATA,
            WORDS,
            ",",
            READ,
            METADATA,
            ZEROS,
            ",",
            WRITE_ZEROS,
        ],
        1,
    ),
    (&[WRITE_WORDS, READ, METADATA, ZEROS, ",", WRITE_ZEROS], 1),
    (&[READ, METADATA, ",", OTHER, "]},", WRITE_ZEROS], 0),
    (
        &[
            REGISTER,
            r#"{"do":"recover","at":"now","shard":0,"axis":"secondary","id":"@","replies":["#,
            METADATA,
            ",",
            OTHER,
            "]}",
        ],
        1,
    ),
    (
        &[
            REGISTER,
            r##"{"do":"send","at":"now","shard":0,"bytes":"#0001000000000000000c%%%%%%%%"},"##,
            r##"{"do":"send","at":"now","shard":0,"bytes":"#0001000000000000000c__%%%%%%"}"##,
        ],
        2,
    ),
];

#[test]
fn collisions_for_one_fault(rt: HostRuntime) -> Result<(), Fail> {
    assert!(rt; first_without(rt.alloc(), &ONE_FAULT, &ROWS)? == None);
    Ok(())
}

/// Writes of thirty bytes for two faults: products of codewords, ones and zeros.
const WRITE_PRODUCTS: &str =
    r#"{"do":"write","blob":"00150012001b001c000900120014001e0018000a001b001e00110014000f","to":[]},"#;

const WRITE_ONES: &str =
    r#"{"do":"write","blob":"000100010001000100010001000100010001000100010001000100010001","to":[]},"#;

const WRITE_THIRTY: &str =
    r#"{"do":"write","blob":"000000000000000000000000000000000000000000000000000000000000","to":[]}"#;

/// Reads of their metadata and slivers. Products have the metadata of zeros.
const READ_PRODUCTS: &str =
    r##"{"do":"read","id":"@","replies":[{"bytes":"#0002000000000000001e%%%%%%%%%%%%%%"},{"bytes":"11@0000000000000a00150012001b001c0009"},{"bytes":"11@0000010000000a00120014001e0018000a"},{"bytes":"11@0000020000000a001b001e00110014000f"}]}"##;

const READ_ONES: &str =
    r##"{"do":"read","id":"@","replies":[{"bytes":"#0002000000000000001e~~~~~~~~~~~~~~"},{"bytes":"11@0000000000000a00010001000100010001"},{"bytes":"11@0000010000000a00010001000100010001"},{"bytes":"11@0000020000000a00010001000100010001"}]}"##;

const READ_ZEROS: &str =
    r##"{"do":"read","id":"@","replies":[{"bytes":"#0002000000000000001e%%%%%%%%%%%%%%"},{"bytes":"11@0000000000000a00000000000000000000"},{"bytes":"11@0000010000000a00000000000000000000"},{"bytes":"11@0000020000000a00000000000000000000"}]}"##;

/// A read of the metadata of zeros and a proof by openings of three of their rows for secondary
/// sliver 0. In place of zero the first one has the symbol 1, and beside it a leaf for 1, so that
/// both leave the digest of their node as it was.
const READ_PROOF: &str =
    r##"{"do":"read","id":"@","replies":[{"bytes":"#0002000000000000001e%%%%%%%%%%%%%%"},{"bytes":"13@01000000030000000000020001030000010000000000000000000000000000000000000000000000000000000000%%000100000002000003_%%000200000002000003_%%"}]}"##;

const LONG_ROWS: [(&[&str], usize); 7] = [
    (&[WRITE_PRODUCTS, WRITE_THIRTY], 1),
    (&[WRITE_ONES, WRITE_THIRTY], 1),
    (&[WRITE_ONES, READ_ZEROS], 1),
    (&[WRITE_PRODUCTS, READ_ZEROS], 1),
    (&[READ_PRODUCTS, ",", READ_ZEROS], 1),
    (&[READ_ONES, ",", READ_ZEROS], 1),
    (&[READ_ZEROS, ",", READ_PROOF], 1),
];

#[test]
fn collisions_for_two_faults(rt: HostRuntime) -> Result<(), Fail> {
    assert!(rt; first_without(rt.alloc(), &TWO_FAULTS, &LONG_ROWS)? == None);
    Ok(())
}
