//! Lines of text.

ghost use Rattle.std.specs.Prelude.{◌≡◌, ◌++◌, OnOk, decimal};
ghost use Rattle.wal_run.specs.Lines.{collision_text, number_text, short_text};
ghost use Rattle.wal_event.specs.Report.{hex_text};

use itoa::Buffer;
use std::alloc::{AllocError, Global};

/// Appends a prefix, a number, and a newline.
pub fn add_number(text: &mut Vec<u8>, prefix: &[u8], number: u64) -> Result<(), AllocError>
    ensures { OnOk result (text.new.items ≡ text.old.items ++ number_text prefix.now number) }
{
    let mut digits = Buffer::new();
    text.extend_from_slice(prefix)?;
    text.extend_from_slice(digits.format(number).as_bytes())?;
    text.extend_from_slice(b"\n")
}

/// Appends two numbers, each behind a prefix, and a newline.
pub fn add_numbers(
    text: &mut Vec<u8>,
    prefix: &[u8],
    first: u64,
    between: &[u8],
    second: u64,
) -> Result<(), AllocError>
    ensures { OnOk result (text.new.items
        ≡ text.old.items ++ (prefix.now ++ decimal first ++ number_text between.now second)) }
{
    let mut digits = Buffer::new();
    text.extend_from_slice(prefix)?;
    text.extend_from_slice(digits.format(first).as_bytes())?;
    add_number(text, between, second)
}

/// Appends how many parts were held, and how many are needed.
pub fn add_short(text: &mut Vec<u8>, have: u32, need: u32) -> Result<(), AllocError>
    ensures { OnOk result (text.new.items ≡ text.old.items ++ short_text have need) }
{
    add_numbers(text, b"short ", u64::from(have), b" of ", u64::from(need))
}

/// Appends bytes in lower-case digits, and a dash if there are none.
pub fn add_digits(alloc: Global, line: &mut Vec<u8>, bytes: &[u8]) -> Result<(), AllocError>
    ensures { OnOk result (line.new.items ≡ line.old.items ++ hex_text bytes.now) }
{
    match bytes {
        [] => line.extend_from_slice(b"-"),
        [_, ..] => {
            let digits = hex::encode(alloc, bytes)?;
            line.extend_from_slice(digits.as_str().as_bytes())
        }
    }
}

/// Appends the line of two texts with one digest.
pub fn add_collision(
    alloc: Global,
    line: &mut Vec<u8>,
    left: &[u8],
    right: &[u8],
) -> Result<(), AllocError>
    ensures { OnOk result (line.new.items ≡ line.old.items ++ collision_text left.now right.now) }
{
    line.extend_from_slice(b"collision ")?;
    add_digits(alloc, line, left)?;
    line.extend_from_slice(b" ")?;
    add_digits(alloc, line, right)?;
    line.extend_from_slice(b"\n")
}
