//! The program as one call from C: the words, the input and the room for the output are slices.
#![tactic(auto)]

ghost use Rattle.std.specs.Prelude.{◌≡◌};
ghost use Rattle.sha2.specs.Sha256.{sha256};
ghost use Rattle.walrus_c.specs.Call.{Returns};
ghost use Rattle.walrus_c.specs.Causes.{ShowsWhy};
ghost use Rattle.walrus_c.specs.Codes.{code_of};
ghost use Rattle.walrus_c.specs.Room.{IsRoom, Suffices};

mod call;
mod codes;
mod room;
mod words;

use call::{run_over, status_told};
use codes::code_of;
use room::{room_for, untold};
use std::alloc::Global;
use words::words_of;

/// Does what the words ask for, with `input` as the input, and keeps the beginning of the text in
/// `output`.
///
/// Each word has a zero byte behind it. `written` is how many bytes of `output` are the text's, and
/// `needed` how many the whole text has; at status 5 the text ends where memory ran out.
#[unsafe(no_mangle)]
pub extern "C" fn walrus_run(
    alloc: Global,
    words: &[u8],
    input: &[u8],
    output: &mut [u8],
    written: &mut u64,
    needed: &mut u64,
) -> u8
    ensures { Returns sha256 words.now input.now output.old
        output.new written.new needed.new result }
{
    *written = 0;
    *needed = 0;
    match words_of(alloc, words) {
        Ok(words) => {
            let room = output.len() as u64;
            let ended = run_over(alloc, &words, input, output);
            *needed = ended.count;
            *written = ended.count.min(room);
            status_told(ended.status, ended.count, room)
        }
        Err(status) => status,
    }
}

/// How many bytes of output suffice for the words and any input of `input_len` bytes, all ones
/// where none is given, or one less where memory ran out before the words were read.
#[unsafe(no_mangle)]
pub extern "C" fn walrus_room(alloc: Global, words: &[u8], input_len: u64) -> u64
    // The table, by the words' task.
    ensures exact { IsRoom words.now input_len result }
    // Whatever input of so many bytes it is, and however a run over it ends.
    ensures suffices { Suffices sha256 words.now input_len result }
{
    match words_of(alloc, words) {
        Ok(words) => room_for(alloc, &words, input_len),
        Err(status) => untold(status),
    }
}

/// Which refusal a call of `walrus_run` reported, by its status and the text that it wrote: a
/// number of the table, or 0 if it reported none.
#[unsafe(no_mangle)]
pub extern "C" fn walrus_code(status: u8, output: &[u8]) -> u32
    // The table.
    ensures exact { result ≡ code_of status output.now }
    // Whatever words and input the run had that wrote this with this status: unless that is 0, the
    // code shows why.
    ensures why { ShowsWhy sha256 status output.now result }
{
    code_of(status, output)
}
