//! Reads and writes that fail, each in turn, of each command that takes input.

use crate::runs::words_of;
use std::alloc::{AllocError, Global};
use std::test::Fail;
use test_data::{
    ASKED, BUNDLE, COLUMNS, HELD, IMAGE, MEMBERS, OPENED, PROVED, SECONDARY, SHOWN, SIX_WORDS,
    STREAM,
};
use wal_port::{MemSink, MemSource};
use wal_run::run;
use wal_tree::Sha;

/// A command with its input, the status, the text behind so many bytes, how many bytes it is given
/// and may write at once, and how many reads and writes there are.
#[derive(Clone, Copy)]
struct Trial {
    words: &'static [&'static str],
    input: &'static [u8],
    status: u8,
    text: &'static [u8],
    skip: usize,
    size: u32,
    reads: u32,
    writes: u32,
}

const ID: &str = "e02bba4bcbf5e38690b9d44c477647094b390c35d101726424629de2f5ab48fa";

const FALSE_ID: &str = "4030c504f89246f8502eb60ac639f1cf7cc85d6efab624d0a3df200b7b931a72";

const SCHEDULE: &[u8] = br#"{"f":1,"epoch":0,"faulty":[3],"events":[
{"do":"register","id":"e02bba4bcbf5e38690b9d44c477647094b390c35d101726424629de2f5ab48fa","until":5},
{"do":"write","blob":"000100020003000400050006","to":[0,1,2]},
{"do":"ack","shard":0,"id":"e02bba4bcbf5e38690b9d44c477647094b390c35d101726424629de2f5ab48fa"},
{"do":"ack","shard":1,"id":"e02bba4bcbf5e38690b9d44c477647094b390c35d101726424629de2f5ab48fa"},
{"do":"ack","shard":2,"id":"e02bba4bcbf5e38690b9d44c477647094b390c35d101726424629de2f5ab48fa"},
{"do":"ack","shard":0,"id":"e02bba4bcbf5e38690b9d44c477647094b390c35d101726424629de2f5ab48fa"},
{"do":"ack","shard":3,"id":"e02bba4bcbf5e38690b9d44c477647094b390c35d101726424629de2f5ab48fa"},
{"do":"certificate","id":"e02bba4bcbf5e38690b9d44c477647094b390c35d101726424629de2f5ab48fa"},
{"do":"holders","id":"e02bba4bcbf5e38690b9d44c477647094b390c35d101726424629de2f5ab48fa"}]}"#;

const REPORT: &[u8] =
    b"register e02bba4bcbf5e38690b9d44c477647094b390c35d101726424629de2f5ab48fa until 5
write e02bba4bcbf5e38690b9d44c477647094b390c35d101726424629de2f5ab48fa stored 3 bytes 000100020003000400050006
ack 0 e02bba4bcbf5e38690b9d44c477647094b390c35d101726424629de2f5ab48fa counted 1
ack 1 e02bba4bcbf5e38690b9d44c477647094b390c35d101726424629de2f5ab48fa counted 2
ack 2 e02bba4bcbf5e38690b9d44c477647094b390c35d101726424629de2f5ab48fa certified 3
ack 0 e02bba4bcbf5e38690b9d44c477647094b390c35d101726424629de2f5ab48fa already
ack 3 e02bba4bcbf5e38690b9d44c477647094b390c35d101726424629de2f5ab48fa certified 4
certificate e02bba4bcbf5e38690b9d44c477647094b390c35d101726424629de2f5ab48fa epoch 0 count 4
holders e02bba4bcbf5e38690b9d44c477647094b390c35d101726424629de2f5ab48fa 3
";

const TRIALS: [Trial; 13] = [
    Trial {
        words: &["id", "1"],
        input: &SIX_WORDS,
        status: 0,
        text: b"e02bba4bcbf5e38690b9d44c477647094b390c35d101726424629de2f5ab48fa\n",
        skip: 0,
        size: 10,
        reads: 3,
        writes: 7,
    },
    Trial {
        words: &["encode", "1"],
        input: &SIX_WORDS,
        status: 0,
        text: &STREAM,
        skip: 0,
        size: 7,
        reads: 3,
        writes: 104,
    },
    Trial {
        words: &["read", ID],
        input: &STREAM,
        status: 0,
        text: &SIX_WORDS,
        skip: 0,
        size: 7,
        reads: 100,
        writes: 2,
    },
    Trial {
        words: &["recover", FALSE_ID, "secondary", "2"],
        input: &OPENED,
        status: 3,
        text: &PROVED,
        skip: 274,
        size: 10,
        reads: 52,
        writes: 20,
    },
    Trial {
        words: &["check", FALSE_ID],
        input: &PROVED,
        status: 3,
        text: b"inconsistent\n",
        skip: 0,
        size: 10,
        reads: 48,
        writes: 2,
    },
    Trial {
        words: &["replay"],
        input: SCHEDULE,
        status: 0,
        text: REPORT,
        skip: 0,
        size: 20,
        reads: 45,
        writes: 44,
    },
    Trial {
        words: &[
            "challenge",
            ID,
            "0",
            "0000000000000000000000000000000000000000000000000000000000000000",
            "2",
        ],
        input: &HELD,
        status: 0,
        text: &SHOWN,
        skip: 274,
        size: 7,
        reads: 55,
        writes: 34,
    },
    Trial {
        words: &[
            "verify",
            ID,
            "0",
            "0000000000000000000000000000000000000000000000000000000000000000",
            "2",
        ],
        input: &SHOWN,
        status: 0,
        text: b"accepted\n",
        skip: 0,
        size: 10,
        reads: 52,
        writes: 1,
    },
    Trial {
        words: &["image", "44"],
        input: &SECONDARY,
        status: 0,
        text: &IMAGE,
        skip: 0,
        size: 10,
        reads: 7,
        writes: 5,
    },
    Trial {
        words: &["unpack"],
        input: &IMAGE,
        status: 0,
        text: b"e02bba4bcbf5e38690b9d44c477647094b390c35d101726424629de2f5ab48fa secondary 4\n",
        skip: 0,
        size: 10,
        reads: 6,
        writes: 8,
    },
    Trial {
        words: &["bundle", "1"],
        input: &MEMBERS,
        status: 0,
        text: &BUNDLE,
        skip: 0,
        size: 10,
        reads: 3,
        writes: 5,
    },
    Trial {
        words: &[
            "member",
            "19606315d2ae31bfc5059e48a8d79650229a75de52b991cd907f9c373baeb665",
            "1",
        ],
        input: &COLUMNS,
        status: 0,
        text: &[0xcc],
        skip: 0,
        size: 10,
        reads: 41,
        writes: 1,
    },
    Trial {
        words: &["gateway", "1"],
        input: &ASKED,
        status: 0,
        text: b"miss range 00020003\nhit out of range 12\nhit range -\n",
        skip: 0,
        size: 10,
        reads: 54,
        writes: 6,
    },
];

/// What is written.
fn text_of(trial: Trial) -> &'static [u8] {
    trial.text.get(trial.skip..).unwrap_or(&[])
}

/// The status and the sink after reads and writes of these numbers failed.
fn run_trial(
    alloc: Global,
    trial: Trial,
    reads: &[u32],
    writes: &[u32],
) -> Result<(u8, MemSink), AllocError> {
    let words = words_of(alloc, trial.words)?;
    let input = Vec::from_slice(alloc, trial.input)?;
    let size = trial.size.max(1);
    let mut source = MemSource::create(input, size, Vec::from_slice(alloc, reads)?);
    let mut sink = MemSink::create(alloc, 4000, size, Vec::from_slice(alloc, writes)?)?;
    let status = run::<Sha, _, _>(alloc, &words, &mut source, &mut sink);
    Ok((status, sink))
}

/// Whether the run ends plainly behind the whole text, though a read or a write behind the last
/// ones would fail.
fn is_whole(alloc: Global, trial: Trial) -> Result<bool, AllocError> {
    let reads = [trial.reads.saturating_add(1)];
    let writes = [trial.writes.saturating_add(1)];
    let (status, sink) = run_trial(alloc, trial, &reads, &writes)?;
    Ok(status == trial.status && sink.bytes() == text_of(trial))
}

/// Whether each read that fails, the one that finds the end too, ends the run before it writes.
fn fails_to_read(alloc: Global, trial: Trial) -> Result<bool, AllocError> {
    let mut told = true;
    for read in 0..trial.reads {
        let (status, sink) = run_trial(alloc, trial, &[read + 1], &[])?;
        told &= status == 6 && sink.bytes().is_empty();
    }
    Ok(told)
}

/// Whether each write that fails ends the run behind what the writes before it took, each of which
/// took something.
fn fails_to_write(alloc: Global, trial: Trial) -> Result<bool, AllocError> {
    let mut told = true;
    let mut least = 0;
    for write in 0..trial.writes {
        let (status, sink) = run_trial(alloc, trial, &[], &[write + 1])?;
        let size = sink.bytes().len();
        told &= status == 7 && size >= least && text_of(trial).starts_with(sink.bytes());
        least = size.saturating_add(1);
    }
    Ok(told && text_of(trial).len() >= least)
}

/// The place of the first trial in which there are other reads or writes than these.
fn first_other(alloc: Global) -> Result<Option<usize>, AllocError> {
    for (place, trial) in TRIALS.iter().enumerate() {
        let whole = is_whole(alloc, *trial)?;
        if !whole || !fails_to_read(alloc, *trial)? || !fails_to_write(alloc, *trial)? {
            return Ok(Some(place));
        }
    }
    Ok(None)
}

#[test]
fn each_read_and_each_write_fails_in_turn(rt: HostRuntime) -> Result<(), Fail> {
    assert!(rt; first_other(rt.alloc())? == None);
    Ok(())
}

/// Two envelopes from node 9 whose payload is the byte 0, which is no kind, and what is answered.
const SERVE: Trial = Trial {
    words: &["serve", "1", "0", "--pages", "3"],
    input: &[
        0x57, 0, 9, 0, 0, 0, 1, 0, //
        0x57, 0, 9, 0, 0, 0, 1, 0,
    ],
    status: 0,
    text: &[
        0x57, 0, 0, 0, 0, 0, 10, 0x30, 9, 0, 0, 0, 2, 0, 0, 0, 0, //
        0x57, 0, 0, 0, 0, 0, 10, 0x30, 9, 0, 0, 0, 2, 0, 0, 0, 0,
    ],
    skip: 0,
    size: 8,
    reads: 7,
    writes: 6,
};

/// The read and the write that fails, with 0 for none, and the status and the length of what is
/// written then. Each envelope is three reads, and its answer three writes before the next read.
const SERVED: [(u32, u32, u8, usize); 15] = [
    (1, 0, 6, 0),
    (2, 0, 6, 0),
    (3, 0, 6, 0),
    (4, 0, 6, 17),
    (5, 0, 6, 17),
    (6, 0, 6, 17),
    (7, 0, 6, 34),
    (8, 0, 0, 34),
    (0, 1, 7, 0),
    (0, 2, 7, 8),
    (0, 3, 7, 16),
    (0, 4, 7, 17),
    (0, 5, 7, 25),
    (0, 6, 7, 33),
    (0, 7, 0, 34),
];

/// The place of the first row that is served otherwise.
fn first_served_otherwise(alloc: Global) -> Result<Option<usize>, AllocError> {
    for (place, row) in SERVED.iter().enumerate() {
        let (ended, sink) = run_trial(alloc, SERVE, &[row.0], &[row.1])?;
        if ended != row.2 || Some(sink.bytes()) != SERVE.text.get(..row.3) {
            return Ok(Some(place));
        }
    }
    Ok(None)
}

#[test]
fn each_envelope_is_answered_before_the_next_read(rt: HostRuntime) -> Result<(), Fail> {
    assert!(rt; first_served_otherwise(rt.alloc())? == None);
    Ok(())
}
