//! Schedules under SHA-256: one in which each event ends in each of its words, stories that were
//! worked by hand, and the sample of a number.

use crate::runs::words_of;
use std::alloc::{AllocError, Global};
use std::test::Fail;
use wal_port::{MemSink, MemSource};
use wal_run::run;
use wal_tree::Sha;

/// The text of `tests/data/every_word.json`.
const EVERY_WORD: &str = r#"{
  "f": 1, "epoch": 65534, "faulty": [3],
  "events": [
    {"do": "send", "at": "now", "shard": 0, "bytes": "ff"},
    {"do": "send", "at": "next", "shard": 0, "bytes": "100001000000000000000cc925f721ebc3ef5f004207dc9c1cebe30411ac77aaa56c6ba7412db955841f13fa70ce6c36c866de8bce8b8e42c4cae2d9a6bcb85f990a415a9e1c5adba00bf8112cafbe323b00b6b407b905a247d0d12400b61294d0ef67cd2162f754b957fbd506b50ccd48d5e088fb31d352afb3cf508757740b3560a09703d45700f1ee3c8998560808f16ebeda47d45012b823b6d8742cc6a192119838792a60859a2ce5b7d4a6afdc3f87f388847b9006f1e8ece1c5dccfdfd525b3e9bf5d4300aa5aff4523d97308702702464e524a606e6e5c4f7712c2084aa03ffc0c16274e07d54e64e8d30412ca04ba5f940a1437dbc5492fbcc75c0d229edb76e74796b6867a8a"},
    {"do": "send", "at": "now", "shard": 3, "bytes": "100001000000000000000cc925f721ebc3ef5f004207dc9c1cebe30411ac77aaa56c6ba7412db955841f13fa70ce6c36c866de8bce8b8e42c4cae2d9a6bcb85f990a415a9e1c5adba00bf8112cafbe323b00b6b407b905a247d0d12400b61294d0ef67cd2162f754b957fbd506b50ccd48d5e088fb31d352afb3cf508757740b3560a09703d45700f1ee3c8998560808f16ebeda47d45012b823b6d8742cc6a192119838792a60859a2ce5b7d4a6afdc3f87f388847b9006f1e8ece1c5dccfdfd525b3e9bf5d4300aa5aff4523d97308702702464e524a606e6e5c4f7712c2084aa03ffc0c16274e07d54e64e8d30412ca04ba5f940a1437dbc5492fbcc75c0d229edb76e74796b6867a8a"},
    {"do": "send", "at": "now", "shard": 0, "bytes": "100001000000000000000cc925f721ebc3ef5f004207dc9c1cebe30411ac77aaa56c6ba7412db955841f13fa70ce6c36c866de8bce8b8e42c4cae2d9a6bcb85f990a415a9e1c5adba00bf8112cafbe323b00b6b407b905a247d0d12400b61294d0ef67cd2162f754b957fbd506b50ccd48d5e088fb31d352afb3cf508757740b3560a09703d45700f1ee3c8998560808f16ebeda47d45012b823b6d8742cc6a192119838792a60859a2ce5b7d4a6afdc3f87f388847b9006f1e8ece1c5dccfdfd525b3e9bf5d4300aa5aff4523d97308702702464e524a606e6e5c4f7712c2084aa03ffc0c16274e07d54e64e8d30412ca04ba5f940a1437dbc5492fbcc75c0d229edb76e74796b6867a8a"},
    {"do": "ack", "shard": 0, "id": "e02bba4bcbf5e38690b9d44c477647094b390c35d101726424629de2f5ab48fa"},
    {"do": "attest", "shard": 0, "id": "e02bba4bcbf5e38690b9d44c477647094b390c35d101726424629de2f5ab48fa"},
    {"do": "recover", "at": "next", "shard": 0, "axis": "primary", "id": "e02bba4bcbf5e38690b9d44c477647094b390c35d101726424629de2f5ab48fa", "replies": []},
    {"do": "recover", "at": "now", "shard": 3, "axis": "primary", "id": "e02bba4bcbf5e38690b9d44c477647094b390c35d101726424629de2f5ab48fa", "replies": []},
    {"do": "recover", "at": "now", "shard": 0, "axis": "primary", "id": "e02bba4bcbf5e38690b9d44c477647094b390c35d101726424629de2f5ab48fa", "replies": []},
    {"do": "forget", "at": "next", "shard": 0, "id": "e02bba4bcbf5e38690b9d44c477647094b390c35d101726424629de2f5ab48fa"},
    {"do": "forget", "at": "now", "shard": 3, "id": "e02bba4bcbf5e38690b9d44c477647094b390c35d101726424629de2f5ab48fa"},
    {"do": "forget", "at": "now", "shard": 0, "id": "e02bba4bcbf5e38690b9d44c477647094b390c35d101726424629de2f5ab48fa"},
    {"do": "read", "id": "e02bba4bcbf5e38690b9d44c477647094b390c35d101726424629de2f5ab48fa", "replies": [{"true": 0, "at": "now"}]},
    {"do": "register", "id": "e02bba4bcbf5e38690b9d44c477647094b390c35d101726424629de2f5ab48fa", "until": 65534},
    {"do": "register", "id": "e02bba4bcbf5e38690b9d44c477647094b390c35d101726424629de2f5ab48fa", "until": 65536},
    {"do": "send", "at": "now", "shard": 0, "bytes": "11e02bba4bcbf5e38690b9d44c477647094b390c35d101726424629de2f5ab48fa00000000000006000100020003"},
    {"do": "recover", "at": "now", "shard": 0, "axis": "primary", "id": "e02bba4bcbf5e38690b9d44c477647094b390c35d101726424629de2f5ab48fa", "replies": [{"true": 1, "at": "now"}]},
    {"do": "ack", "shard": 0, "id": "e02bba4bcbf5e38690b9d44c477647094b390c35d101726424629de2f5ab48fa"},
    {"do": "write", "blob": "000100020003000400050006", "to": [0, 1, 2]},
    {"do": "send", "at": "now", "shard": 0, "bytes": "100001000000000000000cc925f721ebc3ef5f004207dc9c1cebe30411ac77aaa56c6ba7412db955841f13fa70ce6c36c866de8bce8b8e42c4cae2d9a6bcb85f990a415a9e1c5adba00bf8112cafbe323b00b6b407b905a247d0d12400b61294d0ef67cd2162f754b957fbd506b50ccd48d5e088fb31d352afb3cf508757740b3560a09703d45700f1ee3c8998560808f16ebeda47d45012b823b6d8742cc6a192119838792a60859a2ce5b7d4a6afdc3f87f388847b9006f1e8ece1c5dccfdfd525b3e9bf5d4300aa5aff4523d97308702702464e524a606e6e5c4f7712c2084aa03ffc0c16274e07d54e64e8d30412ca04ba5f940a1437dbc5492fbcc75c0d229edb76e74796b6867a8a"},
    {"do": "send", "at": "now", "shard": 0, "bytes": "11e02bba4bcbf5e38690b9d44c477647094b390c35d101726424629de2f5ab48fa00000100000006000400050006"},
    {"do": "ack", "shard": 0, "id": "e02bba4bcbf5e38690b9d44c477647094b390c35d101726424629de2f5ab48fa"},
    {"do": "ack", "shard": 0, "id": "e02bba4bcbf5e38690b9d44c477647094b390c35d101726424629de2f5ab48fa"},
    {"do": "ack", "shard": 1, "id": "e02bba4bcbf5e38690b9d44c477647094b390c35d101726424629de2f5ab48fa"},
    {"do": "certificate", "id": "e02bba4bcbf5e38690b9d44c477647094b390c35d101726424629de2f5ab48fa"},
    {"do": "ack", "shard": 2, "id": "e02bba4bcbf5e38690b9d44c477647094b390c35d101726424629de2f5ab48fa"},
    {"do": "certificate", "id": "e02bba4bcbf5e38690b9d44c477647094b390c35d101726424629de2f5ab48fa"},
    {"do": "holders", "id": "e02bba4bcbf5e38690b9d44c477647094b390c35d101726424629de2f5ab48fa"},
    {"do": "read", "id": "e02bba4bcbf5e38690b9d44c477647094b390c35d101726424629de2f5ab48fa", "replies": [{"true": 0, "at": "now"}, {"true": 3, "at": "now"}]},
    {"do": "read", "id": "e02bba4bcbf5e38690b9d44c477647094b390c35d101726424629de2f5ab48fa", "replies": [{"true": 0, "at": "now"}, {"true": 1, "at": "now"}]},
    {"do": "recover", "at": "now", "shard": 1, "axis": "secondary", "id": "e02bba4bcbf5e38690b9d44c477647094b390c35d101726424629de2f5ab48fa", "replies": [{"true": 0, "at": "now"}, {"true": 2, "at": "now"}]},
    {"do": "register", "id": "4030c504f89246f8502eb60ac639f1cf7cc85d6efab624d0a3df200b7b931a72", "until": 65535},
    {"do": "send", "at": "now", "shard": 0, "bytes": "100001000000000000000cc925f721ebc3ef5f004207dc9c1cebe30411ac77aaa56c6ba7412db955841f13fa70ce6c36c866de8bce8b8e42c4cae2d9a6bcb85f990a415a9e1c5adba00bf8112cafbe323b00b6b407b905a247d0d12400b61294d0ef67cd2162f754b957fbd506b50ccd48d5e088fb31d352afb3cf508757740b3560a09703d45700f1ee3c8998560808f16ebeda47d45012b823b6d8742cc6a192119838792a60859a2ce5b7d4a6afdc3f87f388847b9006f1e8ece1c5dccfdfd525b3e9bf5d4300aa5aff55e2f46c598a88ab0a153d51ff9ff17adaf68144fc9eb3c952706d829e1cfe1264e8d30412ca04ba5f940a1437dbc5492fbcc75c0d229edb76e74796b6867a8a"},
    {"do": "attest", "shard": 0, "id": "4030c504f89246f8502eb60ac639f1cf7cc85d6efab624d0a3df200b7b931a72"},
    {"do": "recover", "at": "now", "shard": 0, "axis": "primary", "id": "4030c504f89246f8502eb60ac639f1cf7cc85d6efab624d0a3df200b7b931a72", "replies": []},
    {"do": "recover", "at": "now", "shard": 2, "axis": "secondary", "id": "4030c504f89246f8502eb60ac639f1cf7cc85d6efab624d0a3df200b7b931a72", "replies": [{"bytes": "100001000000000000000cc925f721ebc3ef5f004207dc9c1cebe30411ac77aaa56c6ba7412db955841f13fa70ce6c36c866de8bce8b8e42c4cae2d9a6bcb85f990a415a9e1c5adba00bf8112cafbe323b00b6b407b905a247d0d12400b61294d0ef67cd2162f754b957fbd506b50ccd48d5e088fb31d352afb3cf508757740b3560a09703d45700f1ee3c8998560808f16ebeda47d45012b823b6d8742cc6a192119838792a60859a2ce5b7d4a6afdc3f87f388847b9006f1e8ece1c5dccfdfd525b3e9bf5d4300aa5aff55e2f46c598a88ab0a153d51ff9ff17adaf68144fc9eb3c952706d829e1cfe1264e8d30412ca04ba5f940a1437dbc5492fbcc75c0d229edb76e74796b6867a8a"}, {"bytes": "124030c504f89246f8502eb60ac639f1cf7cc85d6efab624d0a3df200b7b931a720100020001000000020006024fca068fbfc9bdfd1a5c16427b0e34c5339c4c5b581769d9e8ced90a8b3efe575e45d9ddacc00780c2f0d59d4bf2af4a0acd740c63266bc2066ee141beae5508"}, {"bytes": "124030c504f89246f8502eb60ac639f1cf7cc85d6efab624d0a3df200b7b931a72010002000300000002000d0245baf4ad75fe7f0e9ee25f5277a4be2564e3e8c17c9ef74110cec8649cb95002cd2121727da7698dede1f51b87fbc13b70feb8b1bf8751bd41abfe8e8c207894"}]},
    {"do": "recover", "at": "now", "shard": 0, "axis": "secondary", "id": "4030c504f89246f8502eb60ac639f1cf7cc85d6efab624d0a3df200b7b931a72", "replies": [{"true": 2, "at": "now"}]},
    {"do": "attest", "shard": 0, "id": "4030c504f89246f8502eb60ac639f1cf7cc85d6efab624d0a3df200b7b931a72"},
    {"do": "attest", "shard": 0, "id": "4030c504f89246f8502eb60ac639f1cf7cc85d6efab624d0a3df200b7b931a72"},
    {"do": "attest", "shard": 2, "id": "4030c504f89246f8502eb60ac639f1cf7cc85d6efab624d0a3df200b7b931a72"},
    {"do": "attest", "shard": 3, "id": "4030c504f89246f8502eb60ac639f1cf7cc85d6efab624d0a3df200b7b931a72"},
    {"do": "forget", "at": "now", "shard": 0, "id": "4030c504f89246f8502eb60ac639f1cf7cc85d6efab624d0a3df200b7b931a72"},
    {"do": "read", "id": "4030c504f89246f8502eb60ac639f1cf7cc85d6efab624d0a3df200b7b931a72", "replies": [{"true": 0, "at": "now"}]},
    {"do": "ready", "shard": 1},
    {"do": "finish"},
    {"do": "begin", "faulty": [3], "stays": [0, 1]},
    {"do": "begin", "faulty": [], "stays": []},
    {"do": "register", "id": "e02bba4bcbf5e38690b9d44c477647094b390c35d101726424629de2f5ab48fa", "until": 65536},
    {"do": "ack", "shard": 0, "id": "4030c504f89246f8502eb60ac639f1cf7cc85d6efab624d0a3df200b7b931a72"},
    {"do": "attest", "shard": 1, "id": "4030c504f89246f8502eb60ac639f1cf7cc85d6efab624d0a3df200b7b931a72"},
    {"do": "ready", "shard": 2},
    {"do": "ready", "shard": 0},
    {"do": "ready", "shard": 0},
    {"do": "ready", "shard": 1},
    {"do": "finish"},
    {"do": "ready", "shard": 3},
    {"do": "finish"},
    {"do": "begin", "faulty": [], "stays": []}
  ]
}
"#;

/// The text of `tests/data/every_word.report`.
const EVERY_LINE: &str = "send 0 malformed
send 0 absent
send 3 ignored
send 0 unregistered
ack 0 e02bba4bcbf5e38690b9d44c477647094b390c35d101726424629de2f5ab48fa unregistered
attest 0 e02bba4bcbf5e38690b9d44c477647094b390c35d101726424629de2f5ab48fa unregistered
recover 0 primary e02bba4bcbf5e38690b9d44c477647094b390c35d101726424629de2f5ab48fa absent
recover 3 primary e02bba4bcbf5e38690b9d44c477647094b390c35d101726424629de2f5ab48fa ignored
recover 0 primary e02bba4bcbf5e38690b9d44c477647094b390c35d101726424629de2f5ab48fa unregistered
forget 0 e02bba4bcbf5e38690b9d44c477647094b390c35d101726424629de2f5ab48fa absent
forget 3 e02bba4bcbf5e38690b9d44c477647094b390c35d101726424629de2f5ab48fa ignored
forget 0 e02bba4bcbf5e38690b9d44c477647094b390c35d101726424629de2f5ab48fa declined
read e02bba4bcbf5e38690b9d44c477647094b390c35d101726424629de2f5ab48fa no-metadata
register e02bba4bcbf5e38690b9d44c477647094b390c35d101726424629de2f5ab48fa refused past
register e02bba4bcbf5e38690b9d44c477647094b390c35d101726424629de2f5ab48fa until 65536
send 0 no-metadata
recover 0 primary e02bba4bcbf5e38690b9d44c477647094b390c35d101726424629de2f5ab48fa no-metadata
ack 0 e02bba4bcbf5e38690b9d44c477647094b390c35d101726424629de2f5ab48fa declined
write e02bba4bcbf5e38690b9d44c477647094b390c35d101726424629de2f5ab48fa stored 3 bytes 000100020003000400050006
send 0 held
send 0 unverified
ack 0 e02bba4bcbf5e38690b9d44c477647094b390c35d101726424629de2f5ab48fa counted 1
ack 0 e02bba4bcbf5e38690b9d44c477647094b390c35d101726424629de2f5ab48fa already
ack 1 e02bba4bcbf5e38690b9d44c477647094b390c35d101726424629de2f5ab48fa counted 2
certificate e02bba4bcbf5e38690b9d44c477647094b390c35d101726424629de2f5ab48fa pending 2
ack 2 e02bba4bcbf5e38690b9d44c477647094b390c35d101726424629de2f5ab48fa certified 3
certificate e02bba4bcbf5e38690b9d44c477647094b390c35d101726424629de2f5ab48fa epoch 65534 count 3
holders e02bba4bcbf5e38690b9d44c477647094b390c35d101726424629de2f5ab48fa 3
read e02bba4bcbf5e38690b9d44c477647094b390c35d101726424629de2f5ab48fa short 1 of 2
read e02bba4bcbf5e38690b9d44c477647094b390c35d101726424629de2f5ab48fa bytes 000100020003000400050006
recover 1 secondary e02bba4bcbf5e38690b9d44c477647094b390c35d101726424629de2f5ab48fa sliver 00020005
register 4030c504f89246f8502eb60ac639f1cf7cc85d6efab624d0a3df200b7b931a72 until 65535
send 0 stored
attest 0 4030c504f89246f8502eb60ac639f1cf7cc85d6efab624d0a3df200b7b931a72 declined
recover 0 primary 4030c504f89246f8502eb60ac639f1cf7cc85d6efab624d0a3df200b7b931a72 short 0 of 3
recover 2 secondary 4030c504f89246f8502eb60ac639f1cf7cc85d6efab624d0a3df200b7b931a72 inconsistent
recover 0 secondary 4030c504f89246f8502eb60ac639f1cf7cc85d6efab624d0a3df200b7b931a72 proof
attest 0 4030c504f89246f8502eb60ac639f1cf7cc85d6efab624d0a3df200b7b931a72 counted 1
attest 0 4030c504f89246f8502eb60ac639f1cf7cc85d6efab624d0a3df200b7b931a72 already
attest 2 4030c504f89246f8502eb60ac639f1cf7cc85d6efab624d0a3df200b7b931a72 counted 2
attest 3 4030c504f89246f8502eb60ac639f1cf7cc85d6efab624d0a3df200b7b931a72 invalid 3
forget 0 4030c504f89246f8502eb60ac639f1cf7cc85d6efab624d0a3df200b7b931a72 done
read 4030c504f89246f8502eb60ac639f1cf7cc85d6efab624d0a3df200b7b931a72 reject
ready 1 refused not-moving
finish refused not-moving
begin epoch 65535
begin refused moving
register e02bba4bcbf5e38690b9d44c477647094b390c35d101726424629de2f5ab48fa refused moving
ack 0 4030c504f89246f8502eb60ac639f1cf7cc85d6efab624d0a3df200b7b931a72 expires
attest 1 4030c504f89246f8502eb60ac639f1cf7cc85d6efab624d0a3df200b7b931a72 expires
ready 2 declined
ready 0 counted 1
ready 0 already
ready 1 counted 2
finish waiting 2
ready 3 counted 3
finish epoch 65535
begin refused last-epoch
";

/// A schedule and its report, with @ for the identifier.
type Story = (&'static str, &'static str);

/// A handover in which two shards recover their slivers.
const HANDOVER: Story = (
    r#"{"f":1,"epoch":0,"faulty":[3],"events":[
{"do":"register","id":"@","until":5},
{"do":"write","blob":"000100020003000400050006","to":[0,1,2]},
{"do":"ack","shard":0,"id":"@"},
{"do":"ack","shard":1,"id":"@"},
{"do":"ack","shard":2,"id":"@"},
{"do":"holders","id":"@"},
{"do":"begin","faulty":[0],"stays":[1]},
{"do":"ready","shard":2},
{"do":"recover","at":"next","shard":2,"axis":"secondary","id":"@","replies":[{"true":0,"at":"now"},{"true":1,"at":"now"}]},
{"do":"recover","at":"next","shard":3,"axis":"secondary","id":"@","replies":[{"true":1,"at":"now"},{"true":2,"at":"now"}]},
{"do":"recover","at":"next","shard":2,"axis":"primary","id":"@","replies":[{"true":0,"at":"now"},{"true":1,"at":"now"},{"true":2,"at":"now"}]},
{"do":"recover","at":"next","shard":3,"axis":"primary","id":"@","replies":[{"true":1,"at":"next"},{"true":2,"at":"next"},{"true":3,"at":"next"}]},
{"do":"ready","shard":1},
{"do":"ready","shard":2},
{"do":"finish"},
{"do":"ready","shard":3},
{"do":"finish"},
{"do":"holders","id":"@"},
{"do":"read","id":"@","replies":[{"true":1,"at":"now"},{"true":2,"at":"now"},{"true":3,"at":"now"}]}]}"#,
    "register @ until 5
write @ stored 3 bytes 000100020003000400050006
ack 0 @ counted 1
ack 1 @ counted 2
ack 2 @ certified 3
holders @ 3
begin epoch 1
ready 2 declined
recover 2 secondary @ sliver 00030006
recover 3 secondary @ sliver 00000007
recover 2 primary @ sliver 000b000c0009
recover 3 primary @ sliver 000e000b000c
ready 1 counted 1
ready 2 counted 2
finish waiting 2
ready 3 counted 3
finish epoch 1
holders @ 3
read @ bytes 000100020003000400050006
",
);

/// A blob that is not kept when its epoch ends.
const EXPIRY: Story = (
    r#"{"f":1,"epoch":0,"faulty":[3],"events":[
{"do":"register","id":"@","until":1},
{"do":"write","blob":"000100020003000400050006","to":[0,1,2]},
{"do":"ack","shard":0,"id":"@"},
{"do":"ack","shard":1,"id":"@"},
{"do":"ack","shard":2,"id":"@"},
{"do":"begin","faulty":[3],"stays":[0,1,2]},
{"do":"register","id":"@","until":9},
{"do":"ack","shard":0,"id":"@"},
{"do":"ready","shard":0},
{"do":"ready","shard":1},
{"do":"ready","shard":2},
{"do":"finish"},
{"do":"read","id":"@","replies":[{"true":0,"at":"now"},{"true":1,"at":"now"},{"true":2,"at":"now"}]},
{"do":"holders","id":"@"},
{"do":"register","id":"@","until":1}]}"#,
    "register @ until 1
write @ stored 3 bytes 000100020003000400050006
ack 0 @ counted 1
ack 1 @ counted 2
ack 2 @ certified 3
begin epoch 1
register @ refused moving
ack 0 @ expires
ready 0 counted 1
ready 1 counted 2
ready 2 counted 3
finish epoch 1
read @ no-metadata
holders @ 0
register @ refused past
",
);

/// Two faulty shards where one is promised: a certified blob that one correct shard holds.
const TOO_MANY_FAULTS: Story = (
    r#"{"f":1,"epoch":0,"faulty":[2,3],"events":[
{"do":"register","id":"@","until":5},
{"do":"write","blob":"000100020003000400050006","to":[0]},
{"do":"ack","shard":0,"id":"@"},
{"do":"ack","shard":2,"id":"@"},
{"do":"ack","shard":3,"id":"@"},
{"do":"holders","id":"@"},
{"do":"read","id":"@","replies":[{"true":0,"at":"now"}]},
{"do":"read","id":"@","replies":[{"true":0,"at":"now"},{"bytes":"11@00000200000006000b000c0009"}]},
{"do":"read","id":"@","replies":[{"true":0,"at":"now"},{"bytes":"11@00000100000006000400050006"}]}]}"#,
    "register @ until 5
write @ stored 1 bytes 000100020003000400050006
ack 0 @ counted 1
ack 2 @ counted 2
ack 3 @ certified 3
holders @ 1
read @ short 1 of 2
read @ bytes 000100020003000400050006
read @ bytes 000100020003000400050006
",
);

const ID: &str = "e02bba4bcbf5e38690b9d44c477647094b390c35d101726424629de2f5ab48fa";

/// The text with the identifier in it.
fn with_id(alloc: Global, text: &str) -> Result<Vec<u8>, AllocError> {
    let mut whole = Vec::new(alloc);
    for byte in text.as_bytes() {
        if *byte == b'@' {
            whole.extend_from_slice(ID.as_bytes())?;
        } else {
            whole.push(*byte)?;
        }
    }
    Ok(whole)
}

/// Whether a run ends with status 0 and this text.
fn ends_with(
    alloc: Global,
    words: &[&str],
    input: Vec<u8>,
    text: &[u8],
) -> Result<bool, AllocError> {
    let words = words_of(alloc, words)?;
    let mut source = MemSource::create(input, 4096, Vec::new(alloc));
    let mut sink = MemSink::create(alloc, 100_000, 4096, Vec::new(alloc))?;
    let status = run::<Sha, _, _>(alloc, &words, &mut source, &mut sink);
    Ok(status == 0 && sink.bytes() == text)
}

/// Whether the replay of a schedule writes this report.
fn reports(alloc: Global, story: Story) -> Result<bool, AllocError> {
    let report = with_id(alloc, story.1)?;
    ends_with(alloc, &["replay"], with_id(alloc, story.0)?, &report)
}

#[test]
fn every_word_of_every_event(rt: HostRuntime) -> Result<(), Fail> {
    assert!(rt; reports(rt.alloc(), (EVERY_WORD, EVERY_LINE))?);
    Ok(())
}

#[test]
fn shards_recover_and_a_blob_expires(rt: HostRuntime) -> Result<(), Fail> {
    assert!(rt; reports(rt.alloc(), HANDOVER)? && reports(rt.alloc(), EXPIRY)?);
    Ok(())
}

#[test]
fn reads_with_too_many_faults(rt: HostRuntime) -> Result<(), Fail> {
    assert!(rt; reports(rt.alloc(), TOO_MANY_FAULTS)?);
    Ok(())
}

#[test]
fn a_sample_is_summed_up(rt: HostRuntime) -> Result<(), Fail> {
    let lines = b"events 841\ncertified 32\nreads 64\nbytes 8448\nrecovered 384\nleast holders 6\n";
    assert!(rt; ends_with(rt.alloc(), &["sample", "1"], Vec::new(rt.alloc()), lines)?);
    Ok(())
}
