//! Requests, which are payloads of 41 bytes, among the envelopes of a stream.

ghost use Rattle.std.specs.Prelude.{◌≡◌, ◌+◌, ◌<◌, ℕ, List, [], None, IfSome, length};
ghost use Rattle.std.specs.Int.{w32, from_be_bytes};
ghost use Rattle.wal_frame.specs.Stream.{IsStream};
ghost use Rattle.wal_gateway.specs.Requests.{IsFirstRequest, gets_in, request_of};

use wal_frame::{Envelope, envelope};
use wal_shape::BlobId;

/// What a request asks for: so many bytes of a blob from a place on.
#[derive(Clone, Copy, Debug)]
pub struct Request {
    pub id: BlobId,
    pub from: u32,
    pub size: u32,
}

/// The number of bytes of a request: its first byte, the identifier (32), and the place and the
/// number of the bytes, four each, most significant byte first.
const REQUEST_SIZE: usize = 41;

/// The first byte of a request.
const REQUEST: u8 = 0x43;

/// The identifier that these bytes are.
fn id_from(bytes: &[u8]) -> BlobId
    requires { length bytes.now ≡ 32 }
    ensures { result.0 ≡ bytes.now }
{
    let mut id = [0; 32];
    id.copy_from_slice(bytes);
    BlobId(id)
}

/// The number in four bytes.
fn number_from(bytes: &[u8]) -> u32
    requires { length bytes.now ≡ 4 }
    ensures { result ≡ from_be_bytes w32 bytes.now }
{
    u32::from_be_bytes([bytes[0], bytes[1], bytes[2], bytes[3]])
}

/// What a payload asks for, if it is a request.
pub fn request_in(payload: &[u8]) -> Option<Request>
    ensures { result ≡ request_of payload.now }
{
    if payload.len() == REQUEST_SIZE && payload[0] == REQUEST {
        Some(Request {
            id: id_from(&payload[1..33]),
            from: number_from(&payload[33..37]),
            size: number_from(&payload[37..41]),
        })
    } else {
        None
    }
}

/// A request among envelopes: what shards sent for it before, and what follows.
#[derive(Clone, Copy, Debug)]
pub struct Asked<'a> {
    pub sent: &'a [u8],
    pub request: Request,
    pub rest: &'a [u8],
}

/// The first request among the payloads of a stream. Takes no memory.
pub fn first_request(stream: &[u8]) -> Option<Asked<'_>>
    ensures some { IfSome result (λ asked. (payloads : List (List ℕ)) → IsStream payloads stream.now
        → IsFirstRequest payloads asked) }
    ensures shorter { IfSome result
        (λ asked. length asked.sent.now + length asked.rest.now < length stream.now) }
    ensures none { result ≡ None → (payloads : List (List ℕ)) → IsStream payloads stream.now
        → gets_in [] payloads ≡ [] }
{
    let mut rest = stream;
    while let Envelope::Whole {
        payload,
        rest: later,
        ..
    } = envelope(rest)
    {
        if let Some(request) = request_in(payload) {
            return Some(Asked {
                sent: &stream[..stream.len() - rest.len()],
                request,
                rest: later,
            });
        }
        rest = later;
    }
    None
}
