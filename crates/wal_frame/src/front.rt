//! The envelope that bytes begin with.

ghost use Rattle.std.specs.Prelude.{◌≡◌, ℕ, ◌<◌, ◌≤◌, ◌^◌, List, None, ◌++◌, length};
ghost use Rattle.wal_frame.specs.Frame as frame;
ghost use Rattle.wal_frame.specs.Stream as stream;
ghost use Rattle.wal_frame.specs.Front.{BeginsWith, IsWhole, whole_in};
ghost use Rattle.wal_frame.specs.inside.Front.{sender_in};

use crate::frame::Envelope;
use crate::number::{u16_in, u32_in};
use crate::stream::{ENVELOPE, envelope_of};

/// The length of the payload, as the head of an envelope says.
pub fn size_in(head: &[u8]) -> u32
    requires { 7 ≤ length head.now }
    ensures { result ≡ stream.size_in head.now }
{
    u32_in(&head[3..])
}

/// The sender, as the head of an envelope says.
fn sender_of(head: &[u8]) -> u16
    requires { 7 ≤ length head.now }
    ensures { result ≡ sender_in head.now }
{
    u16_in(&head[1..])
}

/// What bytes begin with that begin with no whole envelope.
fn part_of(bytes: &[u8]) -> Envelope<'_>
    requires { stream.envelope_at bytes.now ≡ None }
    ensures begins { BeginsWith result bytes.now }
    ensures none { whole_in result ≡ None }
{
    if bytes.is_empty() {
        return Envelope::Part;
    }
    if bytes[0] == ENVELOPE {
        return Envelope::Part;
    }
    Envelope::Wrong
}

/// The envelope that the bytes begin with, as `split` describes it. Takes no memory.
pub fn envelope(bytes: &[u8]) -> Envelope<'_>
    // The bytes begin so.
    ensures begins { BeginsWith result bytes.now }
    // A whole envelope that they begin with is what is answered.
    ensures only { (sender : ℕ) (payload rest : List ℕ) → sender < 2 ^ 16 → stream.IsPayload payload
        → bytes.now ≡ frame.envelope sender payload ++ rest → IsWhole result sender payload rest }
    // It is the envelope that a stream of these bytes begins with.
    ensures at { whole_in result ≡ stream.envelope_at bytes.now }
{
    match envelope_of(bytes) {
        Some((payload, rest)) => {
            let sender = sender_of(bytes);
            Envelope::Whole {
                sender,
                payload,
                rest,
            }
        }
        None => part_of(bytes),
    }
}
