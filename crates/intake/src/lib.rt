// What the programs read: input, until a room is full, the input ends or a read fails.
#![tactic(auto)]

ghost use Rattle.std.specs.Prelude.{◌≡◌, ◌⊎◌, ◌+◌, ◌<◌, ◌≤◌, length, take, drop, IsNone};
ghost use Rattle.std.specs.Io.KnownBytes.{Consumes, IsAtEnd};
ghost use Rattle.intake.specs.Counts.{IsPrefixLen};

use std::io;
use std::io::Read;

// How many bytes came, and why reading failed, where it did.
#[derive(Drop)]
pub struct Got {
    pub bytes: usize,
    pub failed: Option<io::Error>,
}

// Reads until the room is full, the input ends or a read fails.
pub fn fill<R: Read>(input: &mut R, room: &mut [u8]) -> Got
    ensures prefix_len { IsPrefixLen result.bytes room.new }
    ensures read { Consumes (R.remaining input.old) (R.remaining input.new) (take result.bytes room.new) }
    ensures end { IsNone result.failed → (result.bytes ≡ length room.new) ⊎ IsAtEnd (R.remaining input.new) }
{
    let mut at = 0;
    while at < room.len() {
        let bytes = match input.read(&mut room[at..]) {
            Ok(bytes) => bytes,
            Err(e) => {
                return Got {
                    bytes: at,
                    failed: Some(e),
                };
            }
        };
        if bytes == 0 {
            break;
        }
        at += bytes;
    }
    Got {
        bytes: at,
        failed: None,
    }
}
