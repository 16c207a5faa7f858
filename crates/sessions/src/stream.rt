//! The key stream: counter blocks, encrypted one by one and added to a run piece by piece.
ghost use Rattle.std.specs.Prelude.{◌≡◌, ◌+◌, ◌<◌, ◌≤◌, length};
ghost use Rattle.sessions.specs.Counters.{counters, blocks, counter_block, plus};
ghost use Rattle.sessions.specs.Covering.{key_of, Ready, Spent, Added};
ghost use Rattle.sessions.specs.Histories.{encrypted};

use cipher::Engine;
use routes::Route;

/// The counter block of a number under a prefix: the prefix, then the number, highest byte first.
fn counter_block(prefix: &[u8; 12], number: u32) -> [u8; 16]
    ensures { result ≡ counter_block prefix.now number }
{
    let mut block = [0; 16];
    block[..12].copy_from_slice(prefix);
    block[12..].copy_from_slice(&number.to_be_bytes());
    block
}

/// Adds the first bytes of the pad to a piece of at most sixteen.
fn add(part: &mut [u8], pad: &[u8; 16])
    requires { length part.old ≤ 16 }
    ensures { part.new ≡ plus part.old pad.now }
{
    // Tried as `part.iter_mut().zip(pad)`: the loop's invariant has no name for the part while it is lent to the chain, so the proof did not close.
    for (i, byte) in part.iter_mut().enumerate() {
        *byte ^= pad[i];
    }
}

/// Covers one piece with the counter block of a number, which is made and encrypted in the pad.
fn cover_piece<R: Route>(
    engine: &mut Engine<R>,
    prefix: &[u8; 12],
    number: u64,
    part: &mut [u8],
    pad: &mut [u8; 16],
)
    requires ready { Ready R.Route.tally engine.old 1 }
    requires below { number < counters }
    requires short { length part.old ≤ 16 }
    ensures spent { Spent R.Route.tally engine.old engine.new 1 }
    ensures added { part.new ≡ plus part.old (encrypted (key_of engine.old) (counter_block prefix.now number)) }
{
    *pad = counter_block(prefix, number as u32);
    engine.encrypt(pad).unwrap();
    add(part, pad);
}

/// Covers a run, piece by piece, with the counter blocks from a number on.
pub(crate) fn cover_run<R: Route>(
    engine: &mut Engine<R>,
    prefix: &[u8; 12],
    first: u64,
    run: &mut [u8],
    pad: &mut [u8; 16],
)
    requires ready { Ready R.Route.tally engine.old (blocks (length run.old)) }
    requires room { first + blocks (length run.old) ≤ counters }
    ensures spent { Spent R.Route.tally engine.old engine.new (blocks (length run.old)) }
    ensures added { Added (key_of engine.old) prefix.now first (blocks (length run.old)) run.old run.new }
{
    // Tried over `run.chunks_mut(16)`: the loop's invariant has no name for the run while it is lent, so the proof did not close. Each piece is cut out
    // by its place.
    for p in 0..run.len().div_ceil(16) {
        let at = 16 * p;
        let end = run.len().min(at + 16);
        cover_piece(engine, prefix, first + p as u64, &mut run[at..end], pad);
    }
}
