//! The chance: which messages are lost, and which come twice.
ghost use Rattle.std.specs.Prelude.{◌≡◌, ◌≤◌};
ghost use Rattle.node_turn.specs.Chances.{drawn, copies_due};

use rand_core::SeedableRng;
use rand_core::utils::NextWord;
use rand_xoshiro::SplitMix64;

/// How many turns each node has, what becomes of messages, and when an idle node ticks.
#[derive(Clone, Copy, Debug)]
pub struct Chance {
    /// The turns of each node.
    pub turns: u64,
    /// What the numbers that decide over messages are drawn from.
    pub seed: u64,
    /// Of a hundred messages so many are lost.
    pub loss: u8,
    /// Of a hundred messages so many come twice.
    pub twice: u8,
    /// In a turn whose number is a multiple of this a node without an item ticks. Not 0.
    pub ticks: u64,
}

/// The number from 0 to 99 that decides over a message.
fn draw(seed: u64, message: u64) -> u64
    ensures { result ≡ drawn seed message }
{
    let mut drawing = SplitMix64::seed_from_u64(seed.wrapping_add(message));
    drawing.next_word() % 100
}

/// How many copies of a message come.
pub fn copies_due(chance: &Chance, message: u64) -> u64
    ensures { result ≡ copies_due chance.now message }
{
    let drawn = draw(chance.seed, message);
    let loss = u64::from(chance.loss);
    let twice = u64::from(chance.twice);
    if drawn < loss {
        0
    } else if drawn < loss + twice {
        2
    } else {
        1
    }
}
