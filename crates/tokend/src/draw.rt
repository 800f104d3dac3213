//! The random words of which handles are made: `generator` is their source, and `draw` takes six.

ghost use Rattle.std.specs.Prelude.{◌≡◌};
ghost use Rattle.rand_chacha.specs.ChaCha.{key_of};
ghost use Rattle.tokend.specs.Draw.{wide, past_wide, six, past_six};

use rand_chacha::ChaCha20Rng;
use rand_core::SeedableRng;
use rand_core::utils::NextWord;
use tk_handle::RegionNumber;

/// Returns a region's generator: the seed is its key, and the region's number its stream.
pub(crate) fn generator(seed: [u8; 32], region: RegionNumber) -> ChaCha20Rng
    ensures { result ≡ record { key = key_of seed; stream = region; word_pos = 0 } }
{
    let mut generator = ChaCha20Rng::from_seed(seed);
    generator.set_stream(u64::from(region.number()));
    generator
}

/// Draws six words of 64 bits, for the handles of one connection.
pub fn draw(generator: &mut ChaCha20Rng) -> [u64; 6]
    ensures value { result ≡ six generator.old }
    ensures after { generator.new ≡ past_six generator.old }
{
    let a = draw_one(generator);
    let b = draw_one(generator);
    let c = draw_one(generator);
    let d = draw_one(generator);
    let e = draw_one(generator);
    let f = draw_one(generator);
    [a, b, c, d, e, f]
}

// Draws one word of 64 bits, made of two words of 32. The first is the high half.
fn draw_one(generator: &mut ChaCha20Rng) -> u64
    ensures value { result ≡ wide generator.old }
    ensures after { generator.new ≡ past_wide generator.old }
{
    let high = generator.next_word();
    let low = generator.next_word();
    u64::from(high) * (1 << 32) + u64::from(low)
}
