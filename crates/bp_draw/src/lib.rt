//! The words of the random choice: those of ChaCha8 with the seed as its key.
#![tactic(auto)]

mod draw;

ghost use Rattle.std.specs.Prelude.{◌≡◌};
ghost use Rattle.bp_draw.specs.Words.{draw_word};

pub use draw::Draw;
use rand_chacha::ChaCha8Rng;
use rand_core::SeedableRng;
use rand_core::utils::NextWord;

/// The word at this place of the stream of this seed.
///
/// The key is the 8 bytes of the seed, least first, and 24 zero bytes; the stream is 0.
pub fn word_of(seed: u64, place: u64) -> u32
    ensures { result ≡ draw_word seed place }
{
    let mut key = [0u8; 32];
    key[..8].copy_from_slice(&seed.to_le_bytes());
    let mut rng = ChaCha8Rng::from_seed(key);
    rng.set_word_pos(place as u128);
    rng.next_word()
}
