// Numbers to try things with, the same in every run: a nonlinear generator, since a linear one makes some polynomials look special.
ghost use Rattle.std.specs.Prelude.{◌≡◌, ℕ, ◌<◌, length, get_or};
ghost use Rattle.trials.specs.Numbers.{first_state, state_after, number_at};

use rand_core::SeedableRng;
use rand_core::utils::NextWord;
pub use rand_xoshiro::SplitMix64 as Random;

// The generator with which every run begins.
pub fn generator() -> Random
    ensures first { result ≡ first_state }
{
    Random::seed_from_u64(88_172_645_463_325_252)
}

// Fills a list with the next numbers, each as `shown` makes it one of the list.
pub fn fill<T: Drop, F: Fn(u64) -> T>(random: &mut Random, out: &mut [T], shown: F)
    requires { F.IsAlwaysCallable shown }
    ensures numbers { (k : ℕ) → k < length out.old → (d : T) → F.post shown (number_at random.old k) (get_or out.new k d) }
    ensures state { random.new ≡ state_after random.old (length out.old) }
{
    for x in out.iter_mut() {
        *x = shown(random.next_word());
    }
}
