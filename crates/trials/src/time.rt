// How long a step takes.
ghost use Rattle.std.specs.Prelude.{◌≡◌, IfOk, Ok};
ghost use Rattle.std.specs.Duration.{as_nanos, max_nanos};
ghost use Rattle.trials.specs.Turns.{Runs, Turn};

use std::io;
use std::time::{Clock, Duration, Instant};

// The least time that `step` takes in so many turns, each on what `draw` makes for it, which is not timed. The least of no times is the
// longest duration. The first error ends it. Turns are counted, and no list is gone through.
pub fn best_of<I, E, D, S>(
    clock: &impl Clock,
    turns: u32,
    mut draw: D,
    mut step: S,
) -> Result<Duration, E>
where
    I: Drop,
    E: Drop + From<io::Error>,
    D: FnMut() -> I,
    S: FnMut(I) -> Result<(), E>,
    requires draw { D.IsAlwaysCallable draw }
    requires step { S.IsAlwaysCallable step }
    ensures each_turn { IfOk result (λ best. (draws : D) × (steps : S) × Runs (Turn D.step (λ p x q. S.step p x (Ok tt) q)) turns (draw, step) (draws, steps)) }
    ensures no_turns { turns ≡ 0 → IfOk result (λ best. as_nanos best ≡ max_nanos) }
{
    let mut best = Duration::MAX;
    for turn in 0..turns {
        let drawn = draw();
        let start = Instant::now(clock)?;
        let answer = step(drawn);
        best = best.min(start.elapsed(clock)?);
        answer?;
    }
    Ok(best)
}
