// What the definitions say, in other words.
ghost use Rattle.std.specs.Prelude.{ℕ, ◌≤◌, List};
ghost use Rattle.std.specs.List.{AllByRecursion};
ghost use Rattle.si_lists.specs.Runs.{AreLongestRuns, longest_runs};

/// Things that fit by themselves are cut into the longest runs: these join to the things, each is within the limit, and none could
/// take the first thing of the next one as well.
pub fn runs_are_longest<T>()
    ensures { (size : T → ℕ) (limit : ℕ) (things : List T) → AllByRecursion (λ (thing : T). size thing ≤ limit) things
        → AreLongestRuns size limit things (longest_runs size limit things) }
{}
