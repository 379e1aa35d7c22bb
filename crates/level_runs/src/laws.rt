// What bytes mean as runs, and what is read of them.
ghost use Rattle.std.specs.Prelude.{◌≡◌, ◌↔◌, ℕ, ◌^◌, ◌<◌, ◌≤◌, List, ◌++◌, length, take, All};
ghost use Rattle.level_runs.specs.Reading.{runs_of};
ghost use Rattle.level_runs.specs.Runs.{MeansRuns};

/// A law: what is read of bytes is what their front means, and its length is the one that is given.
pub fn runs_mean()
    ensures { (width count used : ℕ) (bytes numbers : List ℕ)
        → runs_of width count bytes ≡ Some (numbers, used)
        → (used ≤ length bytes) × MeansRuns width count (take used bytes) numbers }
{}

/// A law: what bytes mean is read of them, whatever follows.
pub fn runs_again()
    ensures { (width count : ℕ) (bytes numbers rest : List ℕ) → width ≤ 32
        → MeansRuns width count bytes numbers
        → runs_of width count (bytes ++ rest) ≡ Some (numbers, length bytes) }
{}

/// A law: bytes mean one list at most, and no runs of so many numbers begin others.
pub fn one_meaning()
    ensures { (width count : ℕ) (front other numbers others rest more : List ℕ)
        → MeansRuns width count front numbers → MeansRuns width count other others
        → front ++ rest ≡ other ++ more → (front ≡ other) × (numbers ≡ others) }
{}

/// A law: nothing is read exactly where the width is above 32 or no front of the bytes is runs.
pub fn no_runs()
    ensures { (width count : ℕ) (bytes : List ℕ) → (runs_of width count bytes ≡ None)
        ↔ (width ≤ 32 → (used : ℕ) (numbers : List ℕ)
        → ¬ MeansRuns width count (take used bytes) numbers) }
{}

/// A law: as many numbers are read as were asked for, and each fits the width.
pub fn runs_fit()
    ensures { (width count used : ℕ) (bytes numbers : List ℕ)
        → runs_of width count bytes ≡ Some (numbers, used)
        → (length numbers ≡ count) × All (λ number. number < 2 ^ width) numbers }
{}
