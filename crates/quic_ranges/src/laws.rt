//! Laws of lists of runs, which no single call states. The functions do nothing at run time.
ghost use Rattle.std.specs.Prelude.{◌≡◌, ◌+◌, ◌<◌, List, ℕ, false, length, nat_eq, slice_index_or};
ghost use Rattle.std.specs.List.{list_any};
ghost use Rattle.std.specs.declared.ops.Range.{Range};
ghost use Rattle.quic_ranges.specs.Numbers.{numbers_of, AscendFrom};
ghost use Rattle.quic_ranges.specs.Runs.{IsMaximalRuns, member};

/// A set has one list of maximal runs, so two sets are equal exactly when their lists are. The runs are nonempty,
/// ascend and never touch, and none can be longer.
pub fn runs()
    ensures unique { (rs ss : List (Range ℕ)) → IsMaximalRuns rs → IsMaximalRuns ss
        → ((y : ℕ) → member rs y ≡ member ss y) → rs ≡ ss }
    ensures nonempty { (rs : List (Range ℕ)) (i : ℕ) (d : Range ℕ) → IsMaximalRuns rs → i < length rs
        → (slice_index_or rs i d).start < (slice_index_or rs i d).end }
    ensures apart { (rs : List (Range ℕ)) (i j : ℕ) (d : Range ℕ) → IsMaximalRuns rs → i < j
        → j < length rs → (slice_index_or rs i d).end < (slice_index_or rs j d).start }
    ensures maximal { (rs : List (Range ℕ)) (i y : ℕ) (d : Range ℕ) → IsMaximalRuns rs → i < length rs
        → y + 1 ≡ (slice_index_or rs i d).start → member rs y ≡ false }
    ensures maximal_behind { (rs : List (Range ℕ)) (i : ℕ) (d : Range ℕ) → IsMaximalRuns rs
        → i < length rs → member rs (slice_index_or rs i d).end ≡ false }
{}

/// `elts` returns the numbers of the set, each once, ascending.
pub fn elements()
    ensures ascending { (rs : List (Range ℕ)) → IsMaximalRuns rs → AscendFrom 0 (numbers_of rs) }
    ensures members { (rs : List (Range ℕ)) (y : ℕ)
        → list_any (λ x. nat_eq x y) (numbers_of rs) ≡ member rs y }
{}
