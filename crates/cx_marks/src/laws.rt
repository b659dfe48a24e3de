ghost use Rattle.std.specs.Prelude.{◌≡◌, ◌↔◌, ℕ, ◌<◌, ◌≤◌, List, IsTrue, take, slice_get};
ghost use Rattle.cx_marks.specs.declared.spelled.Spelled.{Spelled};
ghost use Rattle.cx_marks.specs.Marks.{has_at, is_after_key, is_class_name, is_name, marks, number};

/// Marks never change by what follows: those of the first tokens are the first marks.
#[tactic(auto, using(crate::proofs::Fronts::marks_take))]
pub fn marks_stay()
    ensures { (tokens : List Spelled) (n : ℕ) → take n (marks tokens) ≡ marks (take n tokens) }
{}

/// A name at a place is a class name exactly where some place, at most this one, holds the same name directly after
/// `class` or `struct`.
pub fn class_names()
    ensures { (tokens : List Spelled) (name : List ℕ) (i : ℕ) →
        IsTrue (is_class_name tokens name i) ↔ ((j : ℕ) × (j ≤ i) × IsTrue (has_at (is_name name) (slice_get tokens j)) × IsTrue (is_after_key tokens j)) }
{}

/// Names of a list with one number are equal.
#[tactic(auto, using(crate::proofs::OneNumber::one_number))]
pub fn numbers()
    ensures { (tokens : List Spelled) (a : List ℕ) (b : List ℕ) (i : ℕ) →
        IsTrue (has_at (is_name a) (slice_get tokens i)) → number tokens a ≡ number tokens b → a ≡ b }
{}
