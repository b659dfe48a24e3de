ghost use Rattle.std.specs.Prelude.{◌≡◌, ◌↔◌, ◌<◌, ◌^◌, ℕ, List, length};
ghost use Rattle.cx_syntax.specs.Place.{Begins, IsPlace};
ghost use Rattle.cx_marks.specs.declared.spelled.Spelled.{Spelled};
ghost use Rattle.cx_marks.specs.Marks.{marks};
ghost use Rattle.cx_marks.specs.Place.{AreTokens, IsTokensPlace, TokensBegin};

/// The place of a syntax fault of a list of tokens is that of its marks: tokens begin a grammatical list of tokens exactly
/// where their marks begin a grammatical list. A list of tokens has at most one place. It is said of fewer than 2^32 tokens,
/// each of which is one that a text can have.
pub fn place_of_tokens()
    ensures begins { (tokens : List Spelled) → length tokens < 2 ^ 32 → AreTokens tokens → TokensBegin tokens ↔ Begins (marks tokens) }
    ensures place { (tokens : List Spelled) (p : ℕ) → length tokens < 2 ^ 32 → AreTokens tokens → IsTokensPlace tokens p ↔ IsPlace (marks tokens) p }
    ensures one { (tokens : List Spelled) (p q : ℕ) → IsTokensPlace tokens p → IsTokensPlace tokens q → p ≡ q }
{}
