//! What quoted tokens stand for, as the contract of a function that does nothing.

ghost use Rattle.std.specs.Prelude.{◌≡◌, ℕ, List, ◌∷◌};
ghost use Rattle.sb_lex.specs.declared.token.TokenKind.TheVariants as tokens;
ghost use Rattle.sb_lex.specs.Cuts.{quoted};
ghost use Rattle.sb_parse.specs.Lexemes.{value_of};

/// A text, a quoted name and a name in brackets stand for what is quoted.
pub fn quoted_tokens_stand_for()
    ensures text { (z : List ℕ) → value_of tokens.Text (quoted 39 39 z) ≡ z }
    ensures national { (z : List ℕ) → value_of tokens.Text (78 ∷ quoted 39 39 z) ≡ z }
    ensures name { (z : List ℕ) → value_of tokens.Quoted (quoted 34 34 z) ≡ z }
    ensures bracketed { (z : List ℕ) → value_of tokens.Bracketed (quoted 91 93 z) ≡ z }
{}
