//! Laws of the token language.
ghost use Rattle.std.specs.Prelude.{ℕ, ◌≡◌, true, List};
ghost use Rattle.std.specs.List.{list_all};
ghost use Rattle.vs_lexer.specs.declared.refusal.Refusal.{Refusal};
ghost use Rattle.vs_lexer.specs.NameLines.{is_one_line_token};
ghost use Rattle.vs_lexer.specs.Spelling.{IsSpelled, IsRefused};
ghost use Rattle.vs_lexer.specs.Tokens.{Lexeme};

/// The tokens that a source spells are the only ones.
pub fn one_spelling()
    ensures { (source : List ℕ) (tokens others : List Lexeme) →
        IsSpelled source tokens → IsSpelled source others → tokens ≡ others }
{}

/// A source is refused for one reason, at one place.
pub fn one_refusal()
    ensures { (source : List ℕ) (why other : Refusal) (place elsewhere : ℕ) →
        IsRefused source why place → IsRefused source other elsewhere → (why ≡ other) × (place ≡ elsewhere) }
{}

/// No tokens spell a source that is refused.
pub fn no_spelling_of_refused()
    ensures { (source : List ℕ) (tokens : List Lexeme) (why : Refusal) (place : ℕ) →
        IsSpelled source tokens → IsRefused source why place → ⊥ }
{}

/// No name that a source spells holds a line feed.
pub fn names_of_one_line()
    ensures { (source : List ℕ) (tokens : List Lexeme) →
        IsSpelled source tokens → list_all is_one_line_token tokens ≡ true }
{}
