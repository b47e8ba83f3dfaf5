//! Names can be printed.
ghost use Rattle.std.specs.Prelude.{ℕ, ◌≡◌, true, List};
ghost use Rattle.std.specs.List.{list_all};
ghost use Rattle.vs_lexer.specs.Spelling.{IsSpelled};
ghost use Rattle.vs_lexer.specs.Tokens.{Lexeme};
ghost use Rattle.vs_elaborate.specs.PrintableNames.{is_printable_name, token_passes};

/// Each name that a source spells has a byte, and its bytes are printable and no white space.
pub fn names_are_printable()
    ensures { (source : List ℕ) (tokens : List Lexeme) →
        IsSpelled source tokens → list_all (token_passes is_printable_name) tokens ≡ true }
{}
