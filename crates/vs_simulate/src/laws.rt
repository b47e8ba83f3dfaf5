//! Laws of the designs that sources define.
ghost use Rattle.std.specs.Prelude.{ℕ, List};
ghost use Rattle.vs_design.specs.OneLine.{HasNamesOfOneLine};
ghost use Rattle.vs_design.specs.Parts.{Parts};
ghost use Rattle.vs_simulate.specs.Honesty.{Defines};

use vs_elaborate::{names_of_modules_are_tokens, names_of_one_line as defined_of_one_line};
use vs_syntax::vs_lexer::names_of_one_line as spelled_of_one_line;

/// No name of a design that the bytes of a source and the name of a top module define holds a line feed.
pub fn names_of_one_line()
    ensures { (bytes top : List ℕ) (d : Parts) → Defines bytes top d → HasNamesOfOneLine d }
{
    spelled_of_one_line();
    names_of_modules_are_tokens();
    defined_of_one_line();
}
