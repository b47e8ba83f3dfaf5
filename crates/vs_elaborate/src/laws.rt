//! Laws of the designs that sources define: each is the contract of a function that does nothing.
ghost use Rattle.std.specs.Prelude.{ℕ, List};
ghost use Rattle.vs_syntax.specs.declared.tree.Source.{Source};
ghost use Rattle.vs_syntax.specs.Same.{SameSource};
ghost use Rattle.vs_design.specs.OneLine.{HasNamesOfOneLine};
ghost use Rattle.vs_design.specs.Parts.{Parts};
ghost use Rattle.vs_elaborate.specs.DesignOf.{DesignOf};
ghost use Rattle.vs_elaborate.specs.Named.{NamesAreOfSource, NamesOfModulesAreTokens};
ghost use Rattle.vs_elaborate.specs.OneLine.{HasModulesOfOneLine};
ghost use Rattle.vs_elaborate.specs.Same.{SameDesign};

use vs_scopes::used_are_tokens;
use vs_syntax::names_are_tokens;

/// What all names among tokens pass that derive a source, the names of its modules pass.
pub fn names_of_modules_are_tokens()
    ensures { NamesOfModulesAreTokens }
{
    names_are_tokens();
    used_are_tokens();
}

/// The names of a design are those that its source declares or uses, or those of unnamed generate blocks, each printed.
pub fn names_are_of_source()
    ensures { NamesAreOfSource }
{}

/// Where no name that the modules of a source declare holds a line feed, no name of a design of the source does.
pub fn names_of_one_line()
    ensures { (s : Source) (top : List ℕ) (d : Parts) →
        HasModulesOfOneLine s.modules.items → DesignOf s top d → HasNamesOfOneLine d }
{}

/// A source and a top define one design, but for where the parts of the two lie in memory.
pub fn one_design()
    ensures source { (s : Source) (top : List ℕ) (d d' : Parts) →
        DesignOf s top d → DesignOf s top d' → SameDesign d d' }
    ensures sources { (s s' : Source) (top : List ℕ) (d d' : Parts) → SameSource s s' →
        DesignOf s top d → DesignOf s' top d' → SameDesign d d' }
{}
