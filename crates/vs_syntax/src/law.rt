//! Laws of the grammar: each is the contract of a function that does nothing.
ghost use Rattle.std.specs.Prelude.{◌≡◌, List, []};
ghost use Rattle.vs_syntax.specs.Symbols.{Symbol};
ghost use Rattle.vs_syntax.specs.Grammar.{Nonterminal, part, a_source, rule};
ghost use Rattle.vs_syntax.specs.Tables.{null, null_of, low, low_of, fronts, fronts_of};
ghost use Rattle.vs_syntax.specs.Derivation.{Tree, tokens, Is};
ghost use Rattle.vs_syntax.specs.Plain.{IsPlain};
ghost use Rattle.vs_syntax.specs.Derives.{Derives};
ghost use Rattle.vs_syntax.specs.Same.{SameSource};
ghost use Rattle.vs_syntax.specs.SourceNames.{NamesAreTokens};
ghost use Rattle.vs_syntax.specs.declared.tree.Source.{Source};

/// The symbols of a source have one tree.
pub fn one_tree()
    ensures { (x y : Tree) → Is (part a_source) x [] → Is (part a_source) y [] → tokens x ≡ tokens y → x ≡ y }
{}

/// Tokens derive one source, but for where its parts lie in memory.
pub fn one_source()
    ensures { (ts : List Symbol) (s s' : Source) → Derives ts s → Derives ts s' → SameSource s s' }
{}

/// What the tables say of each part is what its rule gives.
pub fn tables_agree()
    ensures without_tokens { (p : Nonterminal) → null (rule p) ≡ null_of p }
    ensures least_nesting { (p : Nonterminal) → low (rule p) ≡ low_of p }
    ensures beginnings { (p : Nonterminal) → fronts (rule p) ≡ fronts_of p }
{}

/// A source derives exactly where the rules alone allow it, without a look at the next token but where an optional part is left out.
pub fn plain_reading()
    ensures derived_is_plain { (x : Tree) → Is (part a_source) x [] → IsPlain (part a_source) x [] }
    ensures plain_is_derived { (x : Tree) → IsPlain (part a_source) x [] → Is (part a_source) x [] }
{}

/// What holds of each token of a text holds of each name that its source declares.
pub fn names_are_tokens()
    ensures { NamesAreTokens }
{}
