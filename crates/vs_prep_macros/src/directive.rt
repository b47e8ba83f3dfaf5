//! The names of directives (IEEE 1364-2005, clause 19).
ghost use Rattle.std.specs.Prelude.{◌≡◌, map};
ghost use Rattle.vs_prep_macros.specs.Directives.{directive_in, directive_of};

/// A directive.
#[derive(Clone, Copy, PartialEq, Eq, Debug)]
pub enum Directive {
    BeginKeywords,
    Celldefine,
    DefaultNettype,
    Define,
    Else,
    Elsif,
    EndKeywords,
    Endcelldefine,
    Endif,
    Ifdef,
    Ifndef,
    Include,
    Line,
    NounconnectedDrive,
    Pragma,
    Resetall,
    Timescale,
    UnconnectedDrive,
    Undef,
}

/// The directives, each with its name.
static DIRECTIVES: [(&[u8], Directive); 19] = [
    (b"begin_keywords", Directive::BeginKeywords),
    (b"celldefine", Directive::Celldefine),
    (b"default_nettype", Directive::DefaultNettype),
    (b"define", Directive::Define),
    (b"else", Directive::Else),
    (b"elsif", Directive::Elsif),
    (b"end_keywords", Directive::EndKeywords),
    (b"endcelldefine", Directive::Endcelldefine),
    (b"endif", Directive::Endif),
    (b"ifdef", Directive::Ifdef),
    (b"ifndef", Directive::Ifndef),
    (b"include", Directive::Include),
    (b"line", Directive::Line),
    (b"nounconnected_drive", Directive::NounconnectedDrive),
    (b"pragma", Directive::Pragma),
    (b"resetall", Directive::Resetall),
    (b"timescale", Directive::Timescale),
    (b"unconnected_drive", Directive::UnconnectedDrive),
    (b"undef", Directive::Undef),
];

/// The directive that stands beside this name in the table.
fn directive_in(table: &[(&[u8], Directive)], name: &[u8]) -> Option<Directive>
    ensures { result ≡ directive_in (map (λ entry. (entry.0.now, entry.1)) table.now) name.now }
{
    for (spelling, directive) in table {
        if *spelling == name {
            return Some(*directive);
        }
    }
    None
}

impl Directive {
    /// The directive of a name.
    #[tactic(auto, unfolding(crate::specs::Directives::directive_of))]
    pub fn of(name: &[u8]) -> Option<Directive>
        ensures { result ≡ directive_of name.now }
    {
        directive_in(&DIRECTIVES, name)
    }
}
