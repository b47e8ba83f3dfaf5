//! How a `case` statement compares (IEEE 1364-2005, clauses 9.5 and 9.5.1).
ghost use Rattle.std.specs.Prelude.{◌≡◌};
ghost use Rattle.vs_logic4.specs.Cases.{matches};
ghost use Rattle.vs_logic4.specs.Planes.{value_plane, unknown_plane};
ghost use Rattle.vs_logic4.specs.CasePlanes.{wild_plane};

use crate::vector::Vec4;

/// The word that a `case` statement begins with.
#[derive(Clone, Copy, PartialEq, Eq)]
pub enum CaseKind {
    /// `case`: digits are equal as `===` says.
    Case,
    /// `casez`: where either digit is z, they count as equal.
    Casez,
    /// `casex`: where either digit is x or z, they count as equal.
    Casex,
}

impl CaseKind {
    /// Whether two vectors match: they have one size, and each two digits match.
    pub fn matches(self, left: Vec4, right: Vec4) -> bool
        ensures { result ≡ matches self left right }
    {
        if left.width() != right.width() {
            return false;
        }
        let values = left.value_plane() ^ right.value_plane();
        let unknowns = left.unknown_plane() ^ right.unknown_plane();
        (values | unknowns) & !self.ignored(left) & !self.ignored(right) == 0
    }

    /// The places at which a vector's digits count as equal to every other one, as the bits of a number.
    fn ignored(self, vector: Vec4) -> u64
        ensures { result ≡ wild_plane self (value_plane vector) (unknown_plane vector) }
    {
        match self {
            CaseKind::Case => 0,
            CaseKind::Casez => vector.unknown_plane() & !vector.value_plane(),
            CaseKind::Casex => vector.unknown_plane(),
        }
    }
}
