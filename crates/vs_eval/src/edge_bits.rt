//! Edges of the bits of a word (IEEE 1364-2005, clause 9.7.2).
ghost use Rattle.std.specs.Prelude.{◌≡◌, ◌<◌, ◌==◌, ℕ, get_or};
ghost use Rattle.std.specs.Int.{bit_at};
ghost use Rattle.vs_design.specs.vs_logic4.specs.declared.digit.Digit.TheVariants.{Zero};
ghost use Rattle.vs_design.specs.vs_logic4.specs.Edges.{is_edge};

use vs_design::vs_logic4::{Edge, Vec4};

/// The places at which the change of a word is such an edge, as the bits of a number. A place past a word's end counts as a digit 0.
#[inline(always)]
fn edges(edge: Edge, before: Vec4, behind: Vec4) -> u64
    ensures { (place : ℕ) → place < 64 → (bit_at result place == 1) ≡ is_edge edge (get_or before place Zero) (get_or behind place Zero) }
{
    let value = before.value_plane();
    let unknown = before.unknown_plane();
    let value_behind = behind.value_plane();
    let unknown_behind = behind.unknown_plane();
    match edge {
        Edge::Any => value ^ value_behind | unknown ^ unknown_behind,
        Edge::Posedge => {
            !value & !unknown & (value_behind | unknown_behind)
                | unknown & value_behind & !unknown_behind
        }
        Edge::Negedge => {
            value & !unknown & (!value_behind | unknown_behind)
                | unknown & !value_behind & !unknown_behind
        }
    }
}

/// Whether the change of a word is such an edge of the digit at a place.
#[inline(always)]
pub(crate) fn is_edge_at(edge: Edge, before: Vec4, behind: Vec4, place: u32) -> bool
    requires { place < 64 }
    ensures { result ≡ is_edge edge (get_or before place Zero) (get_or behind place Zero) }
{
    edges(edge, before, behind) >> place & 1 == 1
}
