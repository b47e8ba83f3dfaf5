//! Where the parts of a source and of its design stand: lines and columns, the names that it declares and uses, its processes, assignments and
//! statements.
#![tactic(auto)]

mod explanation;
mod frames;
mod marks;
mod named;
mod outline;
mod page;
mod paths;
mod places;
mod scan;
mod source;
mod statements;

pub use explanation::{
    Explanation, PlaceForm, Placed, PlacedIn, push_marked, push_place, push_shown,
};
pub use marks::{is_declaration, put_code, put_statement};
pub use named::{found, place_of, put_marked, put_named};
pub use outline::{
    DeclaredKind, Landmark, LandmarkKind, Outline, Piece, PieceKind, Region, RegionKind, UseRole,
};
pub use page::Page;
pub use paths::{PathPart, first_part, last_name, ordinal_of, scope_of};
pub use places::{Spot, spot_of};
pub use scan::outline_of;
pub use source::{SourceText, is_marked};
pub use statements::statement_tokens;
pub use vs_lexer;
