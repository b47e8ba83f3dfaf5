//! The scopes of a source as they are listed: each with its path, the names that are seen in it, its signals, its connections and its implicit nets,
//! and what is wrong with ports that items declare (IEEE 1364-2005, clauses 4.5 and 12).
#![tactic(auto)]

mod again;
mod around;
mod blocks;
mod connecting;
mod counts;
mod declarations;
mod inner;
mod late;
mod limits;
mod members;
mod naming;
mod nets;
mod opened;
mod permits;
mod sights;
mod sites;
mod stray;
mod telling;
mod texts;
mod unlike;

pub use again::ports_again;
pub use around::Enclosing;
pub use blocks::check_blocks;
pub use connecting::connections;
pub use counts::{counted, take_one};
pub use declarations::{Declared, Site, declare_pieces, declare_ports};
pub use inner::{genvars, inner_names};
pub use late::check_late;
pub use limits::{DEEPEST, LEVELS, has_parameter, has_wrong_port, passes_limit};
pub use members::{Members, block_members, module_members};
pub use naming::{bind_all, bind_constants};
pub use opened::{ElabScope, Hierarchy, Numbering};
pub use permits::permits_after;
pub use sights::{Level, Sight, declared_places, own_sight, sight_around};
pub use sites::{names_around, names_outward, path, path_inside};
pub use stray::has_stray_port;
pub use telling::{fault_at, member_fault, named_fault, scope_fault};
pub use unlike::is_unlike;
pub use vs_elab_constants;
pub use vs_scopes;
pub use vs_widths;
