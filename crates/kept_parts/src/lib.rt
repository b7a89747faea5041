//! Names of resources and modules, and the parts of ids, kept with their extents.
//!
//! A caller may rely on each function returning what `emitted_declarations` says in `specs/Declared` of a name or of
//! the parts of an id, made only where it is within the limits (`kept_expressions`), or no memory. `specs/Pieces` says
//! what the parts of a name are, and `specs/Frames` when the run of a loop is kept.
#![tactic(auto)]

mod frames;
mod growing;
mod ids;
mod names;
mod numbered;
mod pieces;

pub use frames::{KeptFrame, element_frame, kept_nothing, no_frame, placed, placed_all};
pub use growing::still;
pub use ids::{id_extent, id_of_parts};
pub use kept_expressions::{Kept, KeptHoles};
pub use names::symbol_name;
pub use numbered::{copied_holes, kept_piece, kept_text, parts_of};
pub use pieces::{Piece, piece_extent, piece_of};
