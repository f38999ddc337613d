//! What an author of profiles should know before a header is sent: formats by which nothing can ever be packed, formats that are never used in a flow that begins
//! with a context, entries of a context that no field can have, names that are one letter away from another, formats by which a wrong reference is not noticed,
//! methods whose formats don't call alike; and where the packed bits of each field stand, as columns.
#![tactic(auto)]

pub use columns::{Column, columns_at};
pub use formats::dead_formats;
pub use marks::Judged;
pub use needs::{Needing, needing_formats};
pub use never::first_untrue;
pub use obstacle::obstacle_of;
pub use paths::unknown_paths;
pub use spelled::{Misspelled, misspelled_names};
pub use unlike::{UnlikeCall, unlike_calls};
pub use unnoticed::{Unnoticed, unnoticed_formats};

pub mod column_laws;
pub mod columns;
pub mod demands;
pub mod entries;
pub mod formats;
pub mod growth;
pub mod laws;
mod lengths;
pub mod marks;
pub mod needs;
pub mod never;
pub mod obstacle;
pub mod paths;
mod queue;
pub mod sites;
pub mod spelled;
pub mod undefined;
mod unfit;
pub mod unlike;
pub mod unnoticed;
