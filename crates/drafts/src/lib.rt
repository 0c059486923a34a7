// Agreements as software draws them up, and their writing.
#![tactic(auto)]

mod draft;
mod writing;

pub use agreement::Act;
pub use draft::{Draft, Thing};
pub use writing::write;
