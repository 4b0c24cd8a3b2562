//! Paths, stores and trees from texts, for tests.
//!
//! Each function answers `Memory` where a growth was refused, and `Device` where its text says
//! nothing that can stand.
#![tactic(auto)]

mod paths;
mod stores;
mod trees;

pub use paths::path;
pub use stores::{plant, store};
pub use trees::{Plants, add, tree};
