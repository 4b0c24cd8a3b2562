//! The table of an object's contents: each distinct digest with the first path that has it. A
//! digest is found by halving an index of positions, which lie in rows (`SortedIndex`,
//! `IndexBlock`), over keys of the digests.

mod contents;
mod index;
mod index_block;
mod sorted_index;

pub use contents::{Content, Contents};
pub(crate) use index::tell_bytes;
pub(crate) use sorted_index::SortedIndex;
