//! The names of Pairtree 0.1 and of OCFL places: an identifier cleaned and cut into a pairpath, and
//! read back from one; and its place in a storage root, by extension
//! 0003-hash-and-id-n-tuple-storage-layout.
//!
//! ```rust
//! let id = b"ark:/13030/xt12t3".as_slice();
//! pairpath(alloc, id)?; // ar/k+/=1/30/30/=x/t1/2t/3
//! Layout::default_form().place_text(alloc, id)?; // 4b8/4fe/385/ark%3a%2f13030%2fxt12t3
//! unclean(alloc, b"ark+=13030=xt12t3")?; // ark:/13030/xt12t3
//! ```
//!
//! What it promises, for any bytes:
//!
//! - `clean`: exactly the cleaned text, by cases on each byte. `pairpath`: that text in pieces of
//!   two with `/` between. `unclean`: reads it back, exactly where it reads something and that is
//!   UTF-8.
//! - `encoded`, `last_name`, `Layout::place`: exactly what the extension makes of the identifier,
//!   for each layout. `Layout::of`: accepts exactly the numbers that the extension allows.
//! - `identify`: exactly what the names of a site say of its object (`Identification`): why it has
//!   no identifier that can be carried (`Refusal`), that it is of another share, or its identifier,
//!   behind the store's prefix (`read_prefix`), and its place. Asked in that order.
//! - `Share::of`: accepts exactly the shares 1 to N of up to 4,096. `takes`: exactly whether the
//!   share's number is the one that the identifier's SHA-256 gives (`share_number`), or, by
//!   folders, that of the way to its site (`way_text`), and the identifier is `chosen`, by the
//!   texts that it may begin with or by a list (`IdentifierList`). `walks`, `tells_at`: exactly
//!   which folders a share lists, and where it tells what is passed over.
//! - `UnmetIdentifiers`: exactly those of the list that the share may meet and that weren't met.
//! - Laws: a text reads at most one list of bytes (`one_reading`); what was cleaned reads back
//!   (`cleaned_reads_back`); reading as a relation and as a function say the same
//!   (`reading_is_computed`); two different identifiers share a place only where both encodings are
//!   shortened, agree in their first 100 characters, and have one SHA-256 (`one_place`).
//!
//! Guarantees of README that rest on its definitions: Complete, Readable as OCFL, No half objects,
//! Run it again, The log is true, It ends, and stays small, An audit is exact, Shares are the
//! whole.
#![tactic(auto)]

mod cleaning;
mod division;
mod encoding;
mod hex_pair;
mod identifier;
mod identifier_list;
mod identifying;
mod joining;
pub mod laws;
mod layout;
mod prefix;
mod reading;
mod share;
mod unmet_identifiers;

pub use cleaning::{clean, pairpath};
pub use division::Division;
pub use encoding::{encoded, last_name};
pub use identifier::Identifier;
pub use identifier_list::IdentifierList;
pub use identifying::{Identification, PlacedObject, Refusal, identify};
pub use joining::concatenate;
pub use layout::{Layout, LayoutFault};
pub use prefix::{PrefixFault, is_doubtful, read_prefix};
pub use reading::{UncleanFault, unclean};
pub use share::{Share, ShareFault};
pub use unmet_identifiers::UnmetIdentifiers;
