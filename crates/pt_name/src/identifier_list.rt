//! A list of identifiers.
#![tactic(auto, using(crate::proofs::Lists::lists_as, crate::proofs::Lists::strict_once))]

ghost use Rattle.std.specs.Prelude.{◌≡◌, List, ℕ, IfOk, is_ok, map, slice_get};
ghost use Rattle.std.specs.Option.{option_map};
ghost use Rattle.std.specs.String.{string_bytes};
ghost use Rattle.pt_name.specs.Share.{ListsAs, is_listed};
ghost use Rattle.pt_name.specs.Unmet.{StandsOnlyAt};

use std::marker::Model;

/// A list of identifiers, by the name of its file. It holds each once, in the order of their bytes.
#[derive(Debug, Drop)]
pub struct IdentifierList {
    name: String,
    ids: Vec<String>,
}

impl Model for IdentifierList {
    ghost use Rattle.std.specs.Prelude.{List, ℕ, map};
    ghost use Rattle.std.specs.List.Sorted.{IsStrictlySortedBy};
    ghost use Rattle.std.specs.String.{string_bytes, string_cmp};

    ghost Value = { List (List ℕ) };

    ghost view = { λ l. map string_bytes l.ids.items };

    ghost invariant = { λ l. IsStrictlySortedBy string_cmp l.ids.items };
}

impl IdentifierList {
    /// The list of these identifiers. One that stands there twice is held once.
    pub fn of(name: String, lines: Vec<String>) -> IdentifierList
        ensures { ListsAs result (map string_bytes lines.items) }
    {
        let mut ids = lines;
        ids.sort_unstable();
        ids.dedup();
        IdentifierList { name, ids }
    }

    /// The name of its file.
    pub fn name(&self) -> &str {
        self.name.as_str()
    }

    /// Whether an identifier stands in it.
    pub fn contains(&self, id: &[u8]) -> bool
        ensures { result ≡ is_listed self.now id.now }
    {
        self.position(id).is_ok()
    }

    /// Its identifiers.
    pub(crate) fn ids(&self) -> &[String]
        ensures { map string_bytes result.now ≡ self.now }
    {
        self.ids.as_slice()
    }

    // The identifier at a position.
    pub(crate) fn get(&self, position: usize) -> Option<&str>
        ensures { option_map (λ id. id.now) result ≡ slice_get self.now position }
    {
        self.ids.get(position).map(|id| id.as_str())
    }

    // Where an identifier stands, or would.
    pub(crate) fn position(&self, id: &[u8]) -> Result<usize, usize>
        ensures found { is_ok result ≡ is_listed self.now id.now }
        ensures alone { IfOk result (StandsOnlyAt id.now self.now) }
    {
        self.ids
            .binary_search_by(|listed| listed.as_bytes().cmp(id))
    }
}
