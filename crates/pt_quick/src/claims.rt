//! What the state of an inventory claims: which digest each logical path has.
ghost use Rattle.std.specs.Prelude.{◌≡◌, IfOk, OnOk, Some};
ghost use Rattle.std.specs.Option.{option_copied};
ghost use Rattle.serde_json.specs.Find.{as_str};
ghost use Rattle.serde_json.specs.View.{items_view, members_view, view};
ghost use Rattle.pt_quick.specs.Claimed.{claimed_at, claims_after, no_claims, with_items};
ghost use Rattle.pt_quick.specs.Claimed.{with_member, with_text};

use pt_object::{Algorithm, Digest};
use pt_tree::MemoryFault;
use serde_json::{Map, Value};
use std::alloc::Global;
use std::collections::BTreeMap;
use std::marker::Model;

/// Digests by the texts of logical paths, seen as the list of both.
#[derive(Drop)]
pub(crate) struct Claims {
    alloc: Global,
    by_text: BTreeMap<Vec<u8>, Digest>,
}

impl Model for Claims {
    ghost use Rattle.pt_quick.specs.Claimed.{Held};

    ghost Value = { Held };

    ghost view = { λ c. c.by_text.entries };
}

impl Claims {
    /// None.
    pub(crate) fn new(alloc: Global) -> Claims
        ensures { claimed_at result ≡ no_claims }
    {
        Claims {
            alloc,
            by_text: BTreeMap::new(alloc),
        }
    }

    /// The digest that a text has.
    pub(crate) fn get(&self, text: &[u8]) -> Option<&Digest>
        ensures { option_copied result ≡ claimed_at self.now text.now }
    {
        self.by_text.get(text)
    }

    // A text has this digest from then on.
    fn add(&mut self, text: &str, digest: &Digest) -> Result<(), MemoryFault>
        ensures { OnOk result (claimed_at self.new
            ≡ with_text digest.now (Some text.now) (claimed_at self.old)) }
    {
        let text = Vec::from_slice(self.alloc, text.as_bytes())?;
        let Ok(_) = self.by_text.insert(text, *digest) else {
            return Err(MemoryFault::Memory);
        };
        Ok(())
    }

    // So has this, if it is a text.
    fn add_if_text(&mut self, text: &Value, digest: &Digest) -> Result<(), MemoryFault>
        ensures { OnOk result (claimed_at self.new
            ≡ with_text digest.now (as_str (view text.now)) (claimed_at self.old)) }
    {
        match text.as_str() {
            Some(text) => self.add(text, digest),
            None => Ok(()),
        }
    }

    // So have all of these that are texts.
    fn add_texts(&mut self, texts: &[Value], digest: &Digest) -> Result<(), MemoryFault>
        ensures { OnOk result (claimed_at self.new
            ≡ with_items digest.now (items_view texts.now) (claimed_at self.old)) }
    {
        for text in texts {
            self.add_if_text(text, digest)?;
        }
        Ok(())
    }

    // So have the texts of a state's member, if its key is a digest in hex.
    fn add_member(
        &mut self,
        key: &str,
        texts: &Value,
        algorithm: Algorithm,
    ) -> Result<(), MemoryFault>
        ensures { OnOk result (claimed_at self.new
            ≡ with_member algorithm key.now (view texts.now) (claimed_at self.old)) }
    {
        let Some(digest) = Digest::of_hex(self.alloc, key, algorithm)? else {
            return Ok(());
        };
        let Some(texts) = texts.as_array() else {
            return Ok(());
        };
        self.add_texts(texts, &digest)
    }
}

/// What a state claims with digests of this algorithm. `Memory` where a growth was refused.
pub(crate) fn claims_in(
    alloc: Global,
    state: &Map<String, Value>,
    algorithm: Algorithm,
) -> Result<Claims, MemoryFault>
    ensures { IfOk result (λ claims. claimed_at claims
        ≡ claims_after algorithm (members_view state.now.entries) no_claims) }
{
    let mut claims = Claims::new(alloc);
    for (key, texts) in state {
        claims.add_member(key.as_str(), texts, algorithm)?;
    }
    Ok(claims)
}
