//! The lines of all logs, as their members make them: one compact JSON object, and LF.

ghost use Rattle.std.specs.Prelude.{◌≡◌, ◌++◌, ◌∷◌, List, [], IfOk, OnOk};
ghost use Rattle.std.specs.String.{string_bytes};
ghost use Rattle.serde.specs.Event.{Log};
ghost use Rattle.serde_json.specs.Data.{object};
ghost use Rattle.serde_json.specs.Events.{SendsMembers, SendsValue};
ghost use Rattle.serde_json.specs.Written.{compact_text};
ghost use Rattle.pt_plan.specs.Members.{members_tree};

use pt_tree::MemoryFault;
use serde::{Described, Serialize, Serializer};
use std::alloc::Global;

/// A member of a line. A line's keys stand in the order in which it lists its members, and by
/// nothing else: that of the keys' bytes, as the definitions of the lines have it (`line_tree`).
#[derive(Drop)]
pub enum Member<'m> {
    /// A key, and its number.
    Number(&'m str, u64),
    /// A key, and the text of its path, which is made for the line.
    Path(&'m str, String),
    /// A key, and its text.
    Text(&'m str, &'m str),
}

impl Member<'_> {
    // Sends it, so that what is sent behind it as its others makes a whole with it.
    fn send<S: Serializer>(&self, out: &mut S) -> Result<(), S::Error>
        ensures { OnOk result ((others : List Member) → (end : Log)
            → SendsMembers (members_tree others) (S.written out.new) end
            → SendsMembers (members_tree (self.now ∷ others)) (S.written out.old) end) }
    {
        match self {
            Member::Number(key, n) => {
                out.key(key)?;
                out.u64(*n)
            }
            Member::Path(key, path) => {
                out.key(key)?;
                out.str(path.as_str())
            }
            Member::Text(key, text) => {
                out.key(key)?;
                out.str(text)
            }
        }
    }
}

// The members of a line. They are sent from where they lie, so that no key and no text is copied
// before it is written. A derived `Serialize` says nothing of what it writes, so this is by hand.
#[derive(Drop)]
struct Members<'m>(&'m [Member<'m>]);

impl Described for Members<'_> {
    ghost writes = { λ m. SendsValue (object (members_tree m.0.now)) };
}

impl Serialize for Members<'_> {
    fn serialize<S: Serializer>(&self, out: &mut S) -> Result<(), S::Error> {
        out.begin_map(Some(self.0.len()))?;
        for member in self.0 {
            member.send(out)?;
        }
        out.end_map()
    }
}

/// The line with these members; `Memory` where a growth was refused.
pub fn line_with(alloc: Global, members: &[Member<'_>]) -> Result<String, MemoryFault>
    ensures { IfOk result (λ text. string_bytes text
        ≡ compact_text (object (members_tree members.now)) ++ 10 ∷ []) }
{
    // They are texts and numbers, so that nothing but memory can be wanting.
    let members = Members(members);
    let mut text = serde_json::to_string(alloc, &members).map_err(|_| MemoryFault::Memory)?;
    text.push_str("\n")?;
    Ok(text)
}
