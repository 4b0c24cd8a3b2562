//! The members of a JSON object, put one after another.
ghost use Rattle.std.specs.Prelude.{◌≡◌, true};
ghost use Rattle.serde_json.specs.View.{view};
ghost use Rattle.pt_messages.specs.Plain.{is_plain};

use pt_tree::Name;
use serde_json::{Map, Value};
use std::alloc::{AllocError, Global};

/// The members of a JSON object. Each call that puts one or makes the line gives an error where a
/// growth was refused.
#[derive(Drop)]
pub struct Members {
    alloc: Global,
    object: Value,
    ghost plain: { is_plain (view object) ≡ true },
}

impl Members {
    ghost use Rattle.std.specs.Prelude.{◌≡◌, IfOk, OnOk, false, map, option_map, string_bytes};
    ghost use Rattle.serde_json.specs.Data.{no_members, object};
    ghost use Rattle.serde_json.specs.Data.{put as with_member};
    ghost use Rattle.serde_json.specs.View.{view};
    ghost use Rattle.serde_json.specs.Written.{has_float};
    ghost use Rattle.pt_messages.specs.Counts.{put_count};
    ghost use Rattle.pt_messages.specs.Members.{line_of, members_of, put_flag, put_if, put_text};
    ghost use Rattle.pt_messages.specs.Members.{put_texts};

    /// No members.
    pub fn new(alloc: Global) -> Members
        ensures { members_of result ≡ no_members }
    {
        Members {
            alloc,
            object: Value::from(Map::new(alloc)),
        }
    }

    /// No members, of another object.
    pub fn empty(&self) -> Members
        ensures { members_of result ≡ no_members }
    {
        Members::new(self.alloc)
    }

    /// Puts a text at a key.
    pub fn put_text(&mut self, key: &str, text: &str) -> Result<(), AllocError>
        ensures { OnOk result (members_of self.new
            ≡ put_text key.now text.now (members_of self.old)) }
    {
        let text = String::from_str(self.alloc, text)?;
        self.put(key, Value::from(text))
    }

    /// Puts a text at a key, where there is one.
    pub fn put_given(&mut self, key: &str, text: Option<&str>) -> Result<(), AllocError>
        ensures { OnOk result (members_of self.new
            ≡ put_if key.now (option_map (λ text. text.now) text.entry) (members_of self.old)) }
    {
        match text {
            Some(text) => self.put_text(key, text),
            None => Ok(()),
        }
    }

    /// Puts a number at a key.
    pub fn put_number(&mut self, key: &str, count: u64) -> Result<(), AllocError>
        ensures { OnOk result (members_of self.new
            ≡ put_count key.now count (members_of self.old)) }
    {
        self.put(key, Value::from(count))
    }

    /// Puts at a key whether something is so.
    pub fn put_flag(&mut self, key: &str, is_set: bool) -> Result<(), AllocError>
        ensures { OnOk result (members_of self.new
            ≡ put_flag key.now is_set (members_of self.old)) }
    {
        self.put(key, Value::from(is_set))
    }

    /// Puts at a key an object with these members.
    pub fn put_members(&mut self, key: &str, members: Members) -> Result<(), AllocError>
        ensures { OnOk result (members_of self.new
            ≡ with_member key.now (object (members_of members)) (members_of self.old)) }
    {
        self.put(key, members.object)
    }

    /// Puts at a key a list of names.
    pub fn put_names(&mut self, key: &str, names: &[Name]) -> Result<(), AllocError>
        ensures { OnOk result (members_of self.new
            ≡ put_texts key.now names.now (members_of self.old)) }
    {
        let mut texts = Vec::with_capacity(self.alloc, names.len())?;
        for name in names {
            texts.push(String::from_str(self.alloc, text_of(name))?)?;
        }
        self.put_texts(key, texts.as_slice())
    }

    /// Puts at a key a list of texts.
    pub fn put_texts(&mut self, key: &str, texts: &[String]) -> Result<(), AllocError>
        ensures { OnOk result (members_of self.new
            ≡ put_texts key.now (map string_bytes texts.now) (members_of self.old)) }
    {
        let mut values = Vec::with_capacity(self.alloc, texts.len())?;
        for text in texts {
            values.push(Value::from(String::from_str(self.alloc, text)?))?;
        }
        self.put(key, Value::from(values))
    }

    /// The object as a line: compact, its keys in the order of their bytes, with LF.
    pub fn line(&self) -> Result<String, AllocError>
        ensures { IfOk result (λ line. string_bytes line ≡ line_of (members_of self.now)) }
    {
        let mut text = self.object.to_string(self.alloc)?;
        text.push_str("\n")?;
        Ok(text)
    }

    // Puts at a key a value with no float in it.
    fn put(&mut self, key: &str, value: Value) -> Result<(), AllocError>
        requires { has_float (view value) ≡ false }
        ensures { OnOk result (members_of self.new
            ≡ with_member key.now (view value) (members_of self.old)) }
    {
        let alloc = self.alloc;
        match self.object.as_object_mut() {
            Some(members) => serde_json::put(members, alloc, key, value),
            None => Ok(()),
        }
    }
}

// The text of a name: the bytes of each are UTF-8.
fn text_of(name: &Name) -> &str
    ensures { result.now ≡ name.now }
{
    match str::from_utf8(name.bytes()) {
        Ok(text) => text,
        Err(_) => "",
    }
}
