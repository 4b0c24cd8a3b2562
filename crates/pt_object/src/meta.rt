ghost use Rattle.std.specs.Prelude.{◌≡◌};
ghost use Rattle.std.specs.Option.{option_map};
ghost use Rattle.pt_tree.specs.Refusal.{Answers};
ghost use Rattle.pt_object.specs.Meta.{given_address, meta_number, meta_refusal, parts_of};

use crate::moment::is_moment;
use std::alloc::{AllocError, Global};
use std::marker::Model;
use thiserror::Error;

/// Why texts are no description of a version.
#[derive(Clone, Copy, Debug, PartialEq, Eq, Error)]
pub enum MetaFault {
    /// The moment isn't one of RFC 3339 to the second.
    #[error("the moment is not one of RFC 3339 to the second")]
    Created,
    /// The name is the empty text.
    #[error("the name is empty")]
    EmptyName,
    /// A growth was refused.
    #[error("out of memory")]
    Memory,
}

impl MetaFault {
    /// The fault's number: 1 `Created`, 2 `EmptyName`, 3 `Memory`.
    pub fn number(&self) -> u8
        ensures { result ≡ meta_number self.now }
    {
        match self {
            MetaFault::Created => 1,
            MetaFault::EmptyName => 2,
            MetaFault::Memory => 3,
        }
    }
}

impl From<AllocError> for MetaFault {
    ghost use Rattle.std.specs.Prelude.{◌≡◌};
    ghost use Rattle.pt_object.specs.declared.meta.MetaFault.TheVariants as fault;

    ghost from_gives = { λ _ e. e ≡ fault.Memory };

    fn from(_: AllocError) -> Self {
        MetaFault::Memory
    }
}

/// What an inventory says of its version (OCFL 1.1, "Versions"): when it was made, by whom and why.
#[derive(Debug, Drop)]
pub struct Meta {
    created: String,
    name: String,
    address: Option<String>,
    message: String,
}

impl Model for Meta {
    ghost use Rattle.std.specs.String.{string_bytes};
    ghost use Rattle.std.specs.Option.{option_map};
    ghost use Rattle.pt_object.specs.MetaParts.{MetaParts};

    ghost Value = { MetaParts };

    ghost view = { λ m. record {
      created = string_bytes m.created;
      name = string_bytes m.name;
      address = option_map string_bytes m.address;
      message = string_bytes m.message;
    } };
}

impl Meta {
    /// The description with these texts. An empty address is none; an empty message stays.
    ///
    /// Refused, in this order, as `Created`, where `created` isn't `YYYY-MM-DDTHH:MM:SS` followed
    /// by `Z`, `+HH:MM` or `-HH:MM`, of a day of the calendar and without a leap second (RFC 3339),
    /// and as `EmptyName`; then as `Memory`, where a growth was refused.
    pub fn of(
        alloc: Global,
        created: &str,
        name: &str,
        address: Option<&str>,
        message: &str,
    ) -> Result<Meta, MetaFault>
        ensures { Answers (meta_refusal created.now name.now) MetaFault.Memory result
            (λ meta. meta ≡ parts_of created.now name.now
            (given_address (option_map (λ a. a.now) address.entry)) message.now) }
    {
        if !is_moment(created.as_bytes()) {
            return Err(MetaFault::Created);
        }
        if name.is_empty() {
            return Err(MetaFault::EmptyName);
        }
        let address = match address {
            None | Some("") => None,
            Some(address) => Some(String::from_str(alloc, address)?),
        };
        Ok(Meta {
            created: String::from_str(alloc, created)?,
            name: String::from_str(alloc, name)?,
            address,
            message: String::from_str(alloc, message)?,
        })
    }

    /// The moment, as it was given.
    pub fn created(&self) -> &str
        ensures { result.now ≡ self.now.created }
    {
        self.created.as_str()
    }

    /// The name.
    pub fn name(&self) -> &str
        ensures { result.now ≡ self.now.name }
    {
        self.name.as_str()
    }

    /// The address; None where none was given, or an empty one.
    pub fn address(&self) -> Option<&str>
        ensures { option_map (λ a. a.now) result ≡ self.now.address }
    {
        match &self.address {
            Some(address) => Some(address.as_str()),
            None => None,
        }
    }

    /// The message.
    pub fn message(&self) -> &str
        ensures { result.now ≡ self.now.message }
    {
        self.message.as_str()
    }
}
