ghost use Rattle.std.specs.Prelude.{◌≡◌, ◌≤◌, ◌<◌, ◌^◌, ◌==◌, IfOk, map};
ghost use Rattle.std.specs.List.{list_any};
ghost use Rattle.std.specs.String.{string_bytes};
ghost use Rattle.std.specs.Option.{option_map};
ghost use Rattle.pt_name.specs.Share.{begins_so, begins_with, chosen, is_on_own_way, share_number};
ghost use Rattle.pt_name.specs.Unmet.{may_meet};

use crate::division::{number_of_text, number_of_way};
use crate::{Division, IdentifierList};
use pt_tree::{MemoryFault, NamePath};
use std::alloc::Global;
use std::marker::Model;
use std::rc::Rc;
use thiserror::Error;

const MOST: u32 = 4096;

/// Why two numbers are no share.
#[derive(Clone, Copy, Debug, PartialEq, Eq, Error)]
pub enum ShareFault {
    /// One of the two is zero.
    #[error("a number of the share is zero")]
    Zero,
    /// There are more than 4,096 shares.
    #[error("there are more than 4096 shares")]
    TooMany,
    /// The share's number is over how many there are.
    #[error("the number of the share is over how many there are")]
    OutOfRange,
}

impl ShareFault {
    ghost use Rattle.pt_name.specs.Share.{share_number_of_fault};

    /// The fault's number: 1 `Zero`, 2 `TooMany`, 3 `OutOfRange`.
    pub fn number(&self) -> u8
        ensures { result ≡ share_number_of_fault self.now }
    {
        match self {
            ShareFault::Zero => 1,
            ShareFault::TooMany => 2,
            ShareFault::OutOfRange => 3,
        }
    }
}

/// What a run takes of a store: one of the shares in which it is carried, each by a run of its own,
/// by the share's number, from 1 on, and how many there are; and of that the objects that are
/// chosen, whose identifiers begin with one of some texts or stand in a list, where there are texts
/// or a list. An object is of the share that its identifier's SHA-256 gives, or, where the store is
/// divided by folders, that of the first names of its site's path.
#[derive(Debug, Drop)]
pub struct Share {
    index: u32,
    count: u32,
    division: Division,
    only: Option<Vec<String>>,
    list: Option<Rc<IdentifierList>>,
}

impl Model for Share {
    ghost use Rattle.std.specs.Option.{option_map};
    ghost use Rattle.pt_name.specs.Share.{Portion, IsPortion, numbered, texts_of};

    ghost Value = { Portion };

    ghost view = { λ s. record {
      index = s.index;
      count = s.count;
      division = s.division;
      only = texts_of s.only;
      list = option_map (λ list. list.value) s.list;
    } };

    ghost invariant = { λ s. IsPortion (numbered s.index s.count) };
}

impl Share {
    ghost use Rattle.pt_name.specs.Share.{IsPortion, divides_at, holds, is_first, share_of};
    ghost use Rattle.pt_name.specs.Share.{takes, tells_at, walks, whole};
    ghost use Rattle.pt_name.specs.declared.division.Division.TheVariants as division;

    /// The whole store: the one share of one.
    pub fn whole() -> Share
        ensures { result ≡ whole }
    {
        Share {
            index: 1,
            count: 1,
            division: Division::Identifiers,
            only: None,
            list: None,
        }
    }

    /// The share of this number, of `count` shares.
    ///
    /// Refused, in this order, as `Zero` (one of the two is zero), `TooMany` (more than 4,096
    /// shares) and `OutOfRange` (the number is over how many there are).
    pub fn of(index: u32, count: u32) -> Result<Share, ShareFault>
        ensures { result ≡ share_of index count }
    {
        if index == 0 || count == 0 {
            return Err(ShareFault::Zero);
        }
        if count > MOST {
            return Err(ShareFault::TooMany);
        }
        if index > count {
            return Err(ShareFault::OutOfRange);
        }
        Ok(Share {
            index,
            count,
            division: Division::Identifiers,
            only: None,
            list: None,
        })
    }

    /// The share of the same number, of as many into which the store is divided by its folders, by
    /// the names of the first so many shorties on the way to each site.
    pub fn by_folders(self, depth: u32) -> Share
        ensures { result ≡ record self { division = division.Folders depth } }
    {
        Share {
            division: Division::Folders(depth),
            ..self
        }
    }

    /// Of the share, only the objects whose identifiers begin with one of these texts, byte for
    /// byte, the store's prefix included; all of its objects, where there is no text.
    pub fn with_only(self, texts: Vec<String>) -> Share
        ensures { result ≡ record self { only = map string_bytes texts.items } }
    {
        Share {
            only: Some(texts),
            ..self
        }
    }

    /// Of the share, only the objects whose identifiers stand in this list, beside those that begin
    /// with one of its texts. `Memory` where a growth was refused.
    pub fn with_list(self, alloc: Global, list: IdentifierList) -> Result<Share, MemoryFault>
        ensures { IfOk result (λ share. share ≡ record self { list = Some list }) }
    {
        let list = Rc::new(alloc, list)?;
        Ok(Share {
            list: Some(list),
            ..self
        })
    }

    /// The number of the share, from 1 on.
    pub fn index(&self) -> u32
        ensures index { result ≡ self.now.index }
        ensures share { IsPortion self.now }
    {
        self.index
    }

    /// How many shares there are, 1 to 4,096.
    pub fn count(&self) -> u32
        ensures count { result ≡ self.now.count }
        ensures share { IsPortion self.now }
    {
        self.count
    }

    /// How the store is divided into the shares.
    pub fn division(&self) -> Division
        ensures { result ≡ self.now.division }
    {
        self.division
    }

    /// The texts with one of which an identifier has to begin; none where any identifier will do.
    pub fn texts(&self) -> &[String]
        ensures { map string_bytes result.now ≡ self.now.only }
    {
        match &self.only {
            Some(texts) => texts.as_slice(),
            None => &[],
        }
    }

    /// The list in which an identifier may stand, if there is one.
    pub fn list(&self) -> Option<&Rc<IdentifierList>>
        ensures { option_map (λ list. list.now.value) result ≡ self.now.list }
    {
        self.list.as_ref()
    }

    /// Whether it is the first: what is passed over before an identifier is read is told by the
    /// first share alone, unless the store is divided by folders.
    pub fn is_first(&self) -> bool
        ensures { result ≡ is_first self.now }
    {
        self.index == 1
    }

    /// Whether folders so deep below the top directory are divided among the shares.
    pub fn divides_at(&self, depth: usize) -> bool
        ensures { result ≡ divides_at self.now depth }
    {
        match self.division {
            Division::Identifiers => false,
            Division::Folders(folders) => depth == folders as usize,
        }
    }

    /// Whether the folder of a site is walked: of those so deep that they are divided among the
    /// shares, only its own are, and so no other share comes to what is below.
    ///
    /// Takes the path of a site from below the top directory.
    pub fn walks(&self, site: &NamePath) -> bool
        ensures { result ≡ walks self.now site.now }
    {
        match self.division {
            Division::Folders(depth) if site.len() == depth as usize => {
                self.is_on_own_way(site, depth)
            }
            _ => true,
        }
    }

    /// Whether it tells what is passed over at a site before an identifier is carried: the first
    /// share does, or, where the store is divided by folders, the one that the way to the site
    /// gives.
    ///
    /// Takes the path of a site, or of a shorty that isn't listed, from below the top directory.
    pub fn tells_at(&self, site: &NamePath) -> bool
        ensures { result ≡ tells_at self.now site.now }
    {
        match self.division {
            Division::Identifiers => self.is_first(),
            Division::Folders(depth) => self.is_on_own_way(site, depth),
        }
    }

    /// Whether the object of a site, with this identifier, is of this share, and chosen. It is of
    /// the share where the first four bytes of a SHA-256, as a number whose first byte is the
    /// highest, times the count and divided by 2^32, are the share's number less one: that of the
    /// identifier or, where the store is divided by folders, of the first names of the site's path
    /// with `/` between them. It is chosen where the identifier begins with one of the texts, or
    /// stands in the list, or there is neither.
    ///
    /// Takes the path of a site from below the top directory, and any bytes. Of the whole store
    /// each object is, and no digest is made.
    pub fn takes(&self, site: &NamePath, id: &[u8]) -> bool
        ensures { result ≡ takes self.now site.now id.now }
    {
        self.chooses(id)
            && match self.division {
                Division::Identifiers => self.numbers(id),
                Division::Folders(depth) => self.is_on_own_way(site, depth),
            }
    }

    /// Whether an identifier whose site isn't known is of this share, and chosen, as in `takes`.
    /// Where the store is divided by folders it is of the first share.
    ///
    /// Takes any bytes.
    pub fn holds(&self, id: &[u8]) -> bool
        ensures { result ≡ holds self.now id.now }
    {
        self.chooses(id)
            && match self.division {
                Division::Identifiers => self.numbers(id),
                Division::Folders(_) => self.is_first(),
            }
    }

    // Whether the number of the share that an identifier is of is this one's.
    pub(crate) fn numbers(&self, id: &[u8]) -> bool
        ensures { result ≡ share_number self.now.count id.now == self.now.index }
    {
        self.count == 1 || number_of_text(self.count, id) == self.index
    }

    // Whether it may meet an object of this identifier. The way to its site isn't known, so where
    // the store is divided by folders each share may.
    pub(crate) fn may_meet(&self, id: &[u8]) -> bool
        ensures { result ≡ may_meet self.now id.now }
    {
        match self.division {
            Division::Identifiers => self.numbers(id),
            Division::Folders(_) => true,
        }
    }

    // Whether the number of the share that the way to a site gives is this one's.
    fn is_on_own_way(&self, site: &NamePath, depth: u32) -> bool
        ensures { result ≡ is_on_own_way self.now site.now depth }
    {
        self.count == 1 || number_of_way(self.count, site, depth) == self.index
    }

    // Whether an identifier begins with one of the texts, or stands in the list, or there is
    // neither.
    fn chooses(&self, id: &[u8]) -> bool
        ensures { result ≡ chosen self.now.only self.now.list id.now }
    {
        match &self.list {
            Some(list) => list.contains(id) || begins_with_one(self.texts(), id),
            None => begins_so(self.texts(), id),
        }
    }
}

// Whether an identifier begins with one of these texts, or there is none.
#[tactic(auto, using(crate::proofs::Shares::begun_by_one, crate::proofs::Shares::begun_by_any))]
fn begins_so(texts: &[String], id: &[u8]) -> bool
    ensures { result ≡ begins_so (map string_bytes texts.now) id.now }
{
    texts.is_empty() || begins_with_one(texts, id)
}

// Whether an identifier begins with one of these texts.
fn begins_with_one(texts: &[String], id: &[u8]) -> bool
    ensures { result ≡ list_any (λ t. begins_with (string_bytes t) id.now) texts.now }
{
    texts.iter().any(|text| id.starts_with(text.as_bytes()))
}
