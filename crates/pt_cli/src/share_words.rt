//! The words of a share, as `2/8`, of how the store is divided, and of what is taken of the share.
ghost use Rattle.std.specs.Prelude.{◌≡◌, IfOk, map, option_map};
ghost use Rattle.std.specs.String.{string_bytes};
ghost use Rattle.clap.specs.Words.{found_of, rows_of};
ghost use Rattle.pt_cli.specs.Arguments.{ReadsAs, number_of};
ghost use Rattle.pt_cli.specs.Options.{portion_in};
ghost use Rattle.pt_cli.specs.Share.{at_depth, divided, share_asked, share_in, with_only};

use crate::arguments::{text, texts};
use crate::faults::Unread;
use crate::ids::{BY_FOLDERS, ONLY, SHARE};
use clap::ArgMatches;
use pt_name::Share;
use pt_tree::MemoryFault;
use pt_walk::Limits;
use std::alloc::Global;

// What of a store is taken, but for a list: refused as `Share`, and then as `Folders`.
pub(crate) fn share(alloc: Global, matches: &ArgMatches<'_>) -> Result<Share, Unread>
    ensures { ReadsAs (portion_in (rows_of (found_of matches.now))) result }
{
    let asked = text(matches, SHARE);
    let Some(numbered) = numbered(asked) else {
        return Err(Unread::Share);
    };
    let Some(share) = divided(asked, text(matches, BY_FOLDERS), numbered) else {
        return Err(Unread::Folders);
    };
    Ok(with_only(alloc, texts(matches, ONLY), share)?)
}

// The share that is asked for, if it is one: the whole store where none is.
fn numbered(text: Option<&str>) -> Option<Share>
    ensures { result ≡ share_asked (option_map (λ s. s.now) text.entry) }
{
    match text {
        Some(text) => share_in_text(text),
        None => Some(Share::whole()),
    }
}

// The share of this number with the store divided by its folders, where a text names their depth:
// none, where that is no depth from 1 to the greatest, or no share is asked for.
fn divided(asked: Option<&str>, depth: Option<&str>, share: Share) -> Option<Share>
    ensures { result ≡ divided
        (option_map (λ s. s.now) asked.entry) (option_map (λ s. s.now) depth.entry) share }
{
    match (asked, depth) {
        (_, None) => Some(share),
        (None, Some(_)) => None,
        (Some(_), Some(depth)) => at_depth(share, number_in_text(depth)?),
    }
}

// The share with the store divided by its folders so deep, if these can be listed.
fn at_depth(share: Share, depth: u32) -> Option<Share>
    ensures { result ≡ at_depth share depth }
{
    if depth == 0 || u64::from(depth) > Limits::greatest().depth() {
        return None;
    }
    Some(share.by_folders(depth))
}

// Of a share only what begins with these texts, where some are given. It holds copies of them.
fn with_only(alloc: Global, texts: Option<&[&str]>, share: Share) -> Result<Share, MemoryFault>
    ensures { IfOk result (λ taken. taken
        ≡ with_only (option_map (λ s. map (λ t. t.now) s.now) texts.entry) share) }
{
    match texts {
        Some(texts) => Ok(share.with_only(copies(alloc, texts)?)),
        None => Ok(share),
    }
}

// Copies of these texts.
fn copies(alloc: Global, texts: &[&str]) -> Result<Vec<String>, MemoryFault>
    ensures { IfOk result (λ copies. map string_bytes copies.items ≡ map (λ t. t.now) texts.now) }
{
    let mut copies = Vec::with_capacity(alloc, texts.len())?;
    for text in texts {
        copies.push(String::from_str(alloc, text)?)?;
    }
    Ok(copies)
}

// The share that a text names, as `2/8`.
fn share_in_text(text: &str) -> Option<Share>
    ensures { result ≡ share_in text.now }
{
    let (index, count) = text.split_once('/')?;
    Share::of(number_in_text(index)?, number_in_text(count)?).ok()
}

// The number of `u32` that a text writes.
fn number_in_text(text: &str) -> Option<u32>
    ensures { result ≡ number_of text.now }
{
    text.parse().ok()
}
