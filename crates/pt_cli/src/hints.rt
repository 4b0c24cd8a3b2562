//! The hint that the parser gives at a word which it doesn't know, where that is meant as an
//! option's value.

use crate::Text;
use crate::grammar::takes_value;
use pt_tree::MemoryFault;
use std::alloc::Global;
use std::convert::AsStr;

// What the parser's text begins with where it doesn't know a word, which stands behind it.
const UNKNOWN: &str = "error: unexpected argument '";

// The parser's text on these words, with the hint mended. The parser takes a word that begins with
// `-` for no value, and hints at `-- WORD`: behind an option that would make it a folder or an
// identifier, and what is meant is `--OPTION=WORD`.
pub(crate) fn mend_hint<S: AsStr>(
    alloc: Global,
    text: &str,
    words: &[S],
) -> Result<Text, MemoryFault> {
    let Some(shown) = unknown_word(text) else {
        return Text::of(alloc, text);
    };
    let Some((option, value)) = find_value(words, shown) else {
        return Text::of(alloc, text);
    };
    let wrong = format!(in alloc; "to pass '{shown}' as a value, use '-- {shown}'")?;
    let right = format!(in alloc;
        "to pass '{value}' as the value of '{option}', use '{option}={value}'"
    )?;
    let mended = text.replace(alloc, wrong.as_str(), right.as_str())?;
    Text::of(alloc, mended.as_str())
}

// The word that the parser says it doesn't know, if it says that: of several letters behind a `-`
// the first that it doesn't know.
fn unknown_word(text: &str) -> Option<&str> {
    let (word, _) = text.strip_prefix(UNKNOWN)?.split_once("' found")?;
    Some(word)
}

// The first word that begins so and stands behind an option that has a value, with that option
// before it.
fn find_value<'w, S: AsStr>(words: &'w [S], shown: &str) -> Option<(&'w str, &'w str)> {
    let mut before = "";
    for word in words {
        let word = word.as_str();
        if word == "--" {
            return None;
        }
        if word.starts_with(shown) && takes_value(before) {
            return Some((before, word));
        }
        before = word;
    }
    None
}
