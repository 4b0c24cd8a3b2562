//! What a line of a log says: of which kind it is, and the numbers and words that are counted of it.
ghost use Rattle.std.specs.Prelude.{◌≡◌, option_map};
ghost use Rattle.pt_messages.specs.Cuts.{number_in};
ghost use Rattle.pt_messages.specs.LineCounts.{kind_and_rest, kind_named as kind_by_word, last_text};
ghost use Rattle.pt_messages.specs.LineCounts.{number_before_comma as number_to_comma};
ghost use Rattle.pt_messages.specs.LineCounts.{number_behind as number_behind_key};

/// Of which kind a line is.
#[derive(Clone, Copy)]
pub(crate) enum LineKind {
    /// An object that was carried, or is the same.
    Carried,
    /// One whose place was taken.
    Present,
    /// One at whose place nothing stands.
    Absent,
    /// An object that the store lacks.
    Extra,
    /// What else stands there and isn't of it.
    Stray,
    /// An object that differs.
    Differs,
    /// A skip.
    Skipped,
    /// An end line.
    End,
    /// One of a check.
    Trouble,
}

/// Of which kind a line is, by its word.
pub(crate) fn kind_named(word: &str) -> LineKind
    ensures { result ≡ kind_by_word word.now }
{
    match word {
        "done" | "same" | "alike" => LineKind::Carried,
        "present" => LineKind::Present,
        "absent" => LineKind::Absent,
        "extra" => LineKind::Extra,
        "stray" => LineKind::Stray,
        "differs" => LineKind::Differs,
        "skip" => LineKind::Skipped,
        "end" => LineKind::End,
        _ => LineKind::Trouble,
    }
}

/// What a line says under "as", and what follows.
pub(crate) fn kind_of(line: &str) -> Option<(&str, &str)>
    ensures { option_map (λ parts. (parts.0.now, parts.1.now)) result ≡ kind_and_rest line.now }
{
    line.strip_prefix("{\"as\":\"")?.split_once('"')
}

/// The number behind a comma and a key, 0 where there is none. In a text of JSON no `"` stands
/// right behind a comma, so what is found is the key.
pub(crate) fn number_behind(rest: &str, key: &str) -> u64
    ensures { result ≡ number_behind_key key.now rest.now }
{
    match rest.split_once(key) {
        Some((_, after)) => number_before_comma(after),
        None => 0,
    }
}

// The number that comes before the next comma, 0 where there is none.
fn number_before_comma(text: &str) -> u64
    ensures { result ≡ number_to_comma text.now }
{
    match text.split_once(',') {
        Some((number, _)) => number_of(number).unwrap_or(0),
        None => 0,
    }
}

// The number that a text writes.
fn number_of(text: &str) -> Option<u64>
    ensures { result ≡ number_in text.now }
{
    text.parse().ok()
}

/// The text that ends a line: that of its last key.
pub(crate) fn last_word(rest: &str) -> &str
    ensures { result.now ≡ last_text rest.now }
{
    match rest.rsplit_once(":\"") {
        Some((_, end)) => end.strip_suffix("\"}\n").unwrap_or(end),
        None => "",
    }
}
