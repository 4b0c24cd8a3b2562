//! Identifiers: how they are cleaned, placed, shortened and read back, the prefix, layouts and
//! shares.
use crate::tables::{Holds, all_hold, gives_bytes, gives_text, refuses};
use pt_memory::texts::path;
use pt_name::*;
use std::alloc::{AllocError, Global};

enum Row {
    // An identifier, its pairpath and its place in the default layout.
    Mapped(&'static [u8], &'static [u8], &'static [u8]),
    // An identifier, and its place alone.
    Placed(&'static [u8], &'static [u8]),
    // An identifier, and its pairpath alone.
    Pairpath(&'static [u8], &'static [u8]),
    // An identifier, and its cleaned text.
    Cleaned(&'static [u8], &'static [u8]),
    // An identifier, and how many characters its encoding has.
    Encoded(&'static [u8], usize),
    // An identifier, and the front and the end of its last name.
    Ends(&'static [u8], &'static [u8], &'static [u8]),
    // A cleaned text, and the identifier that it reads; or why it reads none.
    Read(&'static [u8], &'static str),
    Unread(&'static [u8], UncleanFault),
    // The names of a path, and the same with nothing between them.
    Joined(&'static str, &'static [u8]),
    // The bytes of a file `pairtree_prefix`, and the prefix; bytes that are the prefix, all of
    // them; and why there is none.
    Prefix(&'static [u8], &'static str),
    WholePrefix(&'static [u8]),
    NoPrefix(&'static [u8], PrefixFault),
}

impl Holds for Row {
    fn holds(&self, alloc: Global) -> bool {
        match self {
            Row::Mapped(id, path, place) => {
                gives_bytes(pairpath(alloc, id), path) && is_placed(alloc, id, place)
            }
            Row::Placed(id, place) => is_placed(alloc, id, place),
            Row::Pairpath(id, path) => gives_bytes(pairpath(alloc, id), path),
            Row::Cleaned(id, text) => gives_bytes(clean(alloc, id), text),
            Row::Encoded(id, length) => has_encoding_of(alloc, id, *length),
            Row::Ends(id, front, end) => ends_in(alloc, id, front, end),
            Row::Read(text, id) => gives_text(unclean(alloc, text), id),
            Row::Unread(text, fault) => refuses(unclean(alloc, text), *fault),
            Row::Joined(names, text) => concatenates(alloc, names, text),
            Row::Prefix(bytes, prefix) => gives_text(read_prefix(alloc, bytes), prefix),
            Row::WholePrefix(bytes) => is_prefix(alloc, bytes),
            Row::NoPrefix(bytes, fault) => refuses(read_prefix(alloc, bytes), *fault),
        }
    }
}

const MAPPED: &[Row] = &[
    Row::Mapped(b"abc", b"ab/c", b"ba7/816/bf8/abc"),
    Row::Mapped(
        b"ark:/13030/xt12t3",
        b"ar/k+/=1/30/30/=x/t1/2t/3",
        b"4b8/4fe/385/ark%3a%2f13030%2fxt12t3",
    ),
    Row::Mapped(
        b"..hor/rib:le-$id",
        b",,/ho/r=/ri/b+/le/-$/id",
        b"487/326/d8c/%2e%2ehor%2frib%3ale-%24id",
    ),
    Row::Mapped(b"object-01", b"ob/je/ct/-0/1", b"3c0/ff4/240/object-01"),
    Row::Mapped(
        b"what-the-*@?#!^!?",
        b"wh/at/-t/he/-^/2a/@^/3f/#!/^5/e!/^3/f",
        b"fd1/d8a/b04/what-the-%2a%40%3f%23%21%5e%21%3f",
    ),
    Row::Pairpath(b"", b""),
    Row::Placed(b"\n", b"01b/a47/19c/%0a"),
];

// The identifier isn't empty, and its place in the default layout is this.
fn is_placed(alloc: Global, id: &[u8], place: &[u8]) -> bool {
    !id.is_empty() && gives_bytes(Layout::default_form().place_text(alloc, id), place)
}

const CLEANED: &[Row] = &[
    Row::Cleaned(
        b"http://n2t.info/urn:nbn:se:kb:repos-1",
        b"http+==n2t,info=urn+nbn+se+kb+repos-1",
    ),
    Row::Cleaned(b"\xc3\xa9", b"^c3^a9"),
    Row::Cleaned(b"a\\ b", b"a^5c^20b"),
];

// The identifier isn't empty, and its last name is this front, and then this end.
fn ends_in(alloc: Global, id: &[u8], front: &[u8], end: &[u8]) -> bool {
    !id.is_empty() && is_joined_of(last_name(alloc, id), front, end)
}

fn is_joined_of<E: Drop>(name: Result<Vec<u8>, E>, front: &[u8], end: &[u8]) -> bool {
    match name {
        Ok(name) => {
            name.len() == front.len() + end.len() && name.starts_with(front) && name.ends_with(end)
        }
        Err(_) => false,
    }
}

const A_100: &[u8] = &[b'a'; 100];

const A_101: &[u8] = &[b'a'; 101];

const LETTERS: &[Row] = &[
    Row::Ends(A_100, A_100, b""),
    Row::Ends(
        A_101,
        A_100,
        b"-9d0793397991b57a99a07c6e6b4a92bab68dbf605345cd0b87f385a448a726bc",
    ),
];

// 34 slashes, and 33 with a letter.
const SLASHES: &[u8] = &[b'/'; 34];

const SLASHES_AND_A: &[u8] = b"/////////////////////////////////a";

// The first 99 characters of the encoding of 34 slashes, which has 102, and the one after them.
const ENCODED: &[u8] =
    b"%2f%2f%2f%2f%2f%2f%2f%2f%2f%2f%2f%2f%2f%2f%2f%2f%2f%2f%2f%2f%2f%2f%2f%2f%2f%2f%2f%2f%2f%2f%2f%2f%2f";

const ENCODED_100: &[u8] =
    b"%2f%2f%2f%2f%2f%2f%2f%2f%2f%2f%2f%2f%2f%2f%2f%2f%2f%2f%2f%2f%2f%2f%2f%2f%2f%2f%2f%2f%2f%2f%2f%2f%2f%";

fn has_encoding_of(alloc: Global, id: &[u8], length: usize) -> bool {
    match encoded(alloc, id) {
        Ok(encoding) => encoding.len() == length,
        Err(_) => false,
    }
}

const CUT: &[Row] = &[
    Row::Encoded(SLASHES, 102),
    Row::Ends(
        SLASHES,
        ENCODED_100,
        b"-1f62aeee9540aa9022a24e0c65a754e3434d310c30a4ecc682361bde1e7a8760",
    ),
    Row::Ends(SLASHES_AND_A, ENCODED, b"a"),
];

// Layouts and shares.
enum Form {
    // The size and the number of the tuples of the default layout.
    DefaultLayout(u32, u32),
    // The size and the number of the tuples of a layout; or why there is no such layout.
    Layout(u32, u32),
    NoLayout(u32, u32, LayoutFault),
    // The same, how many names the place of `abc` has, and the place.
    Place(u32, u32, usize, &'static [u8]),
    // The number of a share, and how many there are; or why there is no such share.
    Share(u32, u32),
    NoShare(u32, u32, ShareFault),
    // An identifier, and the numbers of the shares that it is of where there are so many as in
    // `COUNTS`.
    Shares(&'static [u8], &'static [u32; 7]),
    // The same as of a share, and an identifier that it doesn't hold.
    NotHeld(u32, u32, &'static [u8]),
    // The share that is the whole is the first one.
    WholeIsFirst,
    // Texts, an identifier, and whether the whole holds it of which only what begins with the texts
    // is taken.
    Begins(&'static [&'static str], &'static [u8], bool),
}

impl Holds for Form {
    fn holds(&self, alloc: Global) -> bool {
        match self {
            Form::DefaultLayout(size, count) => {
                is_layout(Ok(Layout::default_form()), *size, *count)
            }
            Form::Layout(size, count) => is_layout(Layout::of(*size, *count), *size, *count),
            Form::NoLayout(size, count, fault) => refuses(Layout::of(*size, *count), *fault),
            Form::Place(size, count, names, place) => {
                is_place(alloc, *size, *count, *names, place)
            }
            Form::Share(index, count) => is_share(Share::of(*index, *count), *index, *count),
            Form::NoShare(index, count, fault) => refuses(Share::of(*index, *count), *fault),
            Form::Shares(id, numbers) => find_missed_count(id, numbers).is_none(),
            Form::NotHeld(index, count, id) => is_held(*index, *count, id, false),
            Form::WholeIsFirst => Share::whole().is_first(),
            Form::Begins(texts, id, answer) => match owned(alloc, texts) {
                Ok(texts) => Share::whole().with_only(texts).holds(id) == *answer,
                Err(_) => false,
            },
        }
    }
}

fn is_layout(layout: Result<Layout, LayoutFault>, size: u32, count: u32) -> bool {
    match layout {
        Ok(layout) => layout.size() == size && layout.count() == count,
        Err(_) => false,
    }
}

const LAYOUTS: &[Form] = &[
    Form::DefaultLayout(3, 3),
    Form::Layout(3, 3),
    Form::Layout(2, 4),
    Form::Layout(0, 0),
    Form::Layout(32, 2),
    Form::Layout(2, 32),
    Form::Layout(32, 1),
    Form::Layout(1, 32),
];

const NO_LAYOUTS: &[Form] = &[
    Form::NoLayout(33, 1, LayoutFault::OutOfRange),
    Form::NoLayout(1, 33, LayoutFault::OutOfRange),
    Form::NoLayout(33, 0, LayoutFault::OutOfRange),
    Form::NoLayout(0, 3, LayoutFault::OneZero),
    Form::NoLayout(3, 0, LayoutFault::OneZero),
    Form::NoLayout(13, 5, LayoutFault::TooLong),
    Form::NoLayout(32, 3, LayoutFault::TooLong),
];

const READ: &[Row] = &[
    Row::Read(b"^2A", "*"),
    Row::Read(b"^2a", "*"),
    Row::Read(b"a\\", "a\\"),
    Row::Read(b"a^5c", "a\\"),
    Row::Read(b"ark+=13030=xt12t3", "ark:/13030/xt12t3"),
    Row::Read(b"ab/c", "ab/c"),
    Row::Read(b"\"*<>?|", "\"*<>?|"),
    Row::Read(b"^c3^A9", "\u{e9}"),
    Row::Read(b"", ""),
];

const UNREAD: &[Row] = &[
    Row::Unread(b"^ff^2", UncleanFault::Malformed),
    Row::Unread(b"^ff", UncleanFault::NotUtf8),
    Row::Unread(b"^2", UncleanFault::Malformed),
    Row::Unread(b"^", UncleanFault::Malformed),
    Row::Unread(b"^2g", UncleanFault::Malformed),
    Row::Unread(b"a b", UncleanFault::Malformed),
    Row::Unread(b"\x7f", UncleanFault::Malformed),
    Row::Unread(b"\xc3\xa9", UncleanFault::Malformed),
    Row::Unread(b"^^2a", UncleanFault::Malformed),
];

const PREFIXES: &[Row] = &[
    Row::Prefix(b"uc1.\r\n\n", "uc1."),
    Row::Prefix(b"\n", ""),
    Row::Prefix(b"", ""),
    Row::Prefix(b"a\nb\r", "a\nb"),
];

const A_1024: &[u8] = &[b'a'; 1024];

const A_1025: &[u8] = &[b'a'; 1025];

const NO_PREFIXES: &[Row] = &[
    Row::WholePrefix(A_1024),
    Row::NoPrefix(A_1025, PrefixFault::TooLong),
    Row::NoPrefix(b"\xff", PrefixFault::NotUtf8),
];

// These bytes are the prefix, all of them.
fn is_prefix(alloc: Global, bytes: &[u8]) -> bool {
    match str::from_utf8(bytes) {
        Ok(prefix) => gives_text(read_prefix(alloc, bytes), prefix),
        Err(_) => false,
    }
}

// 1,024 letters and a line end, which isn't taken off before the length is looked at.
fn refuses_line_end(alloc: Global) -> bool {
    let mut bytes = [b'a'; 1025];
    bytes[1024] = b'\n';
    refuses(read_prefix(alloc, &bytes), PrefixFault::TooLong)
}

const PLACES: &[Form] = &[
    Form::Place(3, 3, 4, b"ba7/816/bf8/abc"),
    Form::Place(2, 4, 5, b"ba/78/16/bf/abc"),
    Form::Place(0, 0, 1, b"abc"),
    Form::Place(
        32,
        2,
        3,
        b"ba7816bf8f01cfea414140de5dae2223/b00361a396177a9cb410ff61f20015ad/abc",
    ),
];

// The place of `abc` in this layout has so many names and is this, as a path and as a text.
fn abc_lies_at(alloc: Global, layout: Layout, names: usize, place: &[u8]) -> bool {
    match layout.place(alloc, b"abc") {
        Ok(path) => {
            path.len() == names
                && gives_bytes(path.join(), place)
                && gives_bytes(layout.place_text(alloc, b"abc"), place)
        }
        Err(_) => false,
    }
}

fn is_place(alloc: Global, size: u32, count: u32, names: usize, place: &[u8]) -> bool {
    match Layout::of(size, count) {
        Ok(layout) => abc_lies_at(alloc, layout, names, place),
        Err(_) => false,
    }
}

// The names of this path are this text, with nothing between them.
fn concatenates(alloc: Global, names: &str, want: &[u8]) -> bool {
    match path(alloc, names) {
        Ok(path) => gives_bytes(concatenate(alloc, &path), want),
        Err(_) => false,
    }
}

const JOINED: &[Row] = &[
    Row::Joined("^6/1b/c", b"^61bc"),
    Row::Read(b"^61bc", "abc"),
    Row::Joined("", b""),
];

const COUNTS: [u32; 7] = [1, 2, 3, 4, 7, 100, 4096];

// Computed from the SHA-256 of the identifiers by another program.
const SHARES: &[Form] = &[
    Form::Shares(b"abc", &[1, 2, 3, 3, 6, 73, 2984]),
    Form::Shares(b"abcd", &[1, 2, 2, 3, 4, 54, 2190]),
    Form::Shares(b"abcde", &[1, 1, 1, 1, 2, 22, 876]),
    Form::Shares(b"", &[1, 2, 3, 4, 7, 89, 3644]),
    Form::Shares(b"ark:/13030/xt12t3", &[1, 1, 1, 2, 3, 30, 1209]),
    Form::Shares(b"\xc3\xa9", &[1, 1, 1, 2, 3, 30, 1194]),
    Form::Shares(b"a", &[1, 2, 3, 4, 6, 80, 3242]),
    Form::Shares(b"ab", &[1, 2, 3, 4, 7, 99, 4025]),
];

// There is such a share, and it holds the identifier; or it doesn't.
fn is_held(index: u32, count: u32, id: &[u8], answer: bool) -> bool {
    match Share::of(index, count) {
        Ok(share) => share.holds(id) == answer,
        Err(_) => false,
    }
}

// How many shares there are where the identifier isn't of the share with its number, if anywhere.
fn find_missed_count(id: &[u8], numbers: &[u32; 7]) -> Option<u32> {
    for (count, number) in COUNTS.iter().zip(numbers.iter()) {
        if !is_held(*number, *count, id, true) {
            return Some(*count);
        }
    }
    None
}

const NOT_HELD: &[Form] = &[
    Form::NotHeld(1, 2, b"abc"),
    Form::NotHeld(3, 4, b"ab"),
    Form::WholeIsFirst,
];

// Copies of texts.
pub(crate) fn owned(alloc: Global, texts: &[&str]) -> Result<Vec<String>, AllocError> {
    let mut owned = Vec::new(alloc);
    for text in texts {
        owned.push(String::from_str(alloc, text)?)?;
    }
    Ok(owned)
}

const BEGINS: &[Form] = &[
    Form::Begins(&[], b"abc", true),
    Form::Begins(&["ab"], b"abc", true),
    Form::Begins(&["abc"], b"abc", true),
    Form::Begins(&["abcd"], b"abc", false),
    Form::Begins(&["bc"], b"abc", false),
    Form::Begins(&["x", "a"], b"abc", true),
    Form::Begins(&["x", "B"], b"bc", false),
    Form::Begins(&["\u{e9}"], b"\xc3\xa9a", true),
    Form::Begins(&["a"], b"", false),
];

const NO_SHARES: &[Form] = &[
    Form::NoShare(0, 0, ShareFault::Zero),
    Form::NoShare(0, 5000, ShareFault::Zero),
    Form::NoShare(1, 0, ShareFault::Zero),
    Form::NoShare(1, 4097, ShareFault::TooMany),
    Form::NoShare(5000, 4097, ShareFault::TooMany),
    Form::NoShare(2, 1, ShareFault::OutOfRange),
    Form::NoShare(4097, 4096, ShareFault::OutOfRange),
    Form::Share(4096, 4096),
];

fn is_share(share: Result<Share, ShareFault>, index: u32, count: u32) -> bool {
    match share {
        Ok(share) => share.index() == index && share.count() == count,
        Err(_) => false,
    }
}

#[test]
fn identifiers_are_cleaned_placed_and_read_back(rt: HostRuntime) {
    all_hold(&rt, rt.alloc(), "pairpaths and places", MAPPED);
    all_hold(&rt, rt.alloc(), "cleaned texts", CLEANED);
    all_hold(
        &rt,
        rt.alloc(),
        "shortening begins after 100 characters",
        LETTERS,
    );
    all_hold(&rt, rt.alloc(), "shortening cuts the encoding", CUT);
    all_hold(&rt, rt.alloc(), "texts read back", READ);
    all_hold(&rt, rt.alloc(), "texts that read nothing", UNREAD);
    all_hold(&rt, rt.alloc(), "prefixes", PREFIXES);
    all_hold(
        &rt,
        rt.alloc(),
        "prefixes end at their greatest length",
        NO_PREFIXES,
    );
    all_hold(
        &rt,
        rt.alloc(),
        "identifiers are read from joined names",
        JOINED,
    );
    assert!(rt; refuses_line_end(rt.alloc()));
}

#[test]
fn layouts_and_shares_keep_within_their_ranges(rt: HostRuntime) {
    all_hold(&rt, rt.alloc(), "layouts", LAYOUTS);
    all_hold(&rt, rt.alloc(), "layouts that are refused", NO_LAYOUTS);
    all_hold(&rt, rt.alloc(), "places in other layouts", PLACES);
    all_hold(&rt, rt.alloc(), "shares of identifiers", SHARES);
    all_hold(
        &rt,
        rt.alloc(),
        "shares hold no other identifiers",
        NOT_HELD,
    );
    all_hold(&rt, rt.alloc(), "beginnings of identifiers", BEGINS);
    all_hold(&rt, rt.alloc(), "shares that are refused", NO_SHARES);
}

#[test]
fn faults_of_names_have_numbers(rt: HostRuntime) {
    let numbers = [
        LayoutFault::OutOfRange.number(),
        LayoutFault::OneZero.number(),
        LayoutFault::TooLong.number(),
        UncleanFault::Malformed.number(),
        UncleanFault::NotUtf8.number(),
        UncleanFault::Memory.number(),
        PrefixFault::TooLong.number(),
        PrefixFault::NotUtf8.number(),
        PrefixFault::Memory.number(),
        ShareFault::Zero.number(),
        ShareFault::TooMany.number(),
        ShareFault::OutOfRange.number(),
    ];
    assert!(rt;
        numbers == [1, 2, 3, 1, 2, 3, 1, 2, 3, 1, 2, 3],
        "{numbers:?}"
    );
}
