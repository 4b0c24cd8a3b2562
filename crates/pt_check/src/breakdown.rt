//! What of a store is counted class by class: its folders by how deep they lie, its files by their
//! length.
ghost use Rattle.std.specs.Prelude.{◌≡◌, ◌≤◌, ◌<◌, length, map};
ghost use Rattle.pt_check.specs.Breakdown.{class_counts, class_word, class_words};
ghost use Rattle.pt_check.specs.Counting.{depths, digits, lengths, powers_of_ten};

use crate::Numbers;

/// How many classes of depths there are: each depth below 32, and 32 with all that are deeper.
pub const DEPTHS: usize = 33;

/// How many classes of lengths there are: 0, and the lengths of one to twenty digits.
pub const LENGTHS: usize = 21;

const POWERS_OF_TEN: [u64; LENGTHS - 1] = [
    1,
    10,
    100,
    1_000,
    10_000,
    100_000,
    1_000_000,
    10_000_000,
    100_000_000,
    1_000_000_000,
    10_000_000_000,
    100_000_000_000,
    1_000_000_000_000,
    10_000_000_000_000,
    100_000_000_000_000,
    1_000_000_000_000_000,
    10_000_000_000_000_000,
    100_000_000_000_000_000,
    1_000_000_000_000_000_000,
    10_000_000_000_000_000_000,
];

// The powers of ten that can be counted to.
fn powers_of_ten() -> &'static [u64]
    ensures { result.now ≡ powers_of_ten }
{
    &POWERS_OF_TEN
}

/// How many digits a length has; 0 has none.
pub(crate) fn digits(length: u64) -> usize
    ensures value { result ≡ digits length }
    ensures few { result < lengths }
{
    let powers = powers_of_ten();
    let mut count = 0;
    for power in powers {
        if *power <= length {
            count += 1;
        }
    }
    count
}

/// What is counted class by class.
#[derive(Clone, Copy, Debug, PartialEq, Eq)]
pub enum Breakdown {
    /// The bytes of the files that were read whole, by the digits of their length.
    BytesOf,
    /// These files, in the same way.
    FilesOf,
    /// The objects, by the depth of their site.
    ObjectsAt,
    /// The sites, by their depth.
    SitesAt,
}

// A text with each class behind it, in two digits.
macro_rules! of_each_class {
    ($text:literal) => {
        [
            concat!($text, "00"),
            concat!($text, "01"),
            concat!($text, "02"),
            concat!($text, "03"),
            concat!($text, "04"),
            concat!($text, "05"),
            concat!($text, "06"),
            concat!($text, "07"),
            concat!($text, "08"),
            concat!($text, "09"),
            concat!($text, "10"),
            concat!($text, "11"),
            concat!($text, "12"),
            concat!($text, "13"),
            concat!($text, "14"),
            concat!($text, "15"),
            concat!($text, "16"),
            concat!($text, "17"),
            concat!($text, "18"),
            concat!($text, "19"),
            concat!($text, "20"),
            concat!($text, "21"),
            concat!($text, "22"),
            concat!($text, "23"),
            concat!($text, "24"),
            concat!($text, "25"),
            concat!($text, "26"),
            concat!($text, "27"),
            concat!($text, "28"),
            concat!($text, "29"),
            concat!($text, "30"),
            concat!($text, "31"),
            concat!($text, "32"),
        ]
    };
}

const BYTES_OF: [&str; DEPTHS] = of_each_class!("bytes_of_");

const FILES_OF: [&str; DEPTHS] = of_each_class!("files_of_");

const OBJECTS_AT: [&str; DEPTHS] = of_each_class!("objects_at_");

const SITES_AT: [&str; DEPTHS] = of_each_class!("sites_at_");

impl Breakdown {
    /// The key of a class.
    pub fn word(self, class: usize) -> &'static str
        requires { class < depths }
        ensures { result.now ≡ class_word self class }
    {
        self.words()[class]
    }

    // The keys of the classes.
    fn words(self) -> &'static [&'static str]
        ensures { map (λ word. word.now) result.now ≡ class_words self }
    {
        match self {
            Breakdown::BytesOf => &BYTES_OF,
            Breakdown::FilesOf => &FILES_OF,
            Breakdown::ObjectsAt => &OBJECTS_AT,
            Breakdown::SitesAt => &SITES_AT,
        }
    }

    /// What it counts, class by class.
    pub fn counts(self, numbers: &Numbers) -> &[u64]
        ensures counts { result.now ≡ class_counts numbers.now self }
        ensures few { length result.now ≤ depths }
    {
        match self {
            Breakdown::BytesOf => &numbers.bytes_of,
            Breakdown::FilesOf => &numbers.files_of,
            Breakdown::ObjectsAt => &numbers.objects_at,
            Breakdown::SitesAt => &numbers.sites_at,
        }
    }
}
