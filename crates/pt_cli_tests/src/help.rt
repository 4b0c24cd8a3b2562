//! What help tells, and the hint that is given of words that are refused.
use crate::migrate_words::MIGRATE;
use crate::words::{Reading, Words, are_read, join_words};
use std::test::Fail;

// Parts of the help of `migrate`, at length.
const HELP: &[&str] = &[
    "Carries a Pairtree store into an OCFL storage root",
    "--created <MOMENT>",
    "2024-05-01T12:00:00Z",
    "[default: none]",
    "[default: \"Migrated from Pairtree\"]",
    "[default: sha512]",
    "[possible values: sha512, sha256]",
    "--tuple-size <DIGITS>\n          Digits in the name of each folder above an object\n",
    "Folders above each object\n          \n          [default: 3]",
    "the prefix included;\n          may be given again",
    "pairtree_root",
    "  done  ",
    "  present  ",
    "  skip  ",
    "  end  ",
    "Exit status:\n  0 ",
    "\n  1 ",
    "\n  2 ",
    "\n  3 ",
];

// Parts of its help by `-h`, a line an option.
const SHORT_HELP: &[&str] = &[
    "--tuple-size <DIGITS>  Digits in the name of each folder above an object [default: 3]\n",
    "--only <TEXT>          Take only objects whose identifiers begin with TEXT; may be repeated\n",
    "  -h, --help                 Print help (see more with '--help')\n",
];

#[test]
fn help_tells_how_to_migrate(rt: HostRuntime) {
    for (word, parts) in [("--help", HELP), ("-h", SHORT_HELP)] {
        for part in parts {
            let words = &["pairtree2ocfl", "migrate", word];
            assert!(rt; are_read(rt.alloc(), words, Reading::Help(part)), "{part}");
        }
    }
}

// What follows the word `migrate`, and the hint that is given.
const HINTS: &[(Words, &str)] = &[
    (
        &["--interval", "-15"],
        "tip: to pass '-15' as the value of '--interval', use '--interval=-15'\n",
    ),
    (
        &["--gather", "-5"],
        "tip: to pass '-5' as a value, use '-- -5'\n",
    ),
    (
        &["--gather", "--", "a", "b", "c"],
        "unexpected argument 'c'",
    ),
];

#[test]
fn a_hint_leads_to_the_option_that_is_meant(rt: HostRuntime) -> Result<(), Fail> {
    for &(words, part) in HINTS {
        let all = join_words(rt.alloc(), MIGRATE, words, &[])?;
        assert!(rt; are_read(rt.alloc(), &all, Reading::Told(part)), "{part}");
    }
    Ok(())
}
