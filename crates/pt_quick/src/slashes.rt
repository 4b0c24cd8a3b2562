//! How many slashes the text of a path has.
ghost use Rattle.std.specs.Prelude.{◌≡◌};
ghost use Rattle.pt_quick.specs.Slashes.{is_past, slashes_in};

/// How many slashes a path has.
pub(crate) fn count_slashes(path: &str) -> u64
    ensures { result ≡ slashes_in path.now }
{
    let mut count = 0;
    for byte in path.as_bytes() {
        if *byte == b'/' {
            count += 1;
        }
    }
    count
}

/// Whether a path has more slashes than this.
pub(crate) fn is_past(slashes: u64, path: &str) -> bool
    ensures { result ≡ is_past slashes path.now }
{
    count_slashes(path) > slashes
}
