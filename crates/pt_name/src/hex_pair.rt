ghost use Rattle.std.specs.Prelude.{◌≡◌, ◌<◌, slice_index};
ghost use Rattle.hex.specs.Hex.{lower_digits};
ghost use Rattle.pt_name.specs.Hex.{hex_pair};

const DIGITS: &[u8; 16] = b"0123456789abcdef";

// The digit of a number below 16, in lower case.
fn hex_digit(number: u8) -> u8
    requires { number < 16 }
    ensures { result ≡ slice_index lower_digits number }
{
    DIGITS[usize::from(number)]
}

// The two hex digits of a byte, in lower case.
pub(crate) fn hex_digits(byte: u8) -> [u8; 2]
    ensures { result ≡ hex_pair byte }
{
    [hex_digit(byte / 16), hex_digit(byte % 16)]
}
