// Moments to the second, as an inventory has them.
ghost use Rattle.std.specs.Prelude.{◌≡◌, ◌<◌, IfSome, length};
ghost use Rattle.pt_object.specs.Moment.{is_below as is_below_of, is_clock as is_clock_of};
ghost use Rattle.pt_object.specs.Moment.{is_date as is_date_of};
ghost use Rattle.pt_object.specs.Moment.{is_date_time as is_date_time_of, is_day as is_day_of};
ghost use Rattle.pt_object.specs.Moment.{is_moment as is_moment_of, is_offset as is_offset_of};
ghost use Rattle.pt_object.specs.Moment.{is_time as is_time_of, two_digits as two_digits_of};

use jiff::civil::Date;

// Whether the text is `YYYY-MM-DDTHH:MM:SS` followed by `Z` or an offset.
pub(crate) fn is_moment(text: &[u8]) -> bool
    ensures { result ≡ is_moment_of text.now }
{
    text.len() > 19 && is_date_time(&text[..19]) && is_offset(&text[19..])
}

fn is_date_time(text: &[u8]) -> bool
    requires { length text.now ≡ 19 }
    ensures { result ≡ is_date_time_of text.now }
{
    text[10] == b'T' && is_date(&text[..10]) && is_time(&text[11..19])
}

fn is_date(text: &[u8]) -> bool
    requires { length text.now ≡ 10 }
    ensures { result ≡ is_date_of text.now }
{
    if text[4] != b'-' || text[7] != b'-' {
        return false;
    }
    match (
        two_digits(&text[..2]),
        two_digits(&text[2..4]),
        two_digits(&text[5..7]),
        two_digits(&text[8..10]),
    ) {
        (Some(century), Some(year), Some(month), Some(day)) => {
            is_day(u16::from(century) * 100 + u16::from(year), month, day)
        }
        _ => false,
    }
}

// Whether the calendar has this day.
fn is_day(year: u16, month: u8, day: u8) -> bool
    requires year { year < 10000 }
    requires month { month < 100 }
    requires day { day < 100 }
    ensures { result ≡ is_day_of year month day }
{
    Date::new(year as i16, month as i8, day as i8).is_ok()
}

fn is_time(text: &[u8]) -> bool
    ensures { result ≡ is_time_of text.now }
{
    text.len() == 8 && text[5] == b':' && is_clock(&text[..5]) && is_below(60, &text[6..8])
}

fn is_offset(text: &[u8]) -> bool
    ensures { result ≡ is_offset_of text.now }
{
    match text {
        [b'Z'] => true,
        [b'+' | b'-', clock @ ..] => is_clock(clock),
        _ => false,
    }
}

fn is_clock(text: &[u8]) -> bool
    ensures { result ≡ is_clock_of text.now }
{
    text.len() == 5 && text[2] == b':' && is_below(24, &text[..2]) && is_below(60, &text[3..5])
}

// Whether the text is two digits that write a number below the limit.
fn is_below(limit: u8, text: &[u8]) -> bool
    ensures { result ≡ is_below_of limit text.now }
{
    match two_digits(text) {
        Some(number) => number < limit,
        None => false,
    }
}

// The number that two digits write.
fn two_digits(text: &[u8]) -> Option<u8>
    ensures value { result ≡ two_digits_of text.now }
    ensures range { IfSome result (λ n. n < 100) }
{
    match text {
        [tens @ b'0'..=b'9', ones @ b'0'..=b'9'] => Some((*tens - b'0') * 10 + (*ones - b'0')),
        _ => None,
    }
}
