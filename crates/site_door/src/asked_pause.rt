//! The pause that a reply sets by its Retry-After field.
//! RFC 9110, section 10.2.3.
ghost use Rattle.std.specs.Prelude.{◌≡◌, Some, None, if◌then◌else◌, min};
ghost use Rattle.std.specs.Char.{is_ascii_digit};
ghost use Rattle.std.specs.List.{list_all};
ghost use Rattle.std.specs.Str.Parse.{digits_value};
ghost use Rattle.site_door.specs.Limits.{most_pause};
ghost use Rattle.site_door.specs.RetryAfter.{pause_of};

/// The longest pause that a reply sets, in seconds.
pub const MOST_PAUSE: u64 = 3_600;

/// The seconds of the pause that a reply of this status sets, by the value of its Retry-After field: at 429
/// and 503, if the value is digits alone. A date sets none.
pub fn retry_after(status: u16, field: &[u8]) -> Option<u64>
    ensures { result ≡ pause_of status field.now }
{
    if !matches!(status, 429 | 503) || field.is_empty() {
        return None;
    }
    seconds_in(field)
}

// The seconds of digits, up to the longest pause.
fn seconds_in(digits: &[u8]) -> Option<u64>
    ensures { result ≡ (if list_all is_ascii_digit digits.now
        then Some (min (digits_value 10 digits.now) most_pause) else None) }
{
    let mut seconds = 0;
    let mut rest = digits;
    while let Some((digit, after)) = rest.split_first() {
        if !digit.is_ascii_digit() {
            return None;
        }
        seconds = (seconds * 10 + u64::from(*digit - b'0')).min(MOST_PAUSE);
        rest = after;
    }
    Some(seconds)
}
