//! Numbers as decimal digits.

ghost use Rattle.std.specs.Prelude.{◌≡◌, ◌<◌, ◌^◌, nat_lt, true, if◌then◌else◌};
ghost use Rattle.std.specs.Char.{is_ascii_digit};
ghost use Rattle.std.specs.List.{list_all};
ghost use Rattle.std.specs.Str.Parse.{digits_value};
ghost use Rattle.uip_wire.specs.Numerals.{NumeralsPrint, is_numeral as has_form, leads_badly as bad_lead, numeral as number_meant};

/// Returns the number below 2^64 whose numeral the bytes are; `None` if they are none.
pub fn numeral(text: &[u8]) -> Option<u64>
    ensures { result ≡ number_meant text.now }
{
    if !is_numeral(text) {
        return None;
    }
    value(text)
}

/// Returns whether the bytes are decimal digits without a leading zero; 0 itself is allowed.
pub fn is_numeral(text: &[u8]) -> bool
    ensures { result ≡ has_form text.now }
{
    if leads_badly(text) {
        return false;
    }
    all_digits(text)
}

/// Returns whether there is nothing, or a zero before something.
fn leads_badly(text: &[u8]) -> bool
    ensures { result ≡ bad_lead text.now }
{
    match text {
        [] => true,
        [_] => false,
        [first, ..] => *first == b'0',
    }
}

fn all_digits(text: &[u8]) -> bool
    ensures { result ≡ list_all is_ascii_digit text.now }
{
    text.iter().all(|byte| byte.is_ascii_digit())
}

/// Returns the number that digits write, if it has at most 64 bits.
fn value(text: &[u8]) -> Option<u64>
    requires { list_all is_ascii_digit text.now ≡ true }
    ensures { result ≡ (if nat_lt (digits_value 10 text.now) (2 ^ 64) then Some (digits_value 10 text.now) else None) }
{
    let mut number: u64 = 0;
    for byte in text {
        let digit = u64::from(byte.saturating_sub(b'0'));
        if number > (u64::MAX - digit) / 10 {
            return None;
        }
        number = number * 10 + digit;
    }
    Some(number)
}

/// A text is parsed as a number exactly if the number is printed as that text.
pub fn numerals_print()
    ensures { NumeralsPrint }
{}
