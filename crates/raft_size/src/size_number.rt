//! The number at the start of a size's text, which has digits, a point and an exponent, and its value in
//! bytes.

ghost use Rattle.std.specs.Prelude.{◌≡◌, ◌≤◌, ◌<◌, ◌-◌, ◌*◌, ◌^◌, ◌++◌, IfSome, IfNone, ℕ, Bool, List, min, length};
ghost use Rattle.raft_size.specs.Common.{AllDigits, IsNumeral, digits_value, digits_value_after, Number, IsNumber, IsExponent, digits_of, significant, size_of, has_minus, behind_sign, NoDigitFirst, TakesFraction, number_shown};
ghost use Rattle.raft_size.specs.Common.{HasDigitsAlone, scaled_size};

/// 10^20, the least number of more than 20 digits: the digits of a size must be below it.
const SIGNIFICAND_LIMIT: u128 = 100_000_000_000_000_000_000;

/// A limit for exponents. An exponent that reaches it outweighs all digits that a text can have, so that
/// nothing is lost if a larger one counts as the limit.
const EXPONENT_LIMIT: u128 = 1 << 65;

/// A number as a text spells it, in parts: the sign, the digits before and after the point, and the exponent.
/// The digits are ASCII.
#[derive(Clone, Copy)]
pub(super) struct SizeNumber<'a> {
    /// Whether the sign is a minus.
    is_negative: bool,
    /// The digits before the point.
    whole: &'a [u8],
    /// The digits after the point; none without a point.
    fraction: &'a [u8],
    /// Whether the sign of the exponent is a minus.
    is_exponent_negative: bool,
    /// The digits of the exponent; none without an exponent.
    exponent: &'a [u8],
}

impl<'a> SizeNumber<'a> {
    /// Returns the parts of the number that `text` spells, or `None` if it spells none. A number is a sign,
    /// digits with or without a point, and an exponent, as `-0.5` or `1e+1`; sign and exponent may be
    /// missing.
    pub(super) fn parse(text: &'a [u8]) -> Option<SizeNumber<'a>>
        ensures number { IfSome result (λ number. IsNumber text.now (number_shown number)) }
        ensures digits { IfSome result (λ number. HasDigitsAlone (number_shown number)) }
        ensures none { IfNone result ((number : Number) → IsNumber text.now number → ⊥) }
    {
        let (is_negative, body) = split_sign(text);
        let (whole, behind) = split_digits(body);
        let (fraction, rest) = split_fraction(behind);
        if whole.is_empty() && fraction.is_empty() {
            return None;
        }
        let (is_exponent_negative, exponent) = parse_exponent(rest)?;
        Some(SizeNumber {
            is_negative,
            whole,
            fraction,
            is_exponent_negative,
            exponent,
        })
    }

    /// Returns the number that the digits before and after the point make together, without the point.
    /// Returns `None` if it has more than 20 digits, leading zeros aside.
    pub(super) fn significand(&self) -> Option<u128>
        requires { HasDigitsAlone (number_shown self.now) }
        ensures value { IfSome result (λ value. value ≡ digits_value 10
            (digits_of (number_shown self.now))) }
        ensures bound { IfSome result (λ value. value < 10 ^ 20) }
        ensures few { IfSome result (λ _. length (significant (digits_of (number_shown self.now)))
            ≤ 20) }
        ensures many { IfNone result
            (20 < length (significant (digits_of (number_shown self.now)))) }
    {
        let whole = value_up_to(SIGNIFICAND_LIMIT, 0, self.whole);
        let value = value_up_to(SIGNIFICAND_LIMIT, whole, self.fraction);
        if value < SIGNIFICAND_LIMIT {
            Some(value)
        } else {
            None
        }
    }

    /// Returns the size in bytes: the number times `factor`, rounded down. It is 0 if the number is negative,
    /// and 2^64 - 1 if it would be larger. `factor` is how many bytes the unit has, at most 2^50;
    /// `significand` is what [`SizeNumber::significand`] returned for this number.
    pub(super) fn size(&self, significand: u128, factor: u64) -> u64
        requires digits { HasDigitsAlone (number_shown self.now) }
        requires significand { significand ≡ digits_value 10 (digits_of (number_shown self.now)) }
        requires few { significand < 10 ^ 20 }
        requires factor { factor ≤ 2 ^ 50 }
        ensures { result ≡ size_of (number_shown self.now) factor }
    {
        if self.is_negative {
            return 0;
        }
        let exponent = value_up_to(EXPONENT_LIMIT, 0, self.exponent);
        let places = self.fraction.len() as u128;
        let value = significand * u128::from(factor);
        if self.is_exponent_negative {
            scale_by_powers(value, 0, exponent + places)
        } else {
            scale_by_powers(value, exponent, places)
        }
    }
}

/// Returns whether `text` begins with a minus, and the text after its sign, if it has one.
fn split_sign(text: &[u8]) -> (bool, &[u8])
    ensures minus { result.0 ≡ has_minus text.now }
    ensures rest { result.1.now ≡ behind_sign text.now }
{
    match text {
        [b'-', rest @ ..] => (true, rest),
        [b'+', rest @ ..] => (false, rest),
        _ => (false, text),
    }
}

/// Returns the digits at the start of `text`, and the text after them.
fn split_digits(text: &[u8]) -> (&[u8], &[u8])
    ensures split { text.now ≡ result.0.now ++ result.1.now }
    ensures digits { AllDigits 10 result.0.now }
    ensures stops { NoDigitFirst result.1.now }
{
    for (len, c) in text.iter().enumerate() {
        if !c.is_ascii_digit() {
            return text.split_at(len);
        }
    }
    text.split_at(text.len())
}

/// Returns the digits of a fraction, and the text after them. `behind` is what a number's text has after its
/// whole digits: the fraction is a point and digits at its start. Without a point there are no digits, and
/// the text is all of `behind`.
fn split_fraction(behind: &[u8]) -> (&[u8], &[u8])
    requires { NoDigitFirst behind.now }
    ensures split { TakesFraction behind.now result.0.now result.1.now }
    ensures digits { AllDigits 10 result.0.now }
    ensures stops { NoDigitFirst result.1.now }
{
    match behind {
        [b'.', rest @ ..] => split_digits(rest),
        _ => behind.split_at(0),
    }
}

/// Returns whether an exponent such as `e-3` is negative, and its digits. An empty `text` is an exponent
/// without digits that isn't negative. Returns `None` if `text` isn't an exponent.
fn parse_exponent(text: &[u8]) -> Option<(bool, &[u8])>
    ensures exponent { IfSome result (λ exponent. IsExponent text.now exponent.0 exponent.1.now) }
    ensures none { IfNone result ((minus : Bool) (digits : List ℕ) →
        IsExponent text.now minus digits → ⊥) }
{
    match text {
        [] => Some((false, text)),
        [b'e', power @ ..] => parse_power(power),
        [b'E', power @ ..] => parse_power(power),
        _ => None,
    }
}

/// Returns whether `text`, the part of an exponent after its `e`, is negative, and its digits. Returns `None`
/// if it has no digits, or anything but a sign and digits.
fn parse_power(text: &[u8]) -> Option<(bool, &[u8])>
    ensures minus { IfSome result (λ power. power.0 ≡ has_minus text.now) }
    ensures digits { IfSome result (λ power. power.1.now ≡ behind_sign text.now) }
    ensures numeral { IfSome result (λ _. IsNumeral 10 (behind_sign text.now)) }
    ensures none { IfNone result (IsNumeral 10 (behind_sign text.now) → ⊥) }
{
    let (is_negative, power) = split_sign(text);
    let (digits, rest) = split_digits(power);
    if digits.is_empty() || !rest.is_empty() {
        return None;
    }
    Some((is_negative, digits))
}

/// Returns the number whose decimal digits are those of `start` and then `digits`, or `limit` if the number
/// is larger. `start` is at most `limit`.
fn value_up_to(limit: u128, start: u128, digits: &[u8]) -> u128
    requires limit { limit < 2 ^ 100 }
    requires start { start ≤ limit }
    requires digits { AllDigits 10 digits.now }
    ensures { result ≡ min limit (digits_value_after 10 start digits.now) }
{
    let mut value = start;
    for digit in digits {
        value = limit.min(value * 10 + u128::from(*digit - b'0'));
    }
    value
}

/// Returns `value` times 10^`up` divided by 10^`down`, rounded down, or 2^64 - 1 if that is larger.
fn scale_by_powers(value: u128, up: u128, down: u128) -> u64
    requires { value < 2 ^ 120 }
    ensures { result ≡ scaled_size value up down }
{
    if up < down {
        divide_by_power(value, down - up)
    } else {
        multiply_by_power(value, up - down)
    }
}

/// Returns `value` divided by 10^`power`, rounded down, or 2^64 - 1 if that is larger.
fn divide_by_power(value: u128, power: u128) -> u64
    requires { value < 2 ^ 120 }
    ensures { result ≡ scaled_size value 0 power }
{
    if power < 37 {
        saturate(value / 10u128.pow(power as u32))
    } else {
        0
    }
}

/// Returns `value` times 10^`power`, or 2^64 - 1 if that is larger.
fn multiply_by_power(value: u128, power: u128) -> u64
    ensures { result ≡ scaled_size value power 0 }
{
    let value = saturate(value);
    if power < 20 {
        saturate(u128::from(value) * 10u128.pow(power as u32))
    } else if value == 0 {
        0
    } else {
        u64::MAX
    }
}

/// Returns `number`, or 2^64 - 1 if it is larger.
fn saturate(number: u128) -> u64
    ensures { result ≡ min (2 ^ 64 - 1) number }
{
    u64::try_from(number).unwrap_or(u64::MAX)
}
