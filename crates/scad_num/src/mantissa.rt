//! The digits of a literal before and behind its point.
ghost use Rattle.std.specs.Prelude.{◌≡◌, ◌==◌, ◌+◌, ◌<◌, ◌≤◌, length, slice_index, take_while};
ghost use Rattle.std.specs.Bool.{OnTrue};
ghost use Rattle.std.specs.Char.{is_ascii_digit};
ghost use Rattle.std.specs.Str.Parse.{AllDigits};
ghost use Rattle.scad_num.specs.Literal.{digits_len, whole_digits, decimal_digits, mantissa_len};

/// The digits of a literal before its point and behind it, and how many bytes they take with it.
#[derive(Clone, Copy)]
pub(crate) struct Mantissa<'a> {
    pub whole: &'a [u8],
    pub decimals: &'a [u8],
    pub len: usize,
}

/// How many digits the bytes begin with.
fn digits_len(bytes: &[u8]) -> usize
    ensures value { result ≡ digits_len bytes.now }
    ensures within { result ≤ length bytes.now }
{
    for (i, b) in bytes.iter().enumerate() {
        if !b.is_ascii_digit() {
            return i;
        }
    }
    bytes.len()
}

/// The digits that the bytes begin with.
#[tactic(auto, using(crate::proofs::Digits::front_digits))]
pub(crate) fn digits_at_front(bytes: &[u8]) -> &[u8]
    ensures value { result.now ≡ take_while is_ascii_digit bytes.now }
    ensures digits { AllDigits 10 result.now }
{
    &bytes[..digits_len(bytes)]
}

/// Whether a point stands at this place.
fn is_point(bytes: &[u8], at: usize) -> bool
    ensures value { result ≡ slice_index bytes.now at == 46 }
    ensures within { OnTrue result (at < length bytes.now) }
{
    match bytes.get(at) {
        Some(b) => *b == b'.',
        None => false,
    }
}

/// The digits behind the point, where one stands behind so many digits.
fn decimals_behind(bytes: &[u8], whole: usize) -> &[u8]
    requires digits { whole ≡ digits_len bytes.now }
    ensures value { result.now ≡ decimal_digits bytes.now }
    ensures digits { AllDigits 10 result.now }
{
    if is_point(bytes, whole) {
        digits_at_front(&bytes[whole + 1..])
    } else {
        &[]
    }
}

/// The digits with their point that the bytes begin with.
#[tactic(auto, unfolding(crate::specs::Literal::mantissa_len))]
pub(crate) fn mantissa_at(bytes: &[u8]) -> Mantissa<'_>
    ensures whole { result.whole.now ≡ whole_digits bytes.now }
    ensures decimals { result.decimals.now ≡ decimal_digits bytes.now }
    ensures whole_digits { AllDigits 10 result.whole.now }
    ensures decimal_digits { AllDigits 10 result.decimals.now }
    ensures len { result.len ≡ mantissa_len bytes.now }
    ensures within { result.len ≤ length bytes.now }
{
    let whole = digits_at_front(bytes);
    let decimals = decimals_behind(bytes, whole.len());
    let digits = whole.len() + decimals.len();
    let len = if digits > 0 && is_point(bytes, whole.len()) {
        digits + 1
    } else {
        digits
    };
    Mantissa {
        whole,
        decimals,
        len,
    }
}
