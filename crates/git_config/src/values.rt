//! The values of variables, as git reads them.

/// Returns the boolean that git reads. A value that isn't there is true, and an empty one false. Numbers are true,
/// except for 0. None if git refuses the value.
pub fn bool_of(value: Option<&[u8]>) -> Option<bool> {
    let Some(text) = value else {
        return Some(true);
    };
    if text.is_empty() || is_word(text, [b"false", b"no", b"off"]) {
        return Some(false);
    }
    if is_word(text, [b"true", b"yes", b"on"]) {
        return Some(true);
    }
    Some(number_of(text)? != 0)
}

fn is_word(text: &[u8], words: [&[u8]; 3]) -> bool {
    words.iter().any(|word| text.eq_ignore_ascii_case(word))
}

/// Returns the number that git reads: after blanks decimal, octal after a `0` or hexadecimal after `0x` or `0X`, with a sign if
/// any, and `k`, `m` or `g` for a factor of 1024 to the power of 1, 2 or 3. None if it isn't a number, or doesn't fit.
pub fn number_of(text: &[u8]) -> Option<i32> {
    let text = str::from_utf8(text).ok()?.trim_start_matches(is_space);
    let (is_negative, digits) = match text.strip_prefix('-') {
        Some(digits) => (true, digits),
        None => (false, text.strip_prefix('+').unwrap_or(text)),
    };
    let (digits, factor) = split_unit(digits);
    let size = i32::try_from(unsigned_of(digits)?.checked_mul(factor)?).ok()?;
    if is_negative {
        size.checked_neg()
    } else {
        Some(size)
    }
}

// Returns whether C passes over a character before a number.
fn is_space(found: char) -> bool {
    matches!(found, ' ' | '\t'..='\r')
}

// Returns the text without its unit, and the unit's factor.
fn split_unit(text: &str) -> (&str, u64) {
    for (unit, factor) in [('k', 1 << 10), ('m', 1 << 20), ('g', 1 << 30)] {
        if let Some(digits) = text.strip_suffix(unit) {
            return (digits, factor);
        }
        if let Some(digits) = text.strip_suffix(unit.to_ascii_uppercase()) {
            return (digits, factor);
        }
    }
    (text, 1)
}

fn unsigned_of(digits: &str) -> Option<u64> {
    let (digits, radix) = match digits.strip_prefix("0x").or(digits.strip_prefix("0X")) {
        Some(digits) => (digits, 16),
        None if digits.starts_with('0') => (digits, 8),
        None => (digits, 10),
    };
    if digits.starts_with('+') {
        return None;
    }
    u64::from_str_radix(digits, radix).ok()
}

/// Returns whether a value is a word, in lower or upper case.
pub fn is_text(value: Option<&[u8]>, word: &[u8]) -> bool {
    match value {
        Some(value) => value.eq_ignore_ascii_case(word),
        None => false,
    }
}
