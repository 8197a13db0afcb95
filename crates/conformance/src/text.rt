// The text of a vector file: lines of words and hexadecimal numbers. It need not be UTF-8.
use std::alloc::{AllocError, Global};

// The value of a digit.
fn digit(b: u8) -> Option<u8> {
    match b {
        b'0'..=b'9' => Some(b - b'0'),
        b'a'..=b'f' => Some(b - b'a' + 10),
        _ => None,
    }
}

// The number that digits write, modulo 2^64.
fn number(digits: &[u8]) -> u64 {
    digits
        .iter()
        .filter_map(|b| digit(*b))
        .fold(0, |value, d| value << 4 | u64::from(d))
}

// The numbers of a text: all else stands between them.
pub(crate) fn numbers(alloc: Global, text: &[u8]) -> Result<Vec<u64>, AllocError> {
    text.split(|b| digit(*b).is_none())
        .filter(|digits| !digits.is_empty())
        .map(number)
        .collect(alloc)
}

// A text up to a byte, and from there on; the whole text where the byte is not in it.
pub(crate) fn split_before(text: &[u8], byte: u8) -> (&[u8], &[u8]) {
    let end = text.iter().position(|b| *b == byte);
    text.split_at(end.unwrap_or(text.len()))
}

// The number at a place of a list; a missing one is 0.
pub(crate) fn number_at(numbers: &[u64], k: usize) -> u64 {
    numbers.get(k).copied().unwrap_or(0)
}

// A number modulo 2^32.
pub(crate) fn low_32(n: u64) -> u32 {
    (n & 0xffff_ffff) as u32
}

pub(crate) fn low_16(n: u64) -> u16 {
    (n & 0xffff) as u16
}

// The number at a place of a list, as a word.
pub(crate) fn word_at(numbers: &[u64], k: usize) -> u32 {
    low_32(number_at(numbers, k))
}

// The first numbers of a list, `most` at most, each converted.
pub(crate) fn first_numbers<T: Drop, F: Fn(u64) -> T>(
    alloc: Global,
    numbers: &[u64],
    most: usize,
    convert: F,
) -> Result<Vec<T>, AllocError>
    requires { F.IsAlwaysCallable convert }
{
    numbers
        .iter()
        .take(most)
        .map(|n| convert(*n))
        .collect(alloc)
}
