// Numbers of 64 bits in decimal text; all other bytes stand between them, and a minus sign before a digit belongs to it.

use arrayvec::ArrayVec;

// The value with its sign; 0 where it is no number of 64 bits.
fn signed(value: u64, is_negative: bool) -> i64 {
    let number = if is_negative {
        0i64.checked_sub_unsigned(value)
    } else {
        0i64.checked_add_unsigned(value)
    };
    number.unwrap_or(0)
}

// One digit more; a number has 19 digits at most, and those after them are passed over.
fn with_digit(value: u64, byte: u8) -> u64 {
    if value < 1000000000000000000 && byte.is_ascii_digit() {
        10 * value + u64::from(byte - b'0')
    } else {
        value
    }
}

// The numbers of the text, each of which another byte ends: as many as there is room for.
pub fn read<const N: usize>(text: &[u8]) -> ArrayVec<i64, N> {
    let mut found = ArrayVec::new();
    let mut value: Option<u64> = None;
    let mut is_negative = false;
    for byte in text {
        if byte.is_ascii_digit() {
            value = Some(with_digit(value.unwrap_or(0), *byte));
        } else {
            if let Some(value) = value {
                let _ = found.try_push(signed(value, is_negative));
            }
            value = None;
            is_negative = *byte == b'-';
        }
    }
    found
}
