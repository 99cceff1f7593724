// Words written as text, as document 01 prints them.

use arrayvec::ArrayVec;

// A list or a table of at most 124 words.
pub type Words = ArrayVec<i32, 124>;

// The numbers of a text, whatever stands between them.
pub fn numbers(text: &str) -> Words {
    let mut words = Words::new();
    for number in text.split(|c: char| !c.is_ascii_digit()) {
        if let Ok(word) = number.parse() {
            if !words.is_full() {
                words.push(word);
            }
        }
    }
    words
}

// Example A.
pub fn example_a() -> Words {
    numbers(
        "1 0 0 0, 2 0 0 0, 19 0 1 0, 1 0 0 0, 2 0 0 0, 18 3 4 0, 1 0 0 0, 2 0 0 0, 19 6 7 0, 2 0 0 0, 37 8 9 0, 2 0 0 0, 1 1 0 0,
        4 11 12 0, 33 0 13 0, 36 5 10 14, 2 0 0 0, 1 0 0 0, 20 16 17 0, 48 2 15 18.",
    )
}
