use std::alloc::{AllocError, Global};

/// The bytes as text, or nothing where they are none.
pub fn text_of(bytes: &[u8]) -> &str {
    std::str::from_utf8(bytes).unwrap_or("")
}

/// The number that a word says, or 0.
pub fn number_of(word: &str) -> u32 {
    word.parse::<u32>().unwrap_or(0)
}

/// The number that a word says, or 65535.
pub fn small_number_of(word: &str) -> u16 {
    word.parse::<u16>().unwrap_or(u16::MAX)
}

/// The byte that a word says, or 255.
pub fn byte_of(word: &str) -> u8 {
    word.parse::<u8>().unwrap_or(255)
}

/// The numbers that the words of a text say.
pub fn numbers_of(alloc: Global, text: &str) -> Result<Vec<u32>, AllocError> {
    let mut numbers = Vec::new(alloc);
    for word in text.split_whitespace() {
        numbers.push(number_of(word))?;
    }
    Ok(numbers)
}

/// The numbers that the words of a text say, 65535 for each that says none.
pub fn small_numbers_of(alloc: Global, text: &str) -> Result<Vec<u16>, AllocError> {
    let mut numbers = Vec::new(alloc);
    for word in text.split_whitespace() {
        numbers.push(small_number_of(word))?;
    }
    Ok(numbers)
}

/// Appends a number, with a text before it.
pub fn put_number(
    out: &mut String,
    alloc: Global,
    front: &str,
    number: u16,
) -> Result<(), AllocError> {
    let text = format!(in alloc; "{front}{number}")?;
    out.push_str(&text)
}

/// Appends a piece, with a sign before it unless it is the first.
pub fn put(out: &mut String, between: char, piece: &str) -> Result<(), AllocError> {
    if !out.is_empty() {
        out.push(between)?;
    }
    out.push_str(piece)
}

/// Appends a word, with a space before it unless it begins a line.
pub fn put_word(out: &mut String, word: &str) -> Result<(), AllocError> {
    if !out.is_empty() && !out.ends_with('\n') {
        out.push(' ')?;
    }
    out.push_str(word)
}

/// Appends a line, with a line feed before it unless it is the first.
pub fn put_line(out: &mut String, line: &str) -> Result<(), AllocError> {
    put(out, '\n', line)
}
