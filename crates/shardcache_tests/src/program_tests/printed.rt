//! What a run printed, written down and read.
use std::alloc::{AllocError, Global};
use std::test::Fail;

/// Appends what is printed of so many commands that all have one answer, from the number `first` on.
pub fn answers(
    alloc: Global,
    text: &mut Vec<u8>,
    first: u32,
    last: u32,
    answer: &str,
) -> Result<(), AllocError> {
    for number in first..=last {
        text.extend_from_slice(format!(in alloc; "{number} {answer}\n")?.as_bytes())?;
    }
    Ok(())
}

/// The numbers among the words of a line.
pub fn numbers(alloc: Global, line: &str) -> Result<Vec<u32>, AllocError> {
    let mut found = Vec::new(alloc);
    for word in line.split(' ') {
        if let Ok(number) = word.parse::<u32>() {
            found.push(number)?;
        }
    }
    Ok(found)
}

/// The lines of a text, each of which ends with LF.
pub fn lines_of(alloc: Global, text: &[u8]) -> Result<Vec<&str>, Fail> {
    let text = std::str::from_utf8(text).ok().ok_or("no text")?;
    let mut lines = Vec::new(alloc);
    for line in text.strip_suffix('\n').ok_or("no end")?.split('\n') {
        lines.push(line)?;
    }
    Ok(lines)
}
