// Bytes as hexadecimal text.
use crate::failure::Fault;
use std::alloc::{AllocError, Global};

// How many bytes of a block stand in a line.
const BYTES_A_LINE: usize = 16;

// The byte that two digits write.
fn pair_value(pair: &[u8]) -> Option<u8> {
    let [high, low] = pair else {
        return None;
    };
    let high = char::from(*high).to_digit(16)?;
    let low = char::from(*low).to_digit(16)?;
    Some((16 * high + low) as u8)
}

// Adds the bytes that a word of pairs writes.
fn parse_word(alloc: Global, word: &str, bytes: &mut Vec<u8>) -> Result<(), Fault> {
    for pair in word.as_bytes().chunks(2) {
        match pair_value(pair) {
            Some(byte) => bytes.push(byte).map_err(AllocError::from)?,
            None if pair.len() < 2 => return Err(Fault::OddDigits(String::from_str(alloc, word)?)),
            None => return Err(Fault::NotHexadecimal(String::from_str(alloc, word)?)),
        }
    }
    Ok(())
}

// The bytes that pairs of digits write; there may be blanks between the pairs.
pub fn parse_pairs(alloc: Global, text: &str) -> Result<Vec<u8>, Fault> {
    let mut bytes = Vec::new(alloc);
    for word in text.split_whitespace() {
        parse_word(alloc, word, &mut bytes)?;
    }
    Ok(bytes)
}

// The text of a block, line by line, with blanks between the pairs.
pub fn block_text(alloc: Global, block: &[u8]) -> Result<String, AllocError> {
    let mut text = String::new(alloc);
    for line in block.chunks(BYTES_A_LINE) {
        for (n, byte) in line.iter().enumerate() {
            let blank = if n == 0 { "" } else { " " };
            write!(text, "{blank}{byte:02X}")?;
        }
        text.push('\n')?;
    }
    Ok(text)
}
