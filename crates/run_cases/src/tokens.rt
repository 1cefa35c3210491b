//! The tokens of a line: words between blanks, and texts in quotes.
use crate::halt::{Halt, unread};
use std::alloc::Global;

/// A word, or what stands in quotes.
#[derive(Clone, Copy)]
pub(crate) struct Token<'a> {
    pub quoted: bool,
    pub text: &'a str,
}

// Puts what stands between two quotes behind the tokens: one text, or words.
fn add_tokens<'a>(tokens: &mut Vec<Token<'a>>, quoted: bool, part: &'a str) -> Result<(), Halt> {
    if quoted {
        tokens.push(Token { quoted, text: part })?;
        return Ok(());
    }
    for text in part.split_whitespace() {
        tokens.push(Token { quoted, text })?;
    }
    Ok(())
}

/// The tokens of a line.
pub(crate) fn tokens_of<'a>(alloc: Global, line: &'a str) -> Result<Vec<Token<'a>>, Halt> {
    let mut tokens = Vec::new(alloc);
    let mut quoted = false;
    for part in line.split('"') {
        add_tokens(&mut tokens, quoted, part)?;
        quoted = !quoted;
    }
    Ok(tokens)
}

/// A word before and behind its first colon.
pub(crate) fn parts_of(word: &str) -> (&str, &str) {
    match word.split_once(':') {
        Some(parts) => parts,
        None => (word, ""),
    }
}

/// The number that the digits are.
pub(crate) fn number_of(digits: &str) -> Result<u64, Halt> {
    match digits.parse::<u64>() {
        Ok(number) => Ok(number),
        Err(_) => unread("no number stands where one belongs"),
    }
}
