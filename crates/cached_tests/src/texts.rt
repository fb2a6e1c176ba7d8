//! Texts of lines that are the same but for a number.
use std::alloc::{AllocError, Global};
use std::fmt::Write;

/// A text for each number from one to another, in which each `#` stands for the number.
pub type Lines<'a> = (&'a str, u32, u32);

/// Adds a character, or the number in place of a `#`.
fn add(text: &mut String, character: char, number: u32) -> Result<(), AllocError> {
    if character == '#' {
        write!(text, "{number}")
    } else {
        text.push(character)
    }
}

/// Adds a text for a number.
fn add_text(text: &mut String, added: &str, number: u32) -> Result<(), AllocError> {
    for character in added.chars() {
        add(text, character, number)?;
    }
    Ok(())
}

/// Adds a text for each number.
fn add_lines(text: &mut String, lines: Lines<'_>) -> Result<(), AllocError> {
    for number in lines.1..=lines.2 {
        add_text(text, lines.0, number)?;
    }
    Ok(())
}

/// Adds the texts of all lines.
fn add_all(text: &mut String, all: &[Lines<'_>]) -> Result<(), AllocError> {
    for lines in all {
        add_lines(text, *lines)?;
    }
    Ok(())
}

/// The text of all lines.
pub fn text_of(alloc: Global, all: &[Lines<'_>]) -> Option<String> {
    let mut text = String::new(alloc);
    match add_all(&mut text, all) {
        Ok(()) => Some(text),
        Err(_) => None,
    }
}

/// The lines that are sent, that are read, and that are told.
pub type Talk<'a> = (&'a [Lines<'a>], &'a [Lines<'a>], &'a [Lines<'a>]);

/// Their texts.
#[derive(Drop)]
pub struct Texts {
    pub sent: String,
    pub read: String,
    pub told: String,
}

/// Adds the texts of a talk.
fn add_talk(texts: &mut Texts, (sent, read, told): Talk<'_>) -> Result<(), AllocError> {
    add_all(&mut texts.sent, sent)?;
    add_all(&mut texts.read, read)?;
    add_all(&mut texts.told, told)
}

/// The texts of a talk.
pub fn texts_of(alloc: Global, talk: Talk<'_>) -> Option<Texts> {
    let mut texts = Texts {
        sent: String::new(alloc),
        read: String::new(alloc),
        told: String::new(alloc),
    };
    match add_talk(&mut texts, talk) {
        Ok(()) => Some(texts),
        Err(_) => None,
    }
}

/// Adds the texts of namespaces, the first by the first number, and all others by the second.
fn add_by(text: &mut String, texts: &[&str], numbers: (u32, u32)) -> Result<(), AllocError> {
    for (place, added) in texts.iter().enumerate() {
        let number = if place == 0 { numbers.0 } else { numbers.1 };
        add_text(text, added, number)?;
    }
    Ok(())
}

/// The texts of namespaces by these numbers, and a text behind them.
pub fn text_by(alloc: Global, texts: &[&str], numbers: (u32, u32), last: &str) -> Option<String> {
    let mut text = String::new(alloc);
    match add_by(&mut text, texts, numbers) {
        Ok(()) if text.push_str(last).is_ok() => Some(text),
        _ => None,
    }
}
