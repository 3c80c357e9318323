//! Texts that are too long to be written down, by their pieces.

use khe_base::{NoMemory, Text};
use std::alloc::Global;

/// A piece of a text that is too long to be written down.
#[derive(Clone, Copy)]
pub enum Piece {
    /// This text.
    Once(&'static str),
    /// This many copies of this text.
    Copies(u32, &'static str),
    /// This many copies of two texts, with the copy's number between them. The numbers start at 0.
    Numbered(u32, &'static str, &'static str),
}

/// Adds pieces at the end of a text.
pub fn push_all(text: &mut Text, pieces: &[Piece]) -> Result<(), NoMemory> {
    for piece in pieces {
        push(text, *piece)?;
    }
    Ok(())
}

/// The text of these pieces.
pub fn text_of(alloc: Global, pieces: &[Piece]) -> Result<Text, NoMemory> {
    let mut text = Text::new(alloc);
    let pushed = push_all(&mut text, pieces);
    pushed.and(Ok(text))
}

fn push(text: &mut Text, piece: Piece) -> Result<(), NoMemory> {
    match piece {
        Piece::Once(part) => text.push_str(part),
        Piece::Copies(count, part) => push_copies(text, count, part),
        Piece::Numbered(count, before, after) => push_numbered(text, count, before, after),
    }
}

fn push_copies(text: &mut Text, count: u32, part: &str) -> Result<(), NoMemory> {
    for _ in 0..count {
        text.push_str(part)?;
    }
    Ok(())
}

fn push_numbered(text: &mut Text, count: u32, before: &str, after: &str) -> Result<(), NoMemory> {
    for number in 0..count {
        text.push_str(before)?;
        text.push_number(u128::from(number))?;
        text.push_str(after)?;
    }
    Ok(())
}
