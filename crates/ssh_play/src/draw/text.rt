//! Texts of a picture: cut to their places, escaped, and written.

ghost use Rattle.std.specs.Prelude.{◌≡◌, ◌≤◌, ◌+◌, ◌++◌, ℕ, List, OnOk, length, string_bytes};
ghost use Rattle.ssh_play.specs.Texts.{IsCut, Writes, WritesLabel, anchor_of, class_of, escaped, escaped_char, is_hidden, refusal_of};
ghost use Rattle.ssh_play.specs.Texts.{word_of, x_of};

use crate::draw::Result;
use crate::draw::layout::Layout;
use crate::draw::places::{CELL, Column, Place};
use ssh_types::Side;

/// A text of a row. Rows are counted from the top, from 0.
#[derive(Drop)]
pub(crate) struct Label {
    pub row: usize,
    pub column: Column,
    /// Whether it has to be seen.
    pub is_hot: bool,
    pub text: String,
}

/// Writes the text of a row, if that is drawn.
pub(crate) fn write_label(out: &mut String, layout: &Layout, label: &Label) -> Result<()>
    ensures { OnOk result (WritesLabel layout.now label.now (string_bytes out.old) (string_bytes out.new)) }
{
    let Some(line) = layout.line_of(label.row) else {
        return Ok(());
    };
    let class = class_of(label.is_hot);
    write_at(out, layout, line, label.column, class, label.text.as_str())?;
    Ok(())
}

fn class_of(is_hot: bool) -> &'static str
    ensures { result.now ≡ class_of is_hot }
{
    if is_hot { "r" } else { "p" }
}

/// Writes a text as an element at its place, 14 pixels below its top, escaped, and cut where it is too wide: a character is reckoned as
/// wide as it has bytes. `class` names how it looks, and is written as it is. Where the picture has no such place nothing is written.
pub(crate) fn write_at(
    out: &mut String,
    layout: &Layout,
    line: u32,
    column: Column,
    class: &str,
    text: &str,
) -> Result<()>
    ensures { OnOk result (Writes layout.now line column class.now text.now (string_bytes out.old) (string_bytes out.new)) }
{
    let Some(place) = layout.place(line, column) else {
        return Ok(());
    };
    let (shown, mark) = cut(text, (place.width / CELL) as usize);
    let (x, word) = anchor_of(column, &place);
    let y = place.top + 140;
    write!(
        out,
        "<text x='{x}' y='{y}' text-anchor='{word}' class='{class}'>"
    )?;
    push_escaped(out, shown)?;
    writeln!(out, "{mark}</text>")?;
    Ok(())
}

// A text of at most so many bytes: this one and nothing, or what fits of it and an ellipsis.
fn cut(text: &str, most: usize) -> (&str, &str)
    ensures { IsCut most text.now result.0.now result.1.now }
{
    if text.len() <= most {
        return (text, "");
    }
    match most.checked_sub(ELLIPSIS.len()) {
        Some(room) => (front_of(text, room), ELLIPSIS),
        None => ("", ""),
    }
}

const ELLIPSIS: &str = "…";

// The longest front of a text of at most so many bytes: a character has four at most.
fn front_of(text: &str, most: usize) -> &str
    ensures short { length result.now ≤ most }
    ensures front { (rest : List ℕ) × (text.now ≡ result.now ++ rest) }
{
    for less in 0..4 {
        if let Some(front) = text.get(..most.saturating_sub(less)) {
            return front;
        }
    }
    ""
}

// At which end of its place a text stands, and how far from the left that is: a client's at the right.
fn anchor_of(column: Column, place: &Place) -> (u32, &'static str)
    requires { place.now.left + place.now.width ≤ 8600 }
    ensures x { result.0 ≡ x_of column place.now }
    ensures word { result.1.now ≡ anchor_of column }
{
    let right = place.left + place.width;
    match column {
        Column::Outer(Side::Client) | Column::Inner(Side::Client) => (right, "end"),
        Column::Outer(Side::Server) | Column::Inner(Side::Server) => (place.left, "start"),
        Column::Whole => (place.left, "start"),
    }
}

/// Writes a text so that it stands in an SVG as it is. In place of each character that does not show, or changes the direction of those
/// after it, stands U+FFFD.
pub(crate) fn push_escaped(out: &mut String, text: &str) -> Result<()>
    ensures { OnOk result (string_bytes out.new ≡ string_bytes out.old ++ escaped text.now) }
{
    for letter in text.chars() {
        push_letter(out, letter)?;
    }
    Ok(())
}

fn push_letter(out: &mut String, letter: char) -> Result<()>
    ensures { OnOk result (string_bytes out.new ≡ string_bytes out.old ++ escaped_char letter) }
{
    match letter {
        '&' => out.push_str("&amp;"),
        '<' => out.push_str("&lt;"),
        '>' => out.push_str("&gt;"),
        letter if is_hidden(letter) => out.push('\u{fffd}'),
        letter => out.push(letter),
    }
}

// Controls, marks of direction, and what XML does not take.
fn is_hidden(letter: char) -> bool
    ensures { result ≡ is_hidden letter }
{
    matches!(letter, '\0'..='\u{1f}' | '\u{7f}'..='\u{9f}' | '\u{61c}' | '\u{200e}'..='\u{200f}' | '\u{2028}'..='\u{202e}'
        | '\u{2066}'..='\u{2069}' | '\u{fffe}'..='\u{ffff}')
}

/// Writes that an end refused something with this.
pub(crate) fn push_refusal(out: &mut String, side: Side, name: &str, refusal: &str) -> Result<()>
    ensures { OnOk result (string_bytes out.new ≡ string_bytes out.old ++ refusal_of side name.now refusal.now) }
{
    let word = word_of(side);
    write!(out, "The {word} refused {name} with refusal {refusal}. ")?;
    Ok(())
}

/// A side in words.
pub(crate) fn word_of(side: Side) -> &'static str
    ensures { result.now ≡ word_of side }
{
    match side {
        Side::Client => "client",
        Side::Server => "server",
    }
}
