//! Draws a run of two ends as a picture, an SVG: two lifelines and the network between them. Rows go down as the run goes on. Messages are
//! arrows, by number, name and length, and what came is compared with what was sent, byte by byte.
//!
//! # What it promises
//!
//! - `Layout::place` says where a text of a picture stands (`Places.antt`). It stands inside of the picture, below all lines above it,
//!   and to the right of all columns of its line that are left of it. So no two texts overlap. `Layout::place` is None exactly if the
//!   picture has no such line, or the line no such column.
//! - `Layout::height` is at most 1,400 pixels. `Layout::life` and `Layout::edge`: no text of a row reaches over a lifeline, or into the
//!   network, where all slopes of arrows are.
//! - `Layout::new`, `Layout::line_of` and `Layout::top_of`: of more rows than 60 the first ones are left out. Each other row has a line
//!   of its own, in their order, in which its arrows begin and end too. Columns have the widths that are wanted where all have room.
//! - `write_label` writes the text of a row in the line of that row and in its column, and nothing where the row is not drawn
//!   (`WritesLabel` of `Texts.antt`). The text is a message by number, name and length, what is asked and told, a refusal, or what was
//!   done on the way. `Drawing::put` keeps just that text for that row (`Puts`).
//! - `write_at` writes a text, escaped, as one element with the coordinates of its place: all of the text, or a front of it and an
//!   ellipsis. It writes nothing where the picture has no such place (`Writes`, `Shows`, `IsCut`, `element_of`).
//! - `push_escaped` puts for each character what stands for it (`escaped_char`). That is an entity for `&`, `<` and `>`, and U+FFFD for a
//!   character that does not show or changes the direction. All others stand for themselves.
//! - `push_refusal`: which side refused which message, and with what (`refusal_of`).
//!
//! - Bytes that came have no word, or they are changed, repeated, out of order or injected: by where they come from, and by whether they are
//!   those that were sent (`word_for` of `Arrivals.antt`). An arrow begins in the row in which its unit was sent (`arrow_from`).
//!
//! Which rows a run has, which of them repeat, and the lines of a picture, have no clause: what `Drawing` makes of a run is tested by
//! stored pictures, by `tools/pictures.py` and by cases. No clause says either that the front of a text that is cut is the longest.
use std::alloc::AllocError;

mod arrivals;
mod drawing;
mod end;
mod layout;
mod places;
mod reading;
mod repeats;
mod sheet;
mod text;

pub use drawing::Drawing;
pub use end::Origin;
pub use layout::{Columns, Layout};
pub use places::{Column, Place};

/// What a call gives. Its only error is that memory is refused.
pub type Result<T> = std::result::Result<T, AllocError>;
