//! Tests that are lines of files: a line that a layer is told, and then, after `> `, the results that it has to give.
//!
//! A line is told as it stands, but that
//!
//! - `3x ` before it tells it three times, of which the last one counts;
//! - `*5` in it is five bytes of zeros in hexadecimal digits, `@5` five letters, and `#` the number of times that the line was told before,
//! in the eight digits of a uint32;
//! - the lines from `block NAME` to `end` are told at each `do NAME`, and not at their own place. `do NAME, NAME` tells those
//! of two blocks, and `3x ` before it tells them three times, of which each counts;
//! - empty lines, and those that begin with `#`, are for readers.
//!
//! The results of a line need not be compared, unless they are the reason why the line could not be told.
//!
//! ```rust
//! let channels = ChannelLines::new(rt.alloc())?;
//! let is_right = compared(rt, "channels.txt", channels)?;
//! ```

mod problem;
mod run;
mod texts;
mod words;

pub use problem::Problem;
pub use run::{Layer, compared};
pub use texts::{digits_of, shown, text_of};
pub use words::{bytes_of, parsed};
