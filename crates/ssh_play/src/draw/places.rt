//! The place of each text of a picture. All lengths are tenths of a pixel.

ghost use Rattle.std.specs.Prelude.{◌≡◌, ℕ, ◌≤◌, ◌<◌, ◌+◌, ◌-◌, ◌*◌, ◌↔◌, IfSome, IsSome, IsTrue, min};
ghost use Rattle.ssh_model.specs.declared.side.Side.TheVariants.{Client, Server};
ghost use Rattle.ssh_play.specs.Cells.{cells_of};
ghost use Rattle.ssh_play.specs.Places.{EndsAbove, EndsBefore, IsDrawn, IsInside, Stands, edge_of, height_of, is_before, left_of, line_at};
ghost use Rattle.ssh_play.specs.Places.{place_of, right_of, width_of};
ghost use Rattle.ssh_play.specs.declared.draw.places.Column.{Column};
ghost use Rattle.ssh_play.specs.declared.draw.places.Column.TheVariants.{Inner, Outer};

use crate::draw::layout::{Columns, Layout};
use ssh_types::Side;

/// The width of each picture.
pub(crate) const WIDTH: u32 = 8600;

// What is free at the left and at the right, and above and below.
const PADDING: u32 = 160;

const MARGIN: u32 = 100;

/// The width that one character is given, in the font of 12 pixels.
pub(crate) const CELL: u32 = 73;

/// The height of a line of text.
pub(crate) const LINE: u32 = 200;

// Between a lifeline and a text, and between a text and the network.
const GAP: u32 = 90;

pub(crate) const STUB: u32 = 120;

// Above the rows stand the name, the headings, and how many rows are left out. Below are an empty line, who refused what, and what a label
// is.
pub(crate) const HEAD: u32 = 3;

const FOOT: u32 = 3;

/// If there are more rows, the last ones are drawn, this many.
pub(crate) const MOST_ROWS: usize = 60;

// The columns of both sides have at most so many characters together, which leaves 52 pixels for the network.
const MOST_CELLS: u32 = 98;

// An inner column has at most so many where not all have room.
const MOST_INNER: u32 = 32;

/// A part of a line, or all of it.
#[derive(Clone, Copy, PartialEq, Eq)]
pub enum Column {
    /// The whole line, above and below the rows.
    Whole,
    /// Outside of a side's lifeline: what is asked and told, and refusals.
    Outer(Side),
    /// Between it and the network: what is sent, and what became of it on its way.
    Inner(Side),
}

/// Where a text stands: in a line of 20 pixels.
#[derive(Clone, Copy)]
pub struct Place {
    pub left: u32,
    pub top: u32,
    pub width: u32,
}

impl Layout {
    /// A layout for so many rows, and columns of these widths. Of more than 60 rows the last 60 are drawn. All columns together have at most
    /// 98 characters. Where more are wanted, an inner column has at most 32, and the outer ones share the rest: each has what it wants, or
    /// at least half.
    pub fn new(count: usize, client: Columns, server: Columns) -> Layout
        ensures rows { result.rows ≡ min count 60 }
        ensures left_out { result.left_out ≡ count - 60 }
        ensures fits { cells_of client server ≤ 98 → (result.client ≡ client) × (result.server ≡ server) }
        ensures inner_client { client.inner ≤ 32 → result.client.inner ≡ client.inner }
        ensures inner_server { server.inner ≤ 32 → result.server.inner ≡ server.inner }
        ensures outer_client { min client.outer 17 ≤ result.client.outer }
        ensures outer_server { min server.outer 17 ≤ result.server.outer }
    {
        let (client, server) = fitted(client, server);
        Layout {
            rows: count.min(MOST_ROWS) as u32,
            left_out: count.saturating_sub(MOST_ROWS),
            client,
            server,
        }
    }

    /// The height of the picture: at most 1,400 pixels.
    pub fn height(&self) -> u32
        ensures height { result ≡ height_of self.now }
        ensures bounded { result ≤ 14000 }
    {
        2 * MARGIN + LINE * (HEAD + self.rows + FOOT)
    }

    /// The line in which a row of the run is drawn. None if the row is left out, or the run has no such row.
    pub fn line_of(&self, row: usize) -> Option<u32>
        ensures drawn { IsSome result ↔ IsDrawn self.now row }
        ensures line { IfSome result (λ line. line ≡ line_at self.now row) }
    {
        let Some(below) = row.checked_sub(self.left_out) else {
            return None;
        };
        if below < self.rows as usize {
            Some(HEAD + below as u32)
        } else {
            None
        }
    }

    /// How far from the top the line of a row begins: that of the rows left out where it is one of them, and below all rows where the run
    /// has none such.
    pub fn top_of(&self, row: usize) -> u32
        ensures drawn { IsDrawn self.now row → result ≡ 100 + 200 * line_at self.now row }
        ensures within { (500 ≤ result) × (result ≤ 12700) }
    {
        if row < self.left_out {
            return MARGIN + LINE * (HEAD - 1);
        }
        let below = (row - self.left_out).min(self.rows as usize) as u32;
        MARGIN + LINE * (HEAD + below)
    }

    /// Where a text of this line and column stands. Lines are counted from the top, from 0. None where the picture has no such line, or the
    /// line no such column.
    pub fn place(&self, line: u32, column: Column) -> Option<Place>
        // What goes on holding.
        ensures stands { IsSome result ↔ Stands self.now line column }
        // What it returns.
        ensures place { IfSome result (λ place. place ≡ place_of self.now line column) }
        ensures inside { IfSome result (λ place. IsInside (height_of self.now) place) }
        ensures lines { IfSome result (λ place. (above : ℕ) → (other : Column) → above < line
            → EndsAbove (place_of self.now above other) place) }
        ensures columns { IfSome result (λ place. (other : Column) → IsTrue (is_before other column)
            → EndsBefore (place_of self.now line other) place) }
    {
        if !self.has(line, column) {
            return None;
        }
        let (left, width) = self.across(column);
        let top = MARGIN + LINE * line;
        Some(Place { left, top, width })
    }

    /// How far from the left the lifeline of a side stands: between its two columns.
    pub fn life(&self, side: Side) -> u32
        ensures client { side ≡ Client → (right_of self.now (Outer Client) ≤ result) × (result ≤ left_of self.now (Inner Client)) }
        ensures server { side ≡ Server → (right_of self.now (Inner Server) ≤ result) × (result ≤ left_of self.now (Outer Server)) }
        ensures inside { result ≤ 8600 }
    {
        match side {
            Side::Client => self.across(Column::Inner(side)).0 - GAP,
            Side::Server => self.across(Column::Outer(side)).0 - GAP,
        }
    }

    /// How far from the left the edge of the network is on the side of an end: no text of a side reaches into the network, which is 52
    /// pixels wide at least.
    pub fn edge(&self, side: Side) -> u32
        ensures client { side ≡ Client → (right_of self.now (Inner Client) ≤ result) × (result ≡ edge_of self.now Client) }
        ensures server { side ≡ Server → (result ≤ left_of self.now (Inner Server)) × (result ≡ edge_of self.now Server) }
        ensures network { edge_of self.now Client + 526 ≤ edge_of self.now Server }
    {
        let free = PADDING + 2 * GAP + STUB;
        match side {
            Side::Client => free + CELL * (self.client.outer + self.client.inner),
            Side::Server => WIDTH - free - CELL * (self.server.outer + self.server.inner),
        }
    }

    // Tests whether the picture has such a line, and the line such a column.
    fn has(&self, line: u32, column: Column) -> bool
        ensures { IsTrue result ↔ Stands self.now line column }
    {
        let is_row = 1 <= line && line < HEAD + self.rows;
        let is_whole = column == Column::Whole;
        line < HEAD + self.rows + FOOT && is_row != is_whole
    }

    // Where a column begins, and how wide it is.
    fn across(&self, column: Column) -> (u32, u32)
        ensures left { result.0 ≡ left_of self.now column }
        ensures width { result.1 ≡ width_of self.now column }
    {
        let (outer, inner) = match column {
            Column::Inner(Side::Server) | Column::Outer(Side::Server) => {
                (CELL * self.server.outer, CELL * self.server.inner)
            }
            _ => (CELL * self.client.outer, CELL * self.client.inner),
        };
        let near = PADDING + outer + 2 * GAP;
        match column {
            Column::Whole => (PADDING, WIDTH - 2 * PADDING),
            Column::Outer(Side::Client) => (PADDING, outer),
            Column::Inner(Side::Client) => (near, inner),
            Column::Inner(Side::Server) => (WIDTH - near - inner, inner),
            Column::Outer(Side::Server) => (WIDTH - PADDING - outer, outer),
        }
    }
}

// Columns of these widths, or of those that have room.
fn fitted(client: Columns, server: Columns) -> (Columns, Columns)
    ensures room { cells_of result.0 result.1 ≤ 98 }
    ensures fits { cells_of client server ≤ 98 → (result.0 ≡ client) × (result.1 ≡ server) }
    ensures inner_client { client.inner ≤ 32 → result.0.inner ≡ client.inner }
    ensures inner_server { server.inner ≤ 32 → result.1.inner ≡ server.inner }
    ensures outer_client { min client.outer 17 ≤ result.0.outer }
    ensures outer_server { min server.outer 17 ≤ result.1.outer }
{
    let wanted = client.outer as u64
        + client.inner as u64
        + server.outer as u64
        + server.inner as u64;
    if wanted <= MOST_CELLS as u64 {
        return (client, server);
    }
    let (near, far) = (client.inner.min(MOST_INNER), server.inner.min(MOST_INNER));
    let rest = MOST_CELLS - near - far;
    let share = rest.saturating_sub(server.outer).max(rest / 2);
    let outer = client.outer.min(share);
    let client = Columns { outer, inner: near };
    let server = Columns {
        outer: server.outer.min(rest - outer),
        inner: far,
    };
    (client, server)
}
