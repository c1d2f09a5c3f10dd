//! How many rows a picture has, and how wide its columns are.

ghost use Rattle.std.specs.Prelude.{◌≤◌};
ghost use Rattle.ssh_play.specs.Cells.{cells_of};

/// The widths of the two columns of a side, in characters.
#[derive(Clone, Copy)]
pub struct Columns {
    /// Outside of its lifeline.
    pub outer: u32,
    /// Between its lifeline and the network.
    pub inner: u32,
}

/// The rows of a picture, and the columns of its two sides.
#[derive(Clone, Copy)]
pub struct Layout {
    /// How many rows are drawn.
    pub rows: u32,
    /// How many rows of the run are left out: the first ones.
    pub left_out: usize,
    pub client: Columns,
    pub server: Columns,
    ghost rows_are_few: { rows ≤ 60 },
    ghost columns_fit: { cells_of client server ≤ 98 },
}
