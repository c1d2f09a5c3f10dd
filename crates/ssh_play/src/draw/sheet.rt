//! The whole of a picture.

use crate::draw::Result;
use crate::draw::arrivals::Arrow;
use crate::draw::drawing::Drawing;
use crate::draw::layout::{Columns, Layout};
use crate::draw::places::{CELL, Column, HEAD, LINE, MOST_ROWS, STUB, WIDTH};
use crate::draw::text::{push_escaped, word_of, write_at, write_label};
use ssh_types::Side;

/// A picture as far as it is written.
#[derive(Drop)]
struct Sheet<'a> {
    drawing: &'a Drawing,
    layout: Layout,
    out: String,
}

// The last so many arrows are drawn, and the first so many texts described: no script makes a picture larger.
const MOST_ARROWS: usize = 200;

const MOST_SAID: usize = 80;

const LABELS: &str =
    "A message: its number, name and length of payload. A refusal: its number and name. What is tinted is sealed.";

// The classes of a picture: `b` the ground, `p` a text, `g` one that says less, `t` a heading, `r` and `h` what has to be seen, `e0` and
// `e1` what is sent in an odd and an even epoch, `l` a lifeline, `o` that of an end that is over, `a` an arrow.
const STYLE: &str = "\
text{font:120px ui-monospace,SFMono-Regular,Menlo,Consolas,\"DejaVu Sans Mono\",\"Liberation Mono\",monospace}.t,.r{font-weight:600}\
path{fill:none;stroke-width:12.5}.l{stroke-width:20}.h{stroke-width:17.5}.o{stroke-dasharray:10 40}\
.b{fill:#ffffff}text{fill:#1f2328}.g{fill:#59636e}.r{fill:#b13600}.e0{fill:#ebf2fb}.e1{fill:#d8e5f6}.l{stroke:#3d444d}.a,.o{stroke:#6e7781}.h{stroke:#b13600}\
@media screen and (prefers-color-scheme:dark){.b{fill:#0d1117}text{fill:#e6edf3}.g{fill:#9aa4af}.r{fill:#ff9b70}.e0{fill:#152030}.e1{fill:#21324b}\
.l{stroke:#b7bfc8}.a,.o{stroke:#8b949e}.h{stroke:#ff9b70}}";

/// Draws a run of so many rows as an SVG.
pub(crate) fn picture_of(drawing: &Drawing, name: &str, rows: usize) -> Result<String> {
    let mut sheet = Sheet {
        drawing,
        layout: layout_of(drawing, rows),
        out: String::new(drawing.alloc),
    };
    sheet.begin(name)?;
    for side in [Side::Client, Side::Server] {
        sheet.draw_side(side)?;
    }
    for arrow in drawing.arrows.iter().rev().take(MOST_ARROWS) {
        if sheet.layout.line_of(arrow.row).is_some() {
            sheet.draw_arrow(arrow)?;
        }
    }
    sheet.write_lines(name)?;
    sheet.write_rows()?;
    Ok(sheet.out)
}

// Columns are as wide as the longest texts in rows that are drawn, and the same on both sides where there is room for that.
fn layout_of(drawing: &Drawing, rows: usize) -> Layout {
    let client = columns_of(drawing, rows, Side::Client);
    let server = columns_of(drawing, rows, Side::Server);
    let widest = Columns {
        outer: client.outer.max(server.outer),
        inner: client.inner.max(server.inner),
    };
    if widest.outer.saturating_add(widest.inner) <= 49 {
        Layout::new(rows, widest, widest)
    } else {
        Layout::new(rows, client, server)
    }
}

fn columns_of(drawing: &Drawing, rows: usize, side: Side) -> Columns {
    let (mut outer, mut inner) = (12, 20);
    for label in drawing.labels.iter() {
        // (an arrow goes on beside what has to be seen)
        let beside = if label.is_hot && label.column == Column::Inner(side) {
            3
        } else {
            0
        };
        let width = label.text.len().min(46) as u32 + beside;
        if label.row >= rows.saturating_sub(MOST_ROWS) {
            if label.column == Column::Outer(side) {
                outer = width.max(outer);
            } else if label.column == Column::Inner(side) {
                inner = width.max(inner);
            }
        }
    }
    Columns { outer, inner }
}

impl Sheet<'_> {
    // The picture up to its ground, with its title and a description for who can't see it.
    fn begin(&mut self, name: &str) -> Result<()> {
        let height = self.layout.height();
        let (width, pixels) = (WIDTH / 10, height / 10);
        write!(
            self.out,
            "<svg xmlns='http://www.w3.org/2000/svg' role='img' lang='en' width='{width}' height='{pixels}' viewBox='0 0 {WIDTH} {height}'>\n<title>"
        )?;
        push_escaped(&mut self.out, name)?;
        self.out.push_str("</title>\n<desc>")?;
        push_escaped(&mut self.out, self.drawing.verdict.as_str())?;
        for label in self.drawing.labels.iter().take(MOST_SAID) {
            if let Column::Outer(side) | Column::Inner(side) = label.column {
                write!(self.out, "The {}: ", word_of(side))?;
            }
            push_escaped(&mut self.out, label.text.as_str())?;
            self.out.push_str(". ")?;
        }
        writeln!(
            self.out,
            "</desc>\n<style>{STYLE}</style>\n<rect class='b' width='{WIDTH}' height='{height}'/>"
        )
    }

    // Tints what a side sends in each epoch, and draws its lifeline: dotted after the end died.
    fn draw_side(&mut self, side: Side) -> Result<()> {
        let end = self.drawing.end(side);
        let (x, edge) = (self.layout.life(side), self.layout.edge(side));
        let (left, width) = (x.min(edge), x.max(edge).saturating_sub(x.min(edge)));
        let bottom = self.layout.top_of(usize::MAX);
        let last = end.death.map_or(bottom, |row| self.layout.top_of(row));
        for (index, first) in end.epochs.iter().enumerate() {
            let (tint, y) = (index % 2, self.layout.top_of(*first));
            let height = last.saturating_sub(y);
            writeln!(
                self.out,
                "<rect class='e{tint}' x='{left}' y='{y}' width='{width}' height='{height}'/>"
            )?;
        }
        let bar = if end.death.is_some() {
            "m-60 0h120"
        } else {
            ""
        };
        writeln!(
            self.out,
            "<path class='l' d='M{x} 500V{last}{bar}'/>\n<path class='o' d='M{x} {last}V{bottom}'/>"
        )
    }

    // An arrow goes through the network to the row in which it ends, and level to the lifeline, with a gap for a text that stands there.
    // What is lost ends at a cross where it leaves the network, and what is not read at a head.
    fn draw_arrow(&mut self, arrow: &Arrow) -> Result<()> {
        let (from, to) = (arrow.to.peer(), arrow.to);
        let (near, far) = (self.layout.edge(from), self.layout.edge(to));
        let y = self.layout.top_of(arrow.row) + LINE / 2;
        let class = if arrow.is_hot { "h" } else { "a" };
        write!(self.out, "<path class='{class}' d='M{near} ")?;
        match arrow.start {
            Some(row) => write!(self.out, "{}", self.layout.top_of(row) + LINE / 2)?,
            None => write!(self.out, "{y}m-50 0l50 -50l50 50l-50 50zm50 0")?,
        }
        if arrow.word == "lost" {
            return writeln!(self.out, "L{far} {y}m-40 -40l80 80m0 -80l-80 80'/>");
        }
        write!(self.out, "L{far} {y}")?;
        let life = inward(to, self.layout.life(to), 20);
        match arrow.word {
            "" => self.head(to, life, y, 90),
            "not read" => self.head(to, far, y, 90),
            _ => {
                self.pass_text(to, arrow.cells, y)?;
                self.head(to, life, y, 60)
            }
        }
    }

    // Goes on from the edge of the network to the other end of a text of so many characters.
    fn pass_text(&mut self, to: Side, cells: usize, y: u32) -> Result<()> {
        let columns = match to {
            Side::Client => self.layout.client,
            Side::Server => self.layout.server,
        };
        let cells = cells.min(columns.inner as usize) as u32;
        let (edge, life) = (self.layout.edge(to), inward(to, self.layout.life(to), 20));
        let gap = CELL.saturating_mul(cells).saturating_add(STUB + STUB / 2);
        let (near, past) = (outward(to, edge, STUB / 2), outward(to, edge, gap));
        let past = match to {
            Side::Client => past.max(life),
            Side::Server => past.min(life),
        };
        write!(self.out, "H{near}M{past} {y}")
    }

    // Goes on level to a place, and ends there in a head of this length.
    fn head(&mut self, to: Side, end: u32, y: u32, length: u32) -> Result<()> {
        let back = inward(to, end, length);
        let (above, below) = (y.saturating_sub(40), y.saturating_add(40));
        writeln!(
            self.out,
            "H{end}M{back} {above}L{end} {y}L{back} {below}'/>"
        )
    }

    // The texts above and below the rows: what the picture is called, whose lifelines these are, how many rows are left out, who refused
    // what, and what a label is.
    fn write_lines(&mut self, name: &str) -> Result<()> {
        self.write(0, Column::Whole, "t", name)?;
        for side in [Side::Client, Side::Server] {
            self.write(1, Column::Outer(side), "t", word_of(side))?;
        }
        if self.layout.left_out > 0 {
            let text = format!(in self.drawing.alloc; "{} more above", self.layout.left_out)?;
            self.write(2, Column::Inner(Side::Client), "g", text.as_str())?;
        }
        let line: u32 = HEAD + self.layout.rows + 1;
        let verdict = self.drawing.verdict.as_str();
        self.write(line, Column::Whole, "t", verdict)?;
        self.write(line + 1, Column::Whole, "g", LABELS)
    }

    fn write_rows(&mut self) -> Result<()> {
        for label in self.drawing.labels.iter() {
            write_label(&mut self.out, &self.layout, label)?;
        }
        self.out.push_str("</svg>\n")
    }

    fn write(&mut self, line: u32, column: Column, class: &str, text: &str) -> Result<()> {
        write_at(&mut self.out, &self.layout, line, column, class, text)
    }
}

// A place so much further away from a side's lifeline to the other one.
fn inward(side: Side, x: u32, by: u32) -> u32 {
    match side {
        Side::Client => x.saturating_add(by),
        Side::Server => x.saturating_sub(by),
    }
}

// A place so much further away from the network than one on a side's half.
fn outward(side: Side, x: u32, by: u32) -> u32 {
    inward(side.peer(), x, by)
}
