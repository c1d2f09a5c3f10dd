//! Rows that repeat. Where rows come three times or more, one after the other, they are drawn once and say how often they came.

ghost use Rattle.std.specs.Prelude.{◌≤◌};

use crate::draw::Result;
use crate::draw::arrivals::Arrow;
use crate::draw::drawing::Drawing;
use crate::draw::places::Column;
use crate::draw::text::{Label, word_of};
use ssh_types::Side;
use std::alloc::Global;

// From this many times on rows are drawn once.
const FEWEST: usize = 3;

// So many rows may repeat together.
const LONGEST: usize = 4;

/// The row in which a row is drawn.
#[derive(Clone, Copy)]
struct Fold {
    row: usize,
    /// Which of the repetitions it is, counted from 0, and how many there are.
    index: usize,
    times: usize,
}

impl Drawing {
    /// Draws rows that repeat once. Gives how many rows are left.
    pub(crate) fn fold(&mut self) -> Result<usize> {
        let count = self.client.rows().max(self.server.rows());
        let looks = self.looks(count)?;
        let folds = folds_of(self.alloc, looks.as_slice())?;
        let places = folds.as_slice();
        self.labels = labels_of(self.alloc, self.labels.as_slice(), places)?;
        self.arrows = arrows_of(self.alloc, self.arrows.as_slice(), places)?;
        for side in [Side::Client, Side::Server] {
            let end = self.end_mut(side);
            let mut epochs = Vec::new(end.alloc);
            for row in end.epochs.iter() {
                epochs.push(row_of(places, *row))?;
            }
            end.epochs = epochs;
            if let Some(row) = end.death {
                end.death = Some(row_of(places, row));
            }
        }
        Ok(row_of(places, count))
    }

    // How each row looks. Two rows that look the same differ at most in the number at the end of what is asked or told.
    fn looks(&self, count: usize) -> Result<Vec<String>> {
        let texts = self.texts(count)?;
        let mut looks = self.texts(count)?;
        for arrow in self.arrows.iter() {
            let start = arrow.start.unwrap_or(arrow.row);
            let rise = arrow.row.saturating_sub(start);
            if let Some(look) = looks.get_mut(arrow.row) {
                let text = texts.get(start).map_or("", |text| text.as_str());
                write!(
                    look,
                    "|{rise} to {} {} {}",
                    word_of(arrow.to),
                    arrow.word,
                    arrow.is_hot
                )?;
                look.push_str(text)?;
            }
            if rise > 0
                && let Some(look) = looks.get_mut(start)
            {
                write!(look, "|{rise} from {}", word_of(arrow.to))?;
            }
        }
        for side in [Side::Client, Side::Server] {
            let end = self.end(side);
            for row in end.epochs.iter() {
                mark(&mut looks, *row)?;
            }
            if let Some(row) = end.death {
                mark(&mut looks, row)?;
            }
        }
        Ok(looks)
    }

    // The texts of each row.
    fn texts(&self, count: usize) -> Result<Vec<String>> {
        let mut texts = Vec::new(self.alloc);
        for _ in 0..count {
            texts.push(String::new(self.alloc))?;
        }
        for label in self.labels.iter() {
            if let Some(text) = texts.get_mut(label.row) {
                let (front, _) = parts_of(label);
                write!(text, "|{} {front}", name_of(label.column))?;
            }
        }
        Ok(texts)
    }
}

// A row that begins something looks like no other. Above the first one there is nothing else.
fn mark(looks: &mut Vec<String>, row: usize) -> Result<()> {
    if row > 0
        && let Some(look) = looks.get_mut(row)
    {
        write!(look, "|{row}")?;
    }
    Ok(())
}

fn name_of(column: Column) -> &'static str {
    match column {
        Column::Whole => "",
        Column::Outer(Side::Client) => "outside of the client",
        Column::Inner(Side::Client) => "inside of the client",
        Column::Inner(Side::Server) => "inside of the server",
        Column::Outer(Side::Server) => "outside of the server",
    }
}

// What is asked or told without the number at its end, and that number. Any other text is whole.
fn parts_of(label: &Label) -> (&str, &str) {
    match (label.column, label.text.as_str().rsplit_once(' ')) {
        (Column::Outer(_), Some((front, number)))
            if number.bytes().all(|byte| byte.is_ascii_digit()) => { (front, number) }
        _ => (label.text.as_str(), ""),
    }
}

// Where each row is drawn.
fn folds_of(alloc: Global, looks: &[String]) -> Result<Vec<Fold>> {
    let mut folds = Vec::new(alloc);
    let (mut row, mut next) = (0, 0);
    for at in 0..looks.len() {
        if at >= next {
            let (period, times) = repeats_at(looks, at);
            for index in 0..times {
                for step in 0..period {
                    folds.push(Fold {
                        row: step.saturating_add(row),
                        index,
                        times,
                    })?;
                }
            }
            row = period.saturating_add(row);
            next = period.saturating_mul(times).saturating_add(at);
        }
    }
    Ok(folds)
}

// How many rows repeat together from this one on, and how often they come.
fn repeats_at(looks: &[String], at: usize) -> (usize, usize) {
    let rows = looks.get(at..).unwrap_or(&[]);
    for period in 1..LONGEST + 1 {
        let times = times_of(rows, period);
        if times >= FEWEST {
            return (period, times);
        }
    }
    (1, 1)
}

// How often the first rows come, so many of them together.
fn times_of(rows: &[String], period: usize) -> usize
    requires { 1 ≤ period }
{
    let first = rows.get(..period).unwrap_or(&[]);
    let mut times: usize = 0;
    for block in rows.chunks(period) {
        if !is_same(block, first) {
            return times;
        }
        times = times.saturating_add(1);
    }
    times
}

// Tests whether these rows look like those, which are not empty.
fn is_same(rows: &[String], others: &[String]) -> bool {
    rows.len() == others.len()
        && rows.iter().zip(others.iter()).all(|(row, other)| !row.is_empty()
            && row.as_str() == other.as_str())
}

// The row in which a row is drawn: the one below all where there is no such row.
fn row_of(places: &[Fold], row: usize) -> usize {
    match (places.get(row), places.last()) {
        (Some(fold), _) => fold.row,
        (None, Some(last)) => last.row.saturating_add(1),
        (None, None) => 0,
    }
}

// The texts of the rows that are drawn.
fn labels_of(alloc: Global, labels: &[Label], places: &[Fold]) -> Result<Vec<Label>> {
    let mut kept: Vec<Label> = Vec::new(alloc);
    for label in labels {
        if let Some(fold) = places.get(label.row) {
            let is_inner = matches!(label.column, Column::Inner(_));
            let is_counted = is_inner || !labels.iter().any(|it| is_inside(it, label.row));
            if fold.index == 0 {
                let times = if is_inner { fold.times } else { 1 };
                kept.push(first_of(alloc, label, fold.row, times)?)?;
            } else if fold.index.saturating_add(1) == fold.times {
                let times = if is_counted { fold.times } else { 1 };
                reach(alloc, &mut kept, label, fold.row, times)?;
            }
        }
    }
    Ok(kept)
}

fn is_inside(label: &Label, row: usize) -> bool {
    label.row == row && matches!(label.column, Column::Inner(_))
}

// The text of the first of the rows that are drawn as one, with how often they come.
fn first_of(alloc: Global, label: &Label, row: usize, times: usize) -> Result<Label> {
    Ok(Label {
        row,
        column: label.column,
        is_hot: label.is_hot,
        text: counted(alloc, label.text.as_str(), times)?,
    })
}

fn counted(alloc: Global, text: &str, times: usize) -> Result<String> {
    if times > 1 {
        format!(in alloc; "{times} × {text}")
    } else {
        String::from_str(alloc, text)
    }
}

// A text outside of the lifelines stands for all rows up to the last one: it goes up to the number at the end of that, or says how often it
// comes, where no text inside does.
fn reach(
    alloc: Global,
    kept: &mut Vec<Label>,
    last: &Label,
    row: usize,
    times: usize,
) -> Result<()> {
    let (_, number) = parts_of(last);
    for label in kept.iter_mut() {
        if label.row == row
            && label.column == last.column
            && matches!(last.column, Column::Outer(_))
        {
            let is_range = parts_of(label).1 != number;
            if is_range {
                write!(label.text, "-{number}")?;
            } else {
                label.text = counted(alloc, label.text.as_str(), times)?;
            }
        }
    }
    Ok(())
}

// The arrows to the rows that are drawn.
fn arrows_of(alloc: Global, arrows: &[Arrow], places: &[Fold]) -> Result<Vec<Arrow>> {
    let mut kept = Vec::new(alloc);
    for arrow in arrows {
        if places.get(arrow.row).is_some_and(|fold| fold.index == 0) {
            kept.push(Arrow {
                start: arrow.start.map(|row| row_of(places, row)),
                row: row_of(places, arrow.row),
                ..*arrow
            })?;
        }
    }
    Ok(kept)
}
