//! The lines of the network between the two sides.

use crate::form::{Form, Language};
use crate::word_fault::WordFault;
use crate::words;
use ssh_types::Side;
use std::alloc::Global;

/// How many of the waiting bytes a line means.
#[derive(Clone, Copy)]
pub enum Count {
    Next(u32),
    All,
}

/// The fate of bytes on their way. A side's bytes wait from when it put them out until they are passed, dripped or lost.
#[derive(Drop)]
pub enum Delivery {
    /// Delivers the next waiting bytes of a side to the other one, as one piece.
    Pass { from: Side, count: Count },
    /// Delivers all waiting bytes of a side to the other one, each as a piece.
    Drip { from: Side },
    /// Drops the next waiting bytes of a side.
    Lose { from: Side, count: u32 },
    /// Delivers these bytes to a side, as one piece.
    Give { side: Side, bytes: Vec<u8> },
    /// Delivers bytes that a side put out before, from this offset on, to the other one, as one piece.
    Again { from: Side, start: u32, count: u32 },
}

/// The effect of a line of the network, by its first word and the words after it.
pub(crate) fn delivery_of<'a>(
    alloc: Global,
    language: Language,
    word: &'a str,
    words: &[&'a str],
) -> Result<Delivery, WordFault<'a>> {
    match word {
        "pass" => pass(words),
        "drip" => drip(words),
        "lose" => lose(words),
        "give" => give(alloc, words),
        "again" => again(words),
        met => Err(WordFault::UnknownForm { met, language }),
    }
}

fn pass<'a>(words: &[&'a str]) -> Result<Delivery, WordFault<'a>> {
    let [from, to, count] = words else {
        return Form::Pass.other_words(words);
    };
    let from = words::sender(from, to)?;
    let count = match *count {
        "all" => Count::All,
        number => Count::Next(words::number(number)?),
    };
    Ok(Delivery::Pass { from, count })
}

fn drip<'a>(words: &[&'a str]) -> Result<Delivery, WordFault<'a>> {
    let [from, to, count] = words else {
        return Form::Drip.other_words(words);
    };
    let from = words::sender(from, to)?;
    if *count != "all" {
        return Form::Drip.other_word(count);
    }
    Ok(Delivery::Drip { from })
}

fn lose<'a>(words: &[&'a str]) -> Result<Delivery, WordFault<'a>> {
    let [from, to, count] = words else {
        return Form::Lose.other_words(words);
    };
    let from = words::sender(from, to)?;
    let count = words::number(count)?;
    Ok(Delivery::Lose { from, count })
}

fn give<'a>(alloc: Global, words: &[&'a str]) -> Result<Delivery, WordFault<'a>> {
    let [side, bytes] = words else {
        return Form::Give.other_words(words);
    };
    let side = words::side(side)?;
    let bytes = words::bytes(alloc, bytes)?;
    Ok(Delivery::Give { side, bytes })
}

fn again<'a>(words: &[&'a str]) -> Result<Delivery, WordFault<'a>> {
    let [from, to, start, count] = words else {
        return Form::Again.other_words(words);
    };
    let from = words::sender(from, to)?;
    let start = words::number(start)?;
    let count = words::number(count)?;
    Ok(Delivery::Again { from, start, count })
}
