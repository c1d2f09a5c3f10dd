//! Lines on their way into a script.

use crate::ask_line::side_and_ask;
use crate::delivery::delivery_of;
use crate::form::{AskForm, Form, Language};
use crate::line::{Line, LineText};
use crate::script::{EpochScript, EpochStep, Keys, Script, SessionScript, Step};
use crate::script_fault::LineFault;
use crate::setup::Setup;
use crate::word_fault::WordFault;
use crate::words;
use std::alloc::Global;

/// A script as far as it was read.
#[derive(Drop)]
pub(crate) struct Reading {
    alloc: Global,
    // None until a line of words was read. Its expected lines stand next to it.
    script: Option<Script>,
    expected: Vec<String>,
}

impl Reading {
    /// A script of which no line was read.
    pub fn new(alloc: Global) -> Reading {
        Reading {
            alloc,
            script: None,
            expected: Vec::new(alloc),
        }
    }

    /// Reads one line, without its line break.
    ///
    /// # Errors
    ///
    /// The first fault of the line.
    pub fn take<'a>(&mut self, number: usize, bytes: &'a [u8]) -> Result<(), LineFault<'a>> {
        match LineText::of(bytes)? {
            LineText::Skipped => {}
            LineText::Expected(text) => {
                let text = String::from_str(self.alloc, text)?;
                self.expected.push(text)?;
            }
            LineText::Words(text) => {
                // Tested before the words are kept, since each takes more memory than the space before it.
                if text.split(' ').any(|word| word.is_empty()) {
                    return Err(LineFault::Words(WordFault::EmptyWord));
                }
                let words: Vec<&str> = text.split(' ').collect(self.alloc)?;
                self.take_words(number, words.as_slice())?;
            }
        }
        Ok(())
    }

    fn take_words<'a>(&mut self, number: usize, words: &[&'a str]) -> Result<(), WordFault<'a>> {
        let [word, rest @ ..] = words else {
            return Err(WordFault::EmptyWord);
        };
        let alloc = self.alloc;
        match &mut self.script {
            Some(Script::Epoch(script)) => take_of_epoch(alloc, script, number, word, rest),
            Some(Script::Session(script)) => take_of_session(alloc, script, number, word, rest),
            None => {
                self.script = Some(begun(alloc, number, word, rest)?);
                Ok(())
            }
        }
    }

    /// The script of all lines. Without a line of words it is a session in which nothing happens.
    pub fn end(self) -> Script {
        let Reading {
            alloc,
            script,
            expected,
        } = self;
        match script.unwrap_or(Script::Session(empty_session(alloc))) {
            Script::Epoch(script) => Script::Epoch(EpochScript { expected, ..script }),
            Script::Session(script) => Script::Session(SessionScript { expected, ..script }),
        }
    }
}

fn empty_session(alloc: Global) -> SessionScript {
    SessionScript {
        setup: Setup::new(alloc),
        steps: Vec::new(alloc),
        expected: Vec::new(alloc),
    }
}

// The script that begins with this line.
fn begun<'a>(
    alloc: Global,
    number: usize,
    word: &'a str,
    words: &[&'a str],
) -> Result<Script, WordFault<'a>> {
    if word == "epoch" {
        return Ok(Script::Epoch(EpochScript {
            keys: keys(words)?,
            steps: Vec::new(alloc),
            expected: Vec::new(alloc),
        }));
    }
    let mut script = empty_session(alloc);
    take_of_session(alloc, &mut script, number, word, words)?;
    Ok(Script::Session(script))
}

fn keys<'a>(words: &[&'a str]) -> Result<Keys, WordFault<'a>> {
    let [client, server] = words else {
        return Form::Epoch.other_words(words);
    };
    let client = words::key(client)?;
    let server = words::key(server)?;
    Ok(Keys { client, server })
}

fn take_of_epoch<'a>(
    alloc: Global,
    script: &mut EpochScript,
    number: usize,
    word: &'a str,
    words: &[&'a str],
) -> Result<(), WordFault<'a>> {
    let content = match word {
        "epoch" => return Err(WordFault::SecondEpoch),
        "ask" => raw(alloc, words)?,
        word => EpochStep::Network(delivery_of(alloc, Language::Epoch, word, words)?),
    };
    script.steps.push(Line { number, content })?;
    Ok(())
}

fn raw<'a>(alloc: Global, words: &[&'a str]) -> Result<EpochStep, WordFault<'a>> {
    let [side, kind, payload] = words else {
        return AskForm::Raw.other_words(words);
    };
    let side = words::side(side)?;
    if *kind != "raw" {
        return Form::Ask(AskForm::Raw).other_word(kind);
    }
    let payload = words::bytes(alloc, payload)?;
    if payload.is_empty() {
        return Err(WordFault::EmptyPayload);
    }
    Ok(EpochStep::Ask { side, payload })
}

fn take_of_session<'a>(
    alloc: Global,
    script: &mut SessionScript,
    number: usize,
    word: &'a str,
    words: &[&'a str],
) -> Result<(), WordFault<'a>> {
    if is_of_setup(word) && !script.steps.is_empty() {
        return Err(WordFault::LateSetup(word));
    }
    let content = match word {
        "user" => return script.setup.user(alloc, words),
        "key" => return script.setup.key(alloc, words),
        "limit" => return script.setup.limit(number, words),
        "strict" => return script.setup.strict(words),
        "ext" => return script.setup.extension(alloc, number, words),
        "epoch" => return Err(WordFault::LateEpoch),
        "feed" => feed(words)?,
        "ask" => {
            let (side, ask) = side_and_ask(alloc, words)?;
            Step::Ask { side, ask }
        }
        word => Step::Network(delivery_of(alloc, Language::Session, word, words)?),
    };
    script.steps.push(Line { number, content })?;
    Ok(())
}

fn is_of_setup(word: &str) -> bool {
    matches!(word, "user" | "key" | "limit" | "strict" | "ext")
}

fn feed<'a>(words: &[&'a str]) -> Result<Step, WordFault<'a>> {
    let [side, byte] = words else {
        return Form::Feed.other_words(words);
    };
    let side = words::side(side)?;
    let byte = words::byte(byte)?;
    Ok(Step::Feed { side, byte })
}
