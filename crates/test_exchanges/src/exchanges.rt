//! A client and a server of which each line says what is done to one, `c` or `s`. What comes of it is what that end does on it, or the end
//! that takes the bytes: what it took, refused, sent and told, or `nothing`. Payloads have their number, name and size.
//!
//! - `new` and a word makes two ends that have put out their lines and KEXINITs. They are `strict`, so that each requires strict key
//!   exchange, `offering` it, or `plain`, without it. They are `extended` where both take extensions. Where the server is `announced` it
//!   announces one besides, and where it is `unasked` the client takes none. The client of `limited` is to exchange keys after 64 packets,
//!   and the ends of `named` know several names. To those that are `dripped` whatever passes comes byte by byte.
//! - `c pass` lets all waiting bytes of the client reach the server, `c pass 11` the next 11 of them, and `c again 11 176` once more 176 of
//!   all that it ever put out, from the byte 11 on.
//! - `c give` and bytes lets them reach the client. `c forge` and a payload lets a packet of it reach the client, under the key and the
//!   number that it takes. `c kexinit c1 guess 1=x,y` does it with a KEXINIT: its cookie has the byte c1 alone, a guess follows, and its
//!   second list is `x,y`.
//! - `c each` and numbers, as `1 30-49`, says what comes of a payload of one byte, for each of these numbers at two ends that were told the
//!   same lines anew. Where it is not the same of all, the first other one is shown. The number, its name and the size 1 are `it`.
//! - `c ask service`, `c ask rekey`, `c disconnect` and a description, and `c send` and a payload are what users and layers above ask.
//!   `c feed` and a byte gives it a cookie and a secret of this byte alone, and `c authenticated` says that the user is.
//! - `c calls` and bytes has it take them, a line or packet by each call, and says how many bytes each call used.
//! - `c numbers` shows the numbers of the next packets that are sent and taken, `c epochs` how many NEWKEYS were. `c session` is the
//!   session id, and `c chosen` the names of the method and the host key algorithm that were chosen. `c blocked`, `c due` and `c dead` say
//!   whether it is within an exchange of keys, whether one is due, and whether it is over.
//! - `c last` shows the payload that it sent last, `c out` all bytes that it put out and `c size` how many. `c same` says whether numbers,
//!   epochs, size and `c blocked` are as they were at `c mark`.
//! - `exchange 0 03` shows the text and the hash of the first exchange of keys, whose shared secret has the byte 03 alone.
//! - `padding` plays a session whose padding counts up, and shows how many packets of each end have that padding.
//! - `debugged login` shows what `{:?}` says of the turn in which a server takes a password.

use crate::ends::pair_of;
use crate::padding::{login_debugged, packets_counting_up};
use crate::pair::Pair;
use ssh_message::name;
use ssh_toys::lines::{Layer, Problem};
use ssh_types::Side;
use std::alloc::{AllocError, Global};

/// Two ends that are told lines.
#[derive(Drop)]
pub struct ExchangeLines {
    alloc: Global,
    // None until a line makes one.
    pair: Option<Pair>,
    // What the ends are, and what they were told.
    ends: String,
    told: Vec<String>,
}

impl ExchangeLines {
    /// Lines of two ends, of which nothing was played.
    pub fn new(alloc: Global) -> ExchangeLines {
        ExchangeLines {
            alloc,
            pair: None,
            ends: String::new(alloc),
            told: Vec::new(alloc),
        }
    }

    fn made(&mut self, ends: &str) -> Result<String, Problem> {
        self.pair = Some(pair_of(self.alloc, ends)?);
        self.ends = String::from_str(self.alloc, ends)?;
        self.told = Vec::new(self.alloc);
        Ok(String::new(self.alloc))
    }

    fn keep(&mut self, line: &str) -> Result<(), AllocError> {
        self.told.push(String::from_str(self.alloc, line)?)?;
        Ok(())
    }

    // A line that is told to the ends, and kept.
    fn kept(&mut self, line: &str) -> Result<String, Problem> {
        self.keep(line)?;
        match &mut self.pair {
            Some(pair) => pair.said_to(line),
            None => Err(Problem::NotALine),
        }
    }

    // What comes of payloads of these numbers, if it is the same.
    fn each(&self, to: Side, numbers: &str) -> Result<String, Problem> {
        let mut all = String::new(self.alloc);
        for word in numbers.split(' ') {
            let (first, last) = word.split_once('-').unwrap_or((word, word));
            for number in number_of(first)?..=number_of(last)? {
                let text = self.at_number(to, number)?;
                if all.is_empty() {
                    all = text;
                } else if all.as_str() != text.as_str() {
                    return Ok(format!(in self.alloc; "{number}: {text}")?);
                }
            }
        }
        Ok(all)
    }

    fn at_number(&self, to: Side, number: u8) -> Result<String, Problem> {
        let mut pair = pair_of(self.alloc, self.ends.as_str())?;
        for line in self.told.as_slice() {
            pair.said_to(line.as_str())?;
        }
        let text = pair.forged(to, &[number])?;
        let took = format!(in self.alloc; "took {number} {} 1", name(number))?;
        Ok(text.as_str().replace(self.alloc, took.as_str(), "took it")?)
    }
}

impl Layer for ExchangeLines {
    fn said_to(&mut self, line: &str) -> Result<String, Problem> {
        if let Some(numbers) = line.strip_prefix("c each ") {
            return self.each(Side::Client, numbers);
        }
        if let Some(numbers) = line.strip_prefix("s each ") {
            return self.each(Side::Server, numbers);
        }
        match line.strip_prefix("new ") {
            Some(ends) => self.made(ends),
            None if line == "padding" => packets_counting_up(self.alloc),
            None if line == "debugged login" => login_debugged(self.alloc),
            None => self.kept(line),
        }
    }
}

fn number_of(word: &str) -> Result<u8, Problem> {
    word.parse::<u8>().map_err(|_| Problem::NotALine)
}
