//! The settings of an end, the config that is made of them, and its KEXINITs (RFC 4253 sections 4.2 and 7.1).
//!
//! - `good` and settings is the beginning of later lines.
//! - `config` and settings that differ makes a config, or is refused with a number, a name and a text.
//! - `show` and a name shows a value of the last config. `count` is how many names its `kex` has, and `strictness` is shown with what is
//! offered and required.
//! - `first` and `later` with a side put the first KEXINIT of an end and a later one after bytes. The cookie is `0123456789abcdef`.
//!
//! Settings are parted by `; `, each a name of `Settings`, `=` and a value. The software and the comments are digits, and in a list a bar
//! stands before each name. The value of an extension stands after its name and a space.

use ssh_message::{Extension, Extensions};
use ssh_packet::MacOnly;
use ssh_toys::lines::{Layer, Problem, bytes_of, digits_of, parsed, shown, text_of};
use ssh_transport::{Config, ConfigRefusal, Settings, Strictness, put_kexinit};
use ssh_types::{CallError, Side};
use std::alloc::{AllocError, Global};

const COOKIE: &[u8; 16] = b"0123456789abcdef";

/// The config that lines made last.
#[derive(Drop)]
pub struct ConfigLines {
    alloc: Global,
    // The settings that every config begins with.
    good: String,
    config: Option<Config<MacOnly>>,
}

impl ConfigLines {
    /// Lines of configs, of which none was made.
    pub fn new(alloc: Global) -> ConfigLines {
        ConfigLines {
            alloc,
            good: String::new(alloc),
            config: None,
        }
    }

    fn made(&mut self, words: &str) -> Result<String, Problem> {
        let mut given = Given::new(self.alloc);
        given.set_all(self.good.as_str())?;
        given.set_all(words)?;
        match Config::new(self.alloc, &given.settings()) {
            Ok(config) => {
                self.config = Some(config);
                text_of(self.alloc, "config")
            }
            Err(error) => refused(self.alloc, error),
        }
    }

    fn shown(&self, name: &str) -> Result<String, Problem> {
        let Some(config) = &self.config else {
            return Err(Problem::NotALine);
        };
        match name {
            "line" => quoted(self.alloc, Some(config.line())),
            "software" => quoted(self.alloc, Some(config.software())),
            "comments" => quoted(self.alloc, config.comments()),
            "kex" => quoted(self.alloc, Some(config.kex().as_bytes())),
            "host" => quoted(self.alloc, Some(config.host().as_bytes())),
            "encryption" => quoted(self.alloc, Some(config.encryption().as_bytes())),
            "mac" => quoted(self.alloc, Some(config.mac().as_bytes())),
            "methods" => quoted(self.alloc, Some(config.methods().as_bytes())),
            "count" => shown(self.alloc, config.kex().iter().count()),
            "epoch_limit" => shown(self.alloc, config.epoch_limit()),
            "tries" => shown(self.alloc, config.tries()),
            "takes_extensions" => shown(self.alloc, config.takes_extensions()),
            "strictness" => strictness_shown(self.alloc, config.strictness()),
            "extensions" => extensions_shown(self.alloc, &config.extensions()),
            _ => Err(Problem::NotALine),
        }
    }

    // A KEXINIT of the last config.
    fn kexinit(&self, is_first: bool, words: &str) -> Result<String, Problem> {
        let Some(config) = &self.config else {
            return Err(Problem::NotALine);
        };
        let (side, digits) = words.split_once(' ').unwrap_or((words, ""));
        let side = match side {
            "client" => Side::Client,
            "server" => Side::Server,
            _ => return Err(Problem::NotALine),
        };
        let mut out = bytes_of(self.alloc, digits)?;
        put_kexinit(self.alloc, config, side, is_first, COOKIE, &mut out)?;
        digits_of(self.alloc, &out)
    }
}

impl Layer for ConfigLines {
    fn said_to(&mut self, line: &str) -> Result<String, Problem> {
        match line.split_once(' ') {
            Some(("good", words)) => {
                self.good = String::from_str(self.alloc, words)?;
                Ok(String::new(self.alloc))
            }
            Some(("config", words)) => self.made(words),
            Some(("show", name)) => self.shown(name),
            Some(("first", words)) => self.kexinit(true, words),
            Some(("later", words)) => self.kexinit(false, words),
            _ => Err(Problem::NotALine),
        }
    }
}

// What a line sets. Texts of lists are slices of it.
#[derive(Drop)]
struct Given<'a> {
    alloc: Global,
    software: Vec<u8>,
    comments: Option<Vec<u8>>,
    kex: Vec<&'a [u8]>,
    host: Vec<&'a [u8]>,
    encryption: Vec<&'a [u8]>,
    mac: Vec<&'a [u8]>,
    methods: Vec<&'a [u8]>,
    epoch_limit: u32,
    tries: u32,
    strictness: Strictness,
    takes_extensions: bool,
    extensions: Vec<Extension<'a>>,
}

impl<'a> Given<'a> {
    fn new(alloc: Global) -> Given<'a> {
        Given {
            alloc,
            software: Vec::new(alloc),
            comments: None,
            kex: Vec::new(alloc),
            host: Vec::new(alloc),
            encryption: Vec::new(alloc),
            mac: Vec::new(alloc),
            methods: Vec::new(alloc),
            epoch_limit: 0,
            tries: 0,
            strictness: Strictness::default(),
            takes_extensions: false,
            extensions: Vec::new(alloc),
        }
    }

    fn set_all(&mut self, words: &'a str) -> Result<(), Problem> {
        for word in words.split("; ") {
            match word.split_once('=') {
                Some((name, value)) => self.set(name, value)?,
                None => return Err(Problem::NotALine),
            }
        }
        Ok(())
    }

    fn set(&mut self, name: &str, value: &'a str) -> Result<(), Problem> {
        match name {
            "software" => self.software = bytes_of(self.alloc, value)?,
            "comments" => self.comments = Some(bytes_of(self.alloc, value)?),
            "kex" => self.kex = names_of(self.alloc, value)?,
            "host" => self.host = names_of(self.alloc, value)?,
            "encryption" => self.encryption = names_of(self.alloc, value)?,
            "mac" => self.mac = names_of(self.alloc, value)?,
            "methods" => self.methods = names_of(self.alloc, value)?,
            "epoch_limit" => self.epoch_limit = parsed(value)?,
            "tries" => self.tries = parsed(value)?,
            "strictness" => self.strictness = strictness_of(value)?,
            "takes_extensions" => self.takes_extensions = value == "true",
            "extensions" => self.extensions = extensions_of(self.alloc, value)?,
            _ => return Err(Problem::NotALine),
        }
        Ok(())
    }

    fn settings(&self) -> Settings<'_> {
        Settings {
            software: &self.software,
            comments: self.comments.as_deref(),
            kex: &self.kex,
            host: &self.host,
            encryption: &self.encryption,
            mac: &self.mac,
            epoch_limit: self.epoch_limit,
            tries: self.tries,
            methods: &self.methods,
            strictness: self.strictness,
            takes_extensions: self.takes_extensions,
            extensions: &self.extensions,
        }
    }
}

fn names_of(alloc: Global, value: &str) -> Result<Vec<&[u8]>, AllocError> {
    let mut names = Vec::new(alloc);
    if let Some(texts) = value.strip_prefix('|') {
        for name in texts.split('|') {
            names.push(name.as_bytes())?;
        }
    }
    Ok(names)
}

fn extensions_of(alloc: Global, value: &str) -> Result<Vec<Extension<'_>>, AllocError> {
    let mut extensions = Vec::new(alloc);
    if let Some(texts) = value.strip_prefix('|') {
        for text in texts.split('|') {
            let (name, value) = text.split_once(' ').unwrap_or((text, ""));
            extensions.push(Extension {
                name: name.as_bytes(),
                value: value.trim_end().as_bytes(),
            })?;
        }
    }
    Ok(extensions)
}

fn strictness_of(value: &str) -> Result<Strictness, Problem> {
    match value {
        "Require" => Ok(Strictness::Require),
        "Offer" => Ok(Strictness::Offer),
        "Off" => Ok(Strictness::Off),
        _ => Err(Problem::NotALine),
    }
}

fn refused(alloc: Global, error: CallError<ConfigRefusal>) -> Result<String, Problem> {
    match error {
        CallError::Refused(refusal) => {
            Ok(format!(in alloc; "refused {} {} {error}", refusal.number(), refusal.name())?)
        }
        CallError::Memory => Err(Problem::from(AllocError)),
    }
}

// A text in quotes, since it may end in a space.
fn quoted(alloc: Global, text: Option<&[u8]>) -> Result<String, Problem> {
    let Some(text) = text else {
        return text_of(alloc, "nothing");
    };
    match str::from_utf8(text) {
        Ok(text) => Ok(format!(in alloc; "\"{text}\"")?),
        Err(_) => Err(Problem::NotALine),
    }
}

fn strictness_shown(alloc: Global, strictness: Strictness) -> Result<String, Problem> {
    let is_offered = strictness.is_offered();
    let is_required = strictness.is_required();
    Ok(format!(in alloc; "{strictness:?} offered {is_offered} required {is_required}")?)
}

// How many extensions there are, and each.
fn extensions_shown(alloc: Global, extensions: &Extensions<'_>) -> Result<String, Problem> {
    let mut text = format!(in alloc; "{}", extensions.count())?;
    for extension in extensions.iter() {
        let name = quoted(alloc, Some(extension.name))?;
        let value = quoted(alloc, Some(extension.value))?;
        write!(text, " {name} {value}")?;
    }
    Ok(text)
}
