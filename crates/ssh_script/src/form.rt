//! The forms of lines, as faults write them.

ghost use Rattle.std.specs.Prelude.{IsErr};

use crate::word_fault::WordFault;

/// Which lines a script has, by its kind.
#[derive(Clone, Copy, Debug)]
pub(crate) enum Language {
    Epoch,
    Session,
}

impl Language {
    /// The words with which its lines begin, as an end of a sentence.
    pub fn first_words(self) -> &'static str {
        match self {
            Language::Epoch => "ask, pass, drip, lose, give and again do",
            Language::Session => {
                "user, key, limit, strict, ext, feed, ask, pass, drip, lose, give and again do, and epoch as the first line"
            }
        }
    }
}

/// A form of line.
#[derive(Clone, Copy, Debug)]
pub(crate) enum Form {
    Epoch,
    User,
    Key,
    Limit,
    Strict,
    Extension,
    Feed,
    /// An ask, whatever it is for.
    AnyAsk,
    Ask(AskForm),
    Pass,
    Drip,
    Lose,
    Give,
    Again,
}

impl Form {
    /// How a line of this form is written.
    pub fn shown(self) -> &'static str {
        match self {
            Form::Epoch => "epoch K1 K2",
            Form::User => "user NAME WORD",
            Form::Key => "key NAME HEX",
            Form::Limit => "limit SIDE N",
            Form::Strict => "strict SIDE require, strict SIDE offer, strict SIDE off",
            Form::Extension => "ext SIDE, ext SIDE NAME HEX",
            Form::Feed => "feed SIDE BB",
            Form::AnyAsk => "ask SIDE WORD, and what is asked after it",
            Form::Ask(form) => form.shown(),
            Form::Pass => "pass F T N, pass F T all",
            Form::Drip => "drip F T all",
            Form::Lose => "lose F T N",
            Form::Give => "give SIDE HEX",
            Form::Again => "again F T A N",
        }
    }

    /// The fault of words that are more or fewer than this form has after its first.
    ///
    /// # Errors
    ///
    /// Always that fault.
    pub fn other_words<'a, T: Drop>(self, words: &[&'a str]) -> Result<T, WordFault<'a>>
        ensures { IsErr result }
    {
        let count = words.len();
        Err(WordFault::Words { form: self, count })
    }

    /// The fault of a word that isn't one that this form has there.
    ///
    /// # Errors
    ///
    /// Always that fault.
    pub fn other_word<'a, T: Drop>(self, met: &'a str) -> Result<T, WordFault<'a>>
        ensures { IsErr result }
    {
        Err(WordFault::Word { form: self, met })
    }
}

/// A form of ask.
#[derive(Clone, Copy, Debug)]
pub(crate) enum AskForm {
    Raw,
    Service,
    None,
    Password,
    Probe,
    Sign,
    Rekey,
    Open,
    Confirm,
    Refuse,
    Data,
    Extended,
    Adjust,
    Eof,
    Close,
    Request,
    Reply,
    Global,
    GlobalReply,
    Disconnect,
}

impl AskForm {
    /// How an ask of this form is written.
    pub fn shown(self) -> &'static str {
        match self {
            AskForm::Raw => "ask SIDE raw HEX",
            AskForm::Service => "ask SIDE service",
            AskForm::None => "ask SIDE none USER",
            AskForm::Password => "ask SIDE password USER WORD",
            AskForm::Probe => "ask SIDE probe USER ALG HEX",
            AskForm::Sign => "ask SIDE sign USER ALG HEX",
            AskForm::Rekey => "ask SIDE rekey",
            AskForm::Open => "ask SIDE open TYPE WINDOW MAX [HEX]",
            AskForm::Confirm => "ask SIDE confirm CH WINDOW MAX [HEX]",
            AskForm::Refuse => "ask SIDE refuse CH REASON",
            AskForm::Data => "ask SIDE data CH HEX",
            AskForm::Extended => "ask SIDE extended CH TYPE HEX",
            AskForm::Adjust => "ask SIDE adjust CH N",
            AskForm::Eof => "ask SIDE eof CH",
            AskForm::Close => "ask SIDE close CH",
            AskForm::Request => "ask SIDE request CH NAME yes|no [HEX]",
            AskForm::Reply => "ask SIDE reply CH yes|no",
            AskForm::Global => "ask SIDE global NAME yes|no [HEX]",
            AskForm::GlobalReply => "ask SIDE globalreply yes [HEX], ask SIDE globalreply no",
            AskForm::Disconnect => "ask SIDE disconnect WORD",
        }
    }

    /// The fault of words after the first, `ask`, that are more or fewer than this form has.
    ///
    /// # Errors
    ///
    /// Always that fault.
    pub fn other_words<'a, T: Drop>(self, words: &[&'a str]) -> Result<T, WordFault<'a>>
        ensures { IsErr result }
    {
        Form::Ask(self).other_words(words)
    }
}
