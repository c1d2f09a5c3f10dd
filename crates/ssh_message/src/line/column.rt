use ssh_types::{ReadRefusal, Reader};
use std::fmt;

// A field of a message as a line shows it, by its name.
#[derive(Clone, Copy)]
pub(crate) enum Column {
    Boolean(&'static str),
    Uint32(&'static str),
    // a string, in hexadecimal
    Text(&'static str),
    // a name-list, as text
    Names(&'static str),
    // 16 bytes, in hexadecimal
    Cookie(&'static str),
    // all that is left, in hexadecimal
    Rest(&'static str),
    // a count, and so many names with their values, in hexadecimal
    Extensions,
}

// The fields of the messages with this number, in their order. The last number of a KEXINIT, always 0, isn't shown.
pub(crate) fn columns(number: u8) -> &'static [Column] {
    match number {
        1 => &[
            Column::Uint32("reason"),
            Column::Text("description"),
            Column::Text("language"),
        ],
        2 => &[Column::Text("data")],
        3 => &[Column::Uint32("number")],
        4 => &[
            Column::Boolean("display"),
            Column::Text("message"),
            Column::Text("language"),
        ],
        5 => &[Column::Text("service")],
        6 => &[Column::Text("service")],
        7 => &[Column::Extensions],
        20 => &[
            Column::Cookie("cookie"),
            Column::Names("kex"),
            Column::Names("host"),
            Column::Names("enc_cs"),
            Column::Names("enc_sc"),
            Column::Names("mac_cs"),
            Column::Names("mac_sc"),
            Column::Names("comp_cs"),
            Column::Names("comp_sc"),
            Column::Names("lang_cs"),
            Column::Names("lang_sc"),
            Column::Boolean("follows"),
        ],
        30 => &[Column::Text("q_c")],
        31 => &[
            Column::Text("k_s"),
            Column::Text("q_s"),
            Column::Text("signature"),
        ],
        50 => &[
            Column::Text("user"),
            Column::Text("service"),
            Column::Text("method"),
            Column::Rest("rest"),
        ],
        51 => &[Column::Names("methods"), Column::Boolean("partial")],
        53 => &[Column::Text("message"), Column::Text("language")],
        60 => &[Column::Text("algorithm"), Column::Text("key")],
        80 => &[
            Column::Text("name"),
            Column::Boolean("want"),
            Column::Rest("rest"),
        ],
        81 => &[Column::Rest("rest")],
        90 => &[
            Column::Text("type"),
            Column::Uint32("sender"),
            Column::Uint32("window"),
            Column::Uint32("max"),
            Column::Rest("rest"),
        ],
        91 => &[
            Column::Uint32("recipient"),
            Column::Uint32("sender"),
            Column::Uint32("window"),
            Column::Uint32("max"),
            Column::Rest("rest"),
        ],
        92 => &[
            Column::Uint32("recipient"),
            Column::Uint32("reason"),
            Column::Text("description"),
            Column::Text("language"),
        ],
        93 => &[Column::Uint32("recipient"), Column::Uint32("bytes")],
        94 => &[Column::Uint32("recipient"), Column::Text("data")],
        95 => &[
            Column::Uint32("recipient"),
            Column::Uint32("type"),
            Column::Text("data"),
        ],
        98 => &[
            Column::Uint32("recipient"),
            Column::Text("name"),
            Column::Boolean("want"),
            Column::Rest("rest"),
        ],
        96 | 97 | 99 | 100 => &[Column::Uint32("recipient")],
        _ => &[],
    }
}

impl Column {
    // Shows the field that stands in front.
    pub(crate) fn show<W: fmt::Write>(
        self,
        fields: &mut Reader<'_>,
        f: &mut fmt::Formatter<W>,
    ) -> fmt::Result {
        match self {
            Column::Boolean(name) => show_value(name, fields.boolean(), f),
            Column::Uint32(name) => show_value(name, fields.u32(), f),
            Column::Text(name) => show_value(name, hex_string(fields), f),
            Column::Names(name) => show_value(name, letters(fields), f),
            Column::Cookie(name) => show_value(name, cookie(fields), f),
            Column::Extensions => show_extensions(fields, f),
            Column::Rest(name) => show_value(name, Ok(Hex(fields.rest())), f),
        }
    }
}

// Shows a value by its name. No payload that is a message lacks one.
fn show_value<V: fmt::Display + Drop, W: fmt::Write>(
    name: &str,
    value: Result<V, ReadRefusal>,
    f: &mut fmt::Formatter<W>,
) -> fmt::Result {
    match value {
        Ok(value) => write!(f, " {name}={value}"),
        Err(_) => Err(fmt::Error),
    }
}

fn show_extensions<W: fmt::Write>(
    fields: &mut Reader<'_>,
    f: &mut fmt::Formatter<W>,
) -> fmt::Result {
    let Ok(count) = fields.u32() else {
        return Err(fmt::Error);
    };
    show_value("count", Ok(count), f)?;
    for _ in 0..count {
        show_value("ext", extension(fields), f)?;
    }
    Ok(())
}

// The string that stands in front, in hexadecimal.
fn hex_string<'a>(fields: &mut Reader<'a>) -> Result<Hex<'a>, ReadRefusal> {
    Ok(Hex(fields.string()?))
}

// The string that stands in front, as letters.
fn letters<'a>(fields: &mut Reader<'a>) -> Result<Ascii<'a>, ReadRefusal> {
    Ok(Ascii(fields.string()?))
}

// The 16 bytes that stand in front.
fn cookie(fields: &mut Reader<'_>) -> Result<CookieHex, ReadRefusal> {
    let high = fields.u64()?;
    let low = fields.u64()?;
    Ok(CookieHex { high, low })
}

// The extension that stands in front.
fn extension<'a>(fields: &mut Reader<'a>) -> Result<Pair<'a>, ReadRefusal> {
    let name = hex_string(fields)?;
    let value = hex_string(fields)?;
    Ok(Pair { name, value })
}

// 16 bytes in hexadecimal, as two numbers.
#[derive(Clone, Copy)]
struct CookieHex {
    high: u64,
    low: u64,
}

impl fmt::Display for CookieHex {
    fn fmt<W: fmt::Write>(&self, f: &mut fmt::Formatter<W>) -> fmt::Result {
        write!(f, "{:016x}{:016x}", self.high, self.low)
    }
}

// The name and the value of an extension.
#[derive(Clone, Copy)]
struct Pair<'a> {
    name: Hex<'a>,
    value: Hex<'a>,
}

impl<'a> fmt::Display for Pair<'a> {
    fn fmt<W: fmt::Write>(&self, f: &mut fmt::Formatter<W>) -> fmt::Result {
        write!(f, "{}:{}", self.name, self.value)
    }
}

// Bytes as pairs of hexadecimal digits.
#[derive(Clone, Copy)]
struct Hex<'a>(&'a [u8]);

impl<'a> fmt::Display for Hex<'a> {
    fn fmt<W: fmt::Write>(&self, f: &mut fmt::Formatter<W>) -> fmt::Result {
        for byte in self.0 {
            write!(f, "{byte:02x}")?;
        }
        Ok(())
    }
}

// Bytes as letters.
#[derive(Clone, Copy)]
struct Ascii<'a>(&'a [u8]);

impl<'a> fmt::Display for Ascii<'a> {
    fn fmt<W: fmt::Write>(&self, f: &mut fmt::Formatter<W>) -> fmt::Result {
        for byte in self.0 {
            let letter = char::from(*byte);
            write!(f, "{letter}")?;
        }
        Ok(())
    }
}
