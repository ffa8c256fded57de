// What is wrong with a word.
use crate::form::Want;
use words::{number, word};

// The reasons.
#[derive(Clone, Copy)]
pub enum Why {
    UnknownCall,
    TooFewWords,
    TooManyWords,
    NoFloat,
    NoWhole,
    TooLarge,
    NoSide,
    NoOrder,
    NoQuote,
    NoVendor,
    NoWeight,
    NoCost,
    TooManyRows,
    Tab,
    CarriageReturn,
    LineTooLong,
}

// The reason for a wrong word: a tab or a carriage return in it comes first.
pub(crate) fn marked(w: &[u8], why: Why) -> Why {
    if w.contains(&b'\t') {
        return Why::Tab;
    }
    if w.contains(&b'\r') {
        return Why::CarriageReturn;
    }
    why
}

// Decimal digits alone, at least one?
fn is_digits(w: &[u8]) -> bool {
    !w.is_empty() && w.iter().all(|b| b.is_ascii_digit())
}

fn whole(w: &[u8], most: u64) -> Result<(), Why> {
    if !is_digits(w) {
        return Err(Why::NoWhole);
    }
    if number::whole(w).is_some_and(|n| n <= most) {
        Ok(())
    } else {
        Err(Why::TooLarge)
    }
}

fn is_signed_digits(w: &[u8]) -> bool {
    match w {
        [b'-', rest @ ..] => is_digits(rest),
        _ => is_digits(w),
    }
}

fn date(w: &[u8]) -> Result<(), Why> {
    if !is_signed_digits(w) {
        return Err(Why::NoWhole);
    }
    number::signed(w).ok_or(Why::TooLarge)?;
    Ok(())
}

fn float(w: &[u8]) -> Result<(), Why> {
    number::float(w).ok_or(Why::NoFloat)?;
    Ok(())
}

fn price(w: &[u8]) -> Result<(), Why> {
    if word::is_name(w, b"-") {
        return Ok(());
    }
    float(w)
}

// What is wrong with a word that has to be one of these names.
fn named(w: &[u8], names: &[&[u8]], why: Why) -> Result<(), Why> {
    if names.iter().any(|name| word::is_name(w, name)) {
        Ok(())
    } else {
        Err(why)
    }
}

// What a part of a row has to be.
#[derive(Clone, Copy)]
enum Part {
    Kind,
    CostName,
    Symbol,
    Float,
    Price,
    Date,
    Revision,
}

// What is wrong with a part. Each kind of part has its own test.
fn wrong_part(s: &[u8], part: Part) -> Result<(), Why> {
    match part {
        Part::Kind => named(s, &[b"mb", b"ms", b"lb", b"ls", b"sb", b"ss"], Why::NoOrder),
        Part::CostName => named(s, &[b"per_share", b"pct_of_value", b"flat"], Why::NoCost),
        Part::Symbol => whole(s, 4294967295),
        Part::Float => float(s),
        Part::Price => price(s),
        Part::Date => date(s),
        Part::Revision => whole(s, 255),
    }
}

// What is wrong with the first of a word's parts that is wrong; `why` where it has not as many parts.
fn row(w: &[u8], parts: &[Part], why: Why) -> Result<(), Why> {
    if word::parts(w) != parts.len() {
        return Err(why);
    }
    for (k, part) in parts.iter().enumerate() {
        wrong_part(word::part(w, k), *part)?;
    }
    Ok(())
}

// Is the word read as a lot: two parts, the first `lot`?
pub(crate) fn is_lot(w: &[u8]) -> bool {
    word::parts(w) == 2 && word::is_name(word::part(w, 0), b"lot")
}

const ORDER: &[Part] = &[Part::Kind, Part::Symbol, Part::Float, Part::Price];

const QUOTE: &[Part] = &[Part::Symbol, Part::Float, Part::Float, Part::Date];

const VENDOR: &[Part] = &[
    Part::Symbol,
    Part::Float,
    Part::Float,
    Part::Date,
    Part::Revision,
];

const WEIGHT: &[Part] = &[Part::Symbol, Part::Float];

const COST: &[Part] = &[Part::CostName, Part::Float];

// What is wrong with a word, by a test for each kind of word, for a program whose log has so many rows.
// Of a word that is read as a lot its number is at most as large as a symbol.
pub(crate) fn wrong(want: Want, w: &[u8], rows: u64) -> Result<(), Why> {
    match want {
        Want::Float => float(w),
        Want::Whole => whole(w, u64::MAX),
        Want::Symbol => whole(w, 4294967295),
        Want::Room => whole(w, 1024),
        Want::Log => whole(w, rows),
        Want::Lot => wrong_part(word::part(w, 1), Part::Symbol),
        Want::Side => named(w, &[b"buy", b"sell"], Why::NoSide),
        Want::Order => row(w, ORDER, Why::NoOrder),
        Want::Quote => row(w, QUOTE, Why::NoQuote),
        Want::Vendor => row(w, VENDOR, Why::NoVendor),
        Want::Weight => row(w, WEIGHT, Why::NoWeight),
        Want::Cost => row(w, COST, Why::NoCost),
    }
}
