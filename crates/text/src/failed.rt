// What keeps a run from its end.
use std::fmt::InlineText;
use std::{fmt, io};

#[derive(Drop)]
pub enum Failed {
    Input(io::Error),
    Output(io::Error),
}

// What fails is a write, where nothing else is said.
impl From<io::Error> for Failed {
    fn from(why: io::Error) -> Failed {
        Failed::Output(why)
    }
}

// The system's words, without the number that std adds to them.
fn write_words<W: fmt::Write>(f: &mut fmt::Formatter<W>, why: &io::Error) -> fmt::Result {
    let text = InlineText::<128>::of(why);
    let words = text
        .as_str()
        .split_once(" (os error ")
        .map_or(text.as_str(), |parts| parts.0);
    write!(f, "{words}")
}

impl fmt::Display for Failed {
    fn fmt<W: fmt::Write>(&self, f: &mut fmt::Formatter<W>) -> fmt::Result {
        match self {
            Failed::Input(why) => {
                write!(f, "standard input: ")?;
                write_words(f, why)
            }
            Failed::Output(why) => {
                write!(f, "standard output: ")?;
                write_words(f, why)
            }
        }
    }
}

// A run that did not come to its end is told on standard error.
pub fn tell(rt: &impl Eprint, ended: Result<(), Failed>) {
    if let Err(why) = ended {
        let _ = eprintln!(rt; "rehearse: {why}");
    }
}
