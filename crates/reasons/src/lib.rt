// Why a line is malformed: the first of its words that is not what the form of its call wants there,
// and a reason of a fixed list, which docs/SCENARIOS.md has. It is asked of malformed lines alone.
#![tactic(auto)]

pub mod form;
pub mod wrong;

use calls::verb;
use calls::verb::Verb;
use form::Want;
use wrong::Why;

// The word of the line that is wrong, the call's name being the first, and the reason.
#[derive(Clone, Copy)]
pub struct Reason {
    pub word: u64,
    pub why: Why,
}

// A line that does not fit: no word of it is wrong, which 0 tells (docs/SCENARIOS.md).
pub fn too_long() -> Reason {
    Reason {
        word: 0,
        why: Why::LineTooLong,
    }
}

// Where the reading of a line stands: at the fixed word of the number `k`, which has to be what `want`
// says, or, behind the last of them, in the list of the number `list`, behind `count` rows.
#[derive(Clone, Copy)]
enum Place {
    Word { k: usize, want: Want },
    Row { list: usize, count: usize },
}

impl Place {
    // The fixed word of this number; behind the last of them the first list.
    fn fixed(verb: Verb, k: usize) -> Place {
        match form::fixed(verb, k) {
            Some(want) => Place::Word { k, want },
            None => Place::Row { list: 0, count: 0 },
        }
    }

    // The place at which a word is read: behind an optional word that it is not.
    fn of_word(self, verb: Verb, w: &[u8]) -> Place {
        match self {
            Place::Word { k, want } if form::is_optional(want) && !wrong::is_lot(w) => {
                Place::fixed(verb, k.saturating_add(1))
            }
            _ => self,
        }
    }

    // What is wrong with the word at this place.
    fn wrong(self, verb: Verb, w: &[u8], rows: u64) -> Result<(), Why> {
        match self {
            Place::Word { want, .. } => wrong::wrong(want, w, rows),
            Place::Row { list, count } => wrong_row(verb, list, count, w, rows),
        }
    }

    // The place behind a word with which nothing is wrong.
    fn behind(self, verb: Verb, w: &[u8]) -> Place {
        match self {
            Place::Word { k, .. } => Place::fixed(verb, k.saturating_add(1)),
            Place::Row { list, .. } if ends_list(verb, list, w) => Place::Row {
                list: list.saturating_add(1),
                count: 0,
            },
            Place::Row { list, count } => Place::Row {
                list,
                count: count.saturating_add(1),
            },
        }
    }
}

// Is the word the `/` that ends this list, before another one?
fn ends_list(verb: Verb, list: usize, w: &[u8]) -> bool {
    matches!(w, b"/") && form::row(verb, list.saturating_add(1)).is_some()
}

// What is wrong with a word of a list, behind so many rows.
fn wrong_row(verb: Verb, list: usize, count: usize, w: &[u8], rows: u64) -> Result<(), Why> {
    let want = form::row(verb, list).ok_or(Why::TooManyWords)?;
    if ends_list(verb, list, w) {
        return Ok(());
    }
    if count >= form::most(want) {
        return Err(Why::TooManyRows);
    }
    wrong::wrong(want, w, rows)
}

// The reason for a malformed line, for a program whose log has so many rows: the first word behind the
// call's name that is wrong; where there is none, one is missing.
pub fn of_line(line: &[u8], rows: u64) -> Reason {
    let mut words = line.split(|b| *b == b' ').filter(|w| !w.is_empty());
    let name = words.next().unwrap_or(b"");
    let verb = verb::named(name);
    if verb == Verb::Malformed {
        return Reason {
            word: 1,
            why: wrong::marked(name, Why::UnknownCall),
        };
    }
    let mut place = Place::fixed(verb, 0);
    // Counted by hand, since the place behind the last word is told too.
    let mut n: u64 = 2;
    for w in words {
        place = place.of_word(verb, w);
        if let Err(why) = place.wrong(verb, w, rows) {
            return Reason {
                word: n,
                why: wrong::marked(w, why),
            };
        }
        place = place.behind(verb, w);
        n = n.saturating_add(1);
    }
    Reason {
        word: n,
        why: Why::TooFewWords,
    }
}
