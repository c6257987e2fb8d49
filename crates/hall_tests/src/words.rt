//! What the words of a command line ask for.
use crate::turn::Manner;

/// How a value is kept.
#[derive(Clone, Copy)]
pub enum Keeper {
    Hall,
    Lock,
}

/// The value at which threads take turns.
#[derive(Clone, Copy)]
pub enum Size {
    /// A tally, of some 48 bytes, as it stands.
    Small,
    /// A tally in a box.
    Boxed,
    /// A tally of some 4 KB in a box.
    Wide,
}

/// Turns that are timed.
#[derive(Clone, Copy)]
pub struct Race {
    pub keeper: Keeper,
    pub size: Size,
    pub manner: Manner,
}

/// What is asked for.
#[derive(Clone, Copy)]
pub enum Ask {
    /// Many threads take turns, and sleep inside some of them.
    Crowd,
    Time(Race),
}

/// What the words ask for, if anything.
pub fn ask_of(words: &[String]) -> Option<Ask> {
    match words {
        [word] => crowd_of(word.as_str()),
        [keeper, size, threads, turns] => {
            let count = threads.parse::<u8>().ok()?;
            race_of(keeper.as_str(), size.as_str(), count, turns.as_str())
        }
        _ => None,
    }
}

fn crowd_of(word: &str) -> Option<Ask> {
    if word == "crowd" {
        Some(Ask::Crowd)
    } else {
        None
    }
}

fn race_of(keeper: &str, size: &str, threads: u8, turns: &str) -> Option<Ask> {
    let turns = turns.parse::<u32>().ok()?;
    Some(Ask::Time(Race {
        keeper: keeper_of(keeper)?,
        size: size_of(size)?,
        manner: Manner {
            threads,
            turns,
            naps: 0,
        },
    }))
}

fn keeper_of(word: &str) -> Option<Keeper> {
    match word {
        "hall" => Some(Keeper::Hall),
        "lock" => Some(Keeper::Lock),
        _ => None,
    }
}

fn size_of(word: &str) -> Option<Size> {
    match word {
        "small" => Some(Size::Small),
        "boxed" => Some(Size::Boxed),
        "wide" => Some(Size::Wide),
        _ => None,
    }
}
