// The tracks of a field 4FH, Track Record Ready, in words.
use crate::refusals::Refusal;
use std::fmt;
use std::fmt::Display;
use tracks::TrackSet;
use universal::SysexError;

// The tracks are 1 to 58, and the positions below them 0 to 4.
const LAST_TRACK: u8 = 58;

const LOWER: u8 = 5;

// What stands before the next of so many words in a list: a blank, a comma, or "and".
fn joint(listed: u32, count: u32) -> &'static str {
    if listed == 0 {
        return " ";
    }
    if listed.saturating_add(1) < count {
        return ", ";
    }
    " and "
}

// "tracks 1, 2 and 17 armed".
#[derive(Clone, Copy)]
struct Armed(TrackSet);

impl Display for Armed {
    fn fmt<W: fmt::Write>(&self, f: &mut fmt::Formatter<W>) -> fmt::Result {
        let count = self.0.armed_count();
        match count {
            0 => return f.write_str("no track armed"),
            1 => f.write_str("track")?,
            _ => f.write_str("tracks")?,
        }
        let mut listed = 0;
        for track in 1..=LAST_TRACK {
            if let Ok(true) = self.0.is_armed(track) {
                write!(f, "{}{track}", joint(listed, count))?;
                listed = listed.saturating_add(1);
            }
        }
        f.write_str(" armed")
    }
}

// What a position below the tracks stands for.
fn lower_name(position: u8) -> &'static str {
    match position {
        0 => "video",
        1 => "the reserved position",
        2 => "time code",
        3 => "auxiliary A",
        _ => "auxiliary B",
    }
}

// "; time code on", or nothing.
#[derive(Clone, Copy)]
struct Lower(TrackSet);

impl Lower {
    fn count(self) -> u32 {
        let mut count: u32 = 0;
        for position in 0..LOWER {
            if self.0.has_position(position) {
                count = count.saturating_add(1);
            }
        }
        count
    }
}

impl Display for Lower {
    fn fmt<W: fmt::Write>(&self, f: &mut fmt::Formatter<W>) -> fmt::Result {
        let count = self.count();
        if count == 0 {
            return Ok(());
        }
        f.write_str(";")?;
        let mut listed = 0;
        for position in 0..LOWER {
            if self.0.has_position(position) {
                write!(f, "{}{}", joint(listed, count), lower_name(position))?;
                listed = listed.saturating_add(1);
            }
        }
        f.write_str(" on")
    }
}

// What the field shows: its set of tracks, or a refusal.
#[derive(Clone, Copy)]
pub(crate) struct Ready(pub(crate) Result<TrackSet, SysexError>);

impl Display for Ready {
    fn fmt<W: fmt::Write>(&self, f: &mut fmt::Formatter<W>) -> fmt::Result {
        match self.0 {
            Ok(set) => write!(f, "{}{}", Armed(set), Lower(set)),
            Err(error) => write!(f, "{}", Refusal(error)),
        }
    }
}
