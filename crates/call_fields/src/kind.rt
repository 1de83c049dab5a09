// What a line asks for, by its name.
use lines::fields;
use lines::input::{LONGEST, is_ignored};

#[derive(Clone, Copy, PartialEq, Eq)]
pub enum Kind {
    // A blank line or a comment.
    Ignored,
    // A line that is too long, or has no name of those below.
    Unknown,
    Receive,
    Work,
    Drain,
    Offer,
    Withdraw,
    Close,
    Permit,
    Take,
    Piece,
    Reopen,
    Show,
    State,
    Device,
    Peer,
    Setup,
    Output,
    Journal,
}

fn kind_of(name: &[u8]) -> Kind {
    match name {
        b"receive" => Kind::Receive,
        b"work" => Kind::Work,
        b"drain" => Kind::Drain,
        b"offer" => Kind::Offer,
        b"withdraw" => Kind::Withdraw,
        b"close" => Kind::Close,
        b"permit" => Kind::Permit,
        b"take" => Kind::Take,
        b"piece" => Kind::Piece,
        b"reopen" => Kind::Reopen,
        b"show" => Kind::Show,
        b"state" => Kind::State,
        b"device" => Kind::Device,
        b"peer" => Kind::Peer,
        b"setup" => Kind::Setup,
        b"output" => Kind::Output,
        b"journal" => Kind::Journal,
        _ => Kind::Unknown,
    }
}

// What a line without its line end asks for.
pub fn of_line(line: &[u8]) -> Kind {
    if is_ignored(line) {
        return Kind::Ignored;
    }
    if LONGEST < line.len() {
        return Kind::Unknown;
    }
    let end = fields::end_of(line, 0);
    kind_of(&line[..end])
}
