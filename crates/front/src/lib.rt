// The front of 02's ticket 9: pieces of a channel's stream, and at most one unfinished message a channel.
#![tactic(auto)]

ghost use Rattle.std.specs.Prelude.{◌≡◌, ◌*◌, ◌+◌, ◌<◌, ◌≤◌, true, ◌++◌, drop, length, take, eqb};
ghost use Rattle.std.proofs.lemmas.List.Edits.{sets};
ghost use Rattle.wire.specs.BigEndian.{byte_at};
ghost use Rattle.basics.specs.Choice.{pick};
ghost use Rattle.model.specs.Promises.{ReceivePost};
ghost use Rattle.model.specs.Messages.{payload_length};
ghost use Rattle.model.specs.Layout.{channel_count, ds_header_bytes};
ghost use Rattle.front_model.specs.Front.{dropping_at, front_bytes, front_sound, front_sound_at, kept_at, most_kept, most_message, unfinished};
ghost use Rattle.front_model.specs.Promises.{PiecePost, ReopenPost};
ghost use Rattle.front.specs.Changes.{Fronts, with_words};
ghost use Rattle.front.specs.Answers.{given_piece, refused_piece};
ghost use Rattle.front.specs.Next.{Comes, Giving, Keeping};
ghost use Rattle.front.specs.Refusals.{lent_refusal, opening_refusal};
ghost use Rattle.model.specs.Refusals.{refused_by};

use front_model::{
    FrontBytes, FrontWords, MOST_KEPT, MOST_MESSAGE, PART_WORDS, Piece, dropping_of, kept_of,
};
use model::{Answer, CHANNEL_COUNT, DS_HEADER_BYTES, MOST_PAYLOAD, OUTPUT_BYTES, Refusal, State};

// The first bytes of a channel's room.
fn part_of(bytes: &[u8], channel: usize, count: usize) -> &[u8]
    requires { (length bytes.now ≡ front_bytes) × (channel < channel_count) × (count ≤ most_message) }
    ensures { result.now ≡ take count (drop (channel * most_message) bytes.now) }
{
    let start = channel * MOST_MESSAGE;
    &bytes[start..start + count]
}

// Soundness.

// A part under 8 bytes, or "the unfinished beginning of a message with payload_len at most 4,096".
fn is_unfinished(part: &[u8]) -> bool
    ensures { result ≡ unfinished part.now }
{
    if part.len() < DS_HEADER_BYTES {
        return true;
    }
    let payload_len = wire::get32(part, 4) as usize;
    if MOST_PAYLOAD < payload_len {
        return false;
    }
    part.len() < DS_HEADER_BYTES + payload_len
}

// The front of one channel.
fn channel_sound(words: &FrontWords, bytes: &FrontBytes, channel: usize) -> bool
    requires { channel < channel_count }
    ensures { result ≡ front_sound_at (record { words = words.entry.now; bytes = bytes.now }) channel }
{
    let kept = kept_of(words, channel);
    if (MOST_KEPT as u64) < kept {
        return false;
    }
    let dropping = dropping_of(words, channel);
    if dropping == 0 {
        return is_unfinished(part_of(bytes, channel, kept as usize));
    }
    if 1 < dropping {
        return false;
    }
    kept == 0
}

// The fronts of all channels.
fn front_sound(words: &FrontWords, bytes: &FrontBytes) -> bool
    ensures { result ≡ front_sound (record { words = words.entry.now; bytes = bytes.now }) }
{
    for c in 0..CHANNEL_COUNT {
        if !channel_sound(words, bytes, c) {
            return false;
        }
    }
    true
}

// Refusals.

// Those of a piece where the front is sound; `within`: the channel is in range.
fn check_lent(state: &State, words: usize, bytes: usize, within: bool) -> Result<(), Refusal>
    ensures { refused_by result ≡ lent_refusal state.now words bytes within }
{
    soundness::check_lent(state, words)?;
    if bytes < OUTPUT_BYTES {
        return Err(Refusal::ShortOutput);
    }
    if !within {
        return Err(Refusal::OutOfRange);
    }
    Ok(())
}

// Those of a reopening where the front is sound.
fn check_opening(state: &State, channel: usize) -> Result<(), Refusal>
    ensures { refused_by result ≡ opening_refusal state.now channel }
{
    if !soundness::sound(state) {
        return Err(Refusal::Unsound);
    }
    if CHANNEL_COUNT <= channel {
        return Err(Refusal::OutOfRange);
    }
    Ok(())
}

// Changes.

// A channel's two words.
fn set_words(words: &mut FrontWords, channel: usize, kept: u64, dropping: u64)
    requires { channel < channel_count }
    ensures { words.new ≡ with_words words.old channel kept dropping }
{
    words[channel * PART_WORDS] = kept;
    words[channel * PART_WORDS + 1] = dropping;
}

// "until the host reopens that channel's front, which leaves it empty, dropping or not"
pub fn reopen(words: &mut FrontWords, bytes: &FrontBytes, state: &State, channel: usize) -> u64
    ensures { ReopenPost (record { words = words.entry.now; bytes = bytes.now }) state.now channel result (record { words = words.exit.now; bytes = bytes.now }) }
{
    if !front_sound(words, bytes) {
        return Refusal::Unsound.number();
    }
    if let Err(refusal) = check_opening(state, channel) {
        return refusal.number();
    }
    set_words(words, channel, 0, 0);
    0
}

// A piece behind the kept part.

// The byte i of a part and the piece behind it.
fn byte_at(part: &[u8], piece: &[u8], i: usize) -> u64
    requires { i < length part.now + length piece.now }
    ensures { (result ≡ byte_at (part.now ++ piece.now) i) × (result < 256) }
{
    let kept = part.len();
    if i < kept {
        return part[i] as u64;
    }
    piece[i - kept] as u64
}

// payload_len: of one of the two if its four bytes are there, else byte by byte.
fn payload_len(part: &[u8], piece: &[u8]) -> u64
    requires { ds_header_bytes ≤ length part.now + length piece.now }
    ensures { (result ≡ payload_length (part.now ++ piece.now)) × (result < 4294967296) }
{
    let kept = part.len();
    if kept <= 4 {
        return wire::get32(piece, 4 - kept);
    }
    if DS_HEADER_BYTES <= kept {
        return wire::get32(part, 4);
    }
    byte_at(part, piece, 4) * 16777216
        + byte_at(part, piece, 5) * 65536
        + byte_at(part, piece, 6) * 256
        + byte_at(part, piece, 7)
}

// Where a message that is given ends, and 1 where bytes are dropped after it.
#[derive(Drop)]
struct Next {
    end: usize,
    dropping: u64,
}

// The message that a piece ends, if it ends one. "A call takes all bytes, to the end of one message at most": the ends
// are tested in the order of the bytes.
fn next_of(part: &[u8], piece: &[u8]) -> Option<Next>
    requires { (length part.now ≤ most_kept) × (unfinished part.now ≡ true) }
    ensures { Comes part.now piece.now result }
{
    let count = part.len() + piece.len();
    if count < DS_HEADER_BYTES {
        return None;
    }
    let payload_len = payload_len(part, piece) as usize;
    if MOST_PAYLOAD < payload_len {
        return Some(Next {
            end: DS_HEADER_BYTES,
            dropping: 1,
        });
    }
    let end = DS_HEADER_BYTES + payload_len;
    if count < end {
        return None;
    }
    Some(Next { end, dropping: 0 })
}

// Stores bytes from `at` on.
fn copy(bytes: &mut FrontBytes, at: usize, piece: &[u8])
    requires { at + length piece.now ≤ front_bytes }
    ensures { bytes.new ≡ sets bytes.old at piece.now }
{
    // A loop: `copy_from_slice` would leave memmove to what links the library.
    for i in 0..piece.len() {
        bytes[at + i] = piece[i];
    }
}

// "the call is refused with the same number and has taken nothing"
fn refused(refusal: u64) -> Piece
    ensures { result ≡ refused_piece refusal }
{
    Piece {
        refusal,
        taken: 0,
        given: false,
        length: 0,
    }
}

// Gives the agent a message. If it does not refuse, the channel's front keeps none, and drops or not.
fn give(
    words: &mut FrontWords,
    state: &mut State,
    channel: usize,
    message: &[u8],
    dropping: u64,
    journal: &mut [u64],
    out: &mut [u8],
) -> Answer
    requires { channel < channel_count }
    ensures { (ReceivePost state.old journal.old channel message.now out.old result state.new journal.new out.new) × (words.new ≡ pick (eqb result.refusal 0) (with_words words.old channel 0 dropping) words.old) }
{
    let answer = agent::receive(state, channel, message, journal, out);
    if answer.refusal != 0 {
        return answer;
    }
    set_words(words, channel, 0, dropping);
    answer
}

// The agent's answer to a message, as the piece's.
fn given(answer: Answer, taken: usize) -> Piece
    ensures { result ≡ given_piece answer taken }
{
    if answer.refusal != 0 {
        return refused(answer.refusal);
    }
    Piece {
        refusal: 0,
        taken,
        given: true,
        length: answer.length,
    }
}

// Bytes that are dropped are taken.
fn drop_piece(
    words: &FrontWords,
    bytes: &FrontBytes,
    state: &State,
    channel: usize,
    piece: &[u8],
    journal: &[u64],
    out: &[u8],
) -> Piece
    requires { (Fronts (record { words = words.now; bytes = bytes.now }) channel) × (dropping_at (record { words = words.now; bytes = bytes.now }) channel ≡ 0 → ⊥) }
    ensures { PiecePost (record { words = words.entry.now; bytes = bytes.now }) state.now journal.now channel piece.now out.now result (record { words = words.entry.now; bytes = bytes.now }) state.now journal.now out.now }
{
    if let Err(refusal) = check_lent(state, journal.len(), out.len(), true) {
        return refused(refusal.number());
    }
    Piece {
        refusal: 0,
        taken: piece.len(),
        given: false,
        length: 0,
    }
}

// Bytes that end no message are kept.
fn keep_piece(
    words: &mut FrontWords,
    bytes: &mut FrontBytes,
    state: &State,
    channel: usize,
    piece: &[u8],
    journal: &[u64],
    out: &[u8],
) -> Piece
    requires { Keeping (record { words = words.now; bytes = bytes.old }) channel piece.now }
    ensures { PiecePost (record { words = words.entry.now; bytes = bytes.old }) state.now journal.now channel piece.now out.now result (record { words = words.exit.now; bytes = bytes.new }) state.now journal.now out.now }
{
    if let Err(refusal) = check_lent(state, journal.len(), out.len(), true) {
        return refused(refusal.number());
    }
    let kept = kept_of(words, channel) as usize;
    copy(bytes, channel * MOST_MESSAGE + kept, piece);
    set_words(words, channel, (kept + piece.len()) as u64, 0);
    Piece {
        refusal: 0,
        taken: piece.len(),
        given: false,
        length: 0,
    }
}

// A message that the piece has whole is given from the piece.
fn give_whole(
    words: &mut FrontWords,
    bytes: &FrontBytes,
    state: &mut State,
    channel: usize,
    piece: &[u8],
    next: Next,
    journal: &mut [u64],
    out: &mut [u8],
) -> Piece
    requires { (Giving (record { words = words.now; bytes = bytes.now }) channel piece.now next.end next.dropping) × (kept_at (record { words = words.now; bytes = bytes.now }) channel ≡ 0) }
    ensures { PiecePost (record { words = words.entry.now; bytes = bytes.now }) state.old journal.old channel piece.now out.old result (record { words = words.exit.now; bytes = bytes.now }) state.new journal.new out.new }
{
    let end = next.end;
    let answer = give(
        words,
        state,
        channel,
        &piece[..end],
        next.dropping,
        journal,
        out,
    );
    given(answer, end)
}

// A message whose beginning is kept is joined in the channel's room, and given from there. A refused call changes no byte, so the refusal is tested before.
fn give_joined(
    words: &mut FrontWords,
    bytes: &mut FrontBytes,
    state: &mut State,
    channel: usize,
    piece: &[u8],
    next: Next,
    journal: &mut [u64],
    out: &mut [u8],
) -> Piece
    requires { Giving (record { words = words.now; bytes = bytes.old }) channel piece.now next.end next.dropping }
    ensures { PiecePost (record { words = words.entry.now; bytes = bytes.old }) state.old journal.old channel piece.now out.old result (record { words = words.exit.now; bytes = bytes.new }) state.new journal.new out.new }
{
    if let Err(refusal) = soundness::check_action(state, journal.len(), out.len(), true, true) {
        return refused(refusal.number());
    }
    let kept = kept_of(words, channel) as usize;
    let end = next.end;
    let taken = end - kept;
    copy(bytes, channel * MOST_MESSAGE + kept, &piece[..taken]);
    let message = part_of(bytes, channel, end);
    let answer = give(words, state, channel, message, next.dropping, journal, out);
    given(answer, taken)
}

// A piece on a channel that drops none: "A call takes all bytes, to the end of one message at most".
fn take_piece(
    words: &mut FrontWords,
    bytes: &mut FrontBytes,
    state: &mut State,
    channel: usize,
    piece: &[u8],
    journal: &mut [u64],
    out: &mut [u8],
) -> Piece
    requires { (Fronts (record { words = words.now; bytes = bytes.old }) channel) × (dropping_at (record { words = words.now; bytes = bytes.old }) channel ≡ 0) }
    ensures { PiecePost (record { words = words.entry.now; bytes = bytes.old }) state.old journal.old channel piece.now out.old result (record { words = words.exit.now; bytes = bytes.new }) state.new journal.new out.new }
{
    let kept = kept_of(words, channel) as usize;
    let Some(next) = next_of(part_of(bytes, channel, kept), piece) else {
        return keep_piece(words, bytes, state, channel, piece, journal, out);
    };
    if kept == 0 {
        return give_whole(words, bytes, state, channel, piece, next, journal, out);
    }
    give_joined(words, bytes, state, channel, piece, next, journal, out)
}

// The number of the refusal that a test answers, 0 for none.
fn number_of(tested: Result<(), Refusal>) -> u64
    ensures { result ≡ refused_by tested }
{
    match tested {
        Ok(()) => 0,
        Err(refusal) => refusal.number(),
    }
}

// Takes a piece of a channel's stream: the refusal, how many bytes were taken, whether a message was given to the agent, and the reply's length.
pub fn piece(
    words: &mut FrontWords,
    bytes: &mut FrontBytes,
    state: &mut State,
    channel: usize,
    piece: &[u8],
    journal: &mut [u64],
    out: &mut [u8],
) -> Piece
    ensures { PiecePost (record { words = words.entry.now; bytes = bytes.old }) state.old journal.old channel piece.now out.old result (record { words = words.exit.now; bytes = bytes.new }) state.new journal.new out.new }
{
    if !front_sound(words, bytes) {
        return refused(Refusal::Unsound.number());
    }
    if CHANNEL_COUNT <= channel {
        return refused(number_of(check_lent(state, journal.len(), out.len(), false)));
    }
    if dropping_of(words, channel) != 0 {
        return drop_piece(words, bytes, state, channel, piece, journal, out);
    }
    take_piece(words, bytes, state, channel, piece, journal, out)
}
