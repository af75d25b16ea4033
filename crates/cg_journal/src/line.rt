//! The line of an event, in pieces.

ghost use Rattle.std.specs.Prelude.{◌≡◌, ◌++◌, ◌∷◌, [], ℕ, ◌⊎◌, ◌^◌, ◌-◌, min, map, take, codes, length, OnOk, OnErr, IfOk, IfErr, MatchResult, string_bytes};
ghost use Rattle.std.specs.List.{flat_map};
ghost use Rattle.std.specs.Io.KnownBytes.{Appends};
ghost use Rattle.hex.specs.Hex.{encode_lower};
ghost use Rattle.cg_types.specs.declared.fault.Fault.TheVariants as faults;
ghost use Rattle.cg_links.specs.Counted.{link_of, IsFlushed, KeepsCounts, CountsFailed, CountsIdle};
ghost use Rattle.cg_messages.specs.Borrowed.{borrowed_message};
ghost use Rattle.cg_journal.specs.Text.{text_digits, frame_digits, further_word, set_line, remove_line, tick_line, syn_line, ack_line, ack2_line, event_line, joined};
ghost use Rattle.cg_journal.specs.Written.{Writes, WritesAll, BreaksOff};

use cg_core::Event;
use cg_frames::{BorrowedMessage, encode_borrowed};
use cg_links::{Counted, write_bytes};
use cg_types::{Fault, StateKey, StateText};
use std::alloc::{AllocError, Global};
use std::fmt::Write as _;
use std::io::Write;
use std::marker::Model;

/// The most bytes of a frame whose digits stand in one piece.
const PIECE_BYTES: usize = 32_768;

/// The line of an event. The digits of a long frame, which has up to 4.2 MB, stand in pieces of 64 KiB: so what is freed
/// behind it goes back to the system, or serves what is small.
#[derive(Drop)]
pub struct EventLine {
    pieces: Vec<String>,
}

/// A contract sees the bytes of the line.
impl Model for EventLine {
    ghost use Rattle.std.specs.Prelude.{ℕ, List, map, string_bytes};
    ghost use Rattle.cg_journal.specs.Text.{joined};

    ghost Value = { List ℕ };

    ghost view = { λ line. joined (map (λ s. string_bytes s) line.pieces.items) };
}

// Adds bytes in hexadecimal digits.
fn add_digits(alloc: Global, text: &mut String, bytes: &[u8]) -> Result<(), AllocError>
    ensures { OnOk result (string_bytes text.new ≡ string_bytes text.old ++ encode_lower bytes.now) }
{
    let digits = hex::encode(alloc, bytes)?;
    text.push_str(digits.as_str())
}

fn add_text_digits(alloc: Global, text: &mut String, bytes: &[u8]) -> Result<(), AllocError>
    ensures { OnOk result (string_bytes text.new ≡ string_bytes text.old ++ text_digits bytes.now) }
{
    if bytes.is_empty() {
        return text.push_str("-");
    }
    add_digits(alloc, text, bytes)
}

#[tactic(auto, unfolding(crate::specs::Text::further_word))]
fn add_further_word(text: &mut String, word: u64) -> Result<(), AllocError>
    ensures { OnOk result (string_bytes text.new ≡ string_bytes text.old ++ further_word word) }
{
    write!(text, " {word}")
}

fn add_further_words(text: &mut String, words: &[u64]) -> Result<(), AllocError>
    ensures { OnOk result (string_bytes text.new ≡ string_bytes text.old ++ flat_map further_word words.now) }
{
    for word in words {
        add_further_word(text, *word)?;
    }
    Ok(())
}

fn line_feed(alloc: Global) -> Result<String, AllocError>
    ensures { IfOk result (λ text. string_bytes text ≡ codes "\n") }
{
    let mut text = String::new(alloc);
    text.push_str("\n")?;
    Ok(text)
}

// Adds pieces of the digits of bytes.
fn add_pieces(alloc: Global, pieces: &mut Vec<String>, bytes: &[u8]) -> Result<(), AllocError>
    ensures { OnOk result (joined (map (λ s. string_bytes s) pieces.new.items)
        ≡ joined (map (λ s. string_bytes s) pieces.old.items) ++ encode_lower bytes.now) }
{
    let mut rest = bytes;
    while !rest.is_empty() {
        let (front, behind) = rest.split_at(rest.len().min(PIECE_BYTES));
        let digits = hex::encode(alloc, front)?;
        pieces.push(digits)?;
        rest = behind;
    }
    Ok(())
}

// Writes pieces, one after the other.
fn write_pieces<W: Write>(writer: &mut Counted<W>, pieces: &[String]) -> Result<(), Fault>
    ensures { MatchResult result
        (λ _. WritesAll (W.contents (link_of writer.old)) (W.contents (link_of writer.new)) writer.old writer.new
        (map (λ s. string_bytes s) pieces.now))
        (λ f. BreaksOff (W.contents (link_of writer.old)) (W.contents (link_of writer.new)) writer.old writer.new
        (map (λ s. string_bytes s) pieces.now) f) }
{
    for piece in pieces {
        match write_bytes(writer, piece.as_bytes()) {
            Ok(()) => {}
            Err(fault) => return Err(fault),
        }
    }
    Ok(())
}

impl EventLine {
    // A line of one piece.
    fn of(alloc: Global, text: String) -> Result<EventLine, AllocError>
        ensures { IfOk result (λ line. line ≡ string_bytes text) }
    {
        let mut pieces = Vec::new(alloc);
        pieces.push(text)?;
        Ok(EventLine { pieces })
    }

    fn of_word(alloc: Global, word: &str) -> Result<EventLine, AllocError>
        ensures { IfOk result (λ line. line ≡ word.now ++ codes "\n") }
    {
        let mut text = String::new(alloc);
        text.push_str(word)?;
        text.push_str("\n")?;
        EventLine::of(alloc, text)
    }

    #[tactic(auto, unfolding(crate::specs::Text::set_line))]
    fn of_set(alloc: Global, key: StateKey, value: &StateText) -> Result<EventLine, AllocError>
        ensures { IfOk result (λ line. line ≡ set_line key value.now) }
    {
        let key = key.get();
        let mut text = String::new(alloc);
        write!(text, "set {key} ")?;
        add_text_digits(alloc, &mut text, value.as_str().as_bytes())?;
        text.push_str("\n")?;
        EventLine::of(alloc, text)
    }

    #[tactic(auto, unfolding(crate::specs::Text::remove_line))]
    fn of_remove(alloc: Global, key: StateKey) -> Result<EventLine, AllocError>
        ensures { IfOk result (λ line. line ≡ remove_line key) }
    {
        let key = key.get();
        let mut text = String::new(alloc);
        writeln!(text, "remove {key}")?;
        EventLine::of(alloc, text)
    }

    #[tactic(auto, unfolding(crate::specs::Text::tick_line))]
    fn of_tick(alloc: Global, now: u64, words: &[u64]) -> Result<EventLine, AllocError>
        ensures { IfOk result (λ line. line ≡ tick_line now words.now) }
    {
        let mut text = String::new(alloc);
        write!(text, "tick {now}")?;
        add_further_words(&mut text, words)?;
        text.push_str("\n")?;
        EventLine::of(alloc, text)
    }

    // The line that begins so and ends with the digits of a frame: one piece if the frame is short.
    fn with_frame(alloc: Global, begun: String, frame: &[u8]) -> Result<EventLine, AllocError>
        ensures { IfOk result (λ line. line ≡ string_bytes begun ++ (encode_lower frame.now ++ codes "\n")) }
    {
        let mut text = begun;
        if frame.len() <= PIECE_BYTES {
            add_digits(alloc, &mut text, frame)?;
            text.push_str("\n")?;
            return EventLine::of(alloc, text);
        }
        let mut pieces = Vec::new(alloc);
        pieces.push(text)?;
        add_pieces(alloc, &mut pieces, frame)?;
        pieces.push(line_feed(alloc)?)?;
        Ok(EventLine { pieces })
    }

    #[tactic(auto, unfolding(crate::specs::Text::syn_line))]
    fn of_syn(alloc: Global, message: BorrowedMessage<'_>) -> Result<EventLine, AllocError>
        ensures { IfOk result (λ line. line ≡ syn_line (borrowed_message message.entry)) }
    {
        let frame = encode_borrowed(alloc, message)?;
        let mut text = String::new(alloc);
        text.push_str("syn ")?;
        EventLine::with_frame(alloc, text, frame.as_slice())
    }

    #[tactic(auto, unfolding(crate::specs::Text::ack_line))]
    fn of_ack(
        alloc: Global,
        now: u64,
        message: BorrowedMessage<'_>,
    ) -> Result<EventLine, AllocError>
        ensures { IfOk result (λ line. line ≡ ack_line now (borrowed_message message.entry)) }
    {
        let frame = encode_borrowed(alloc, message)?;
        let mut text = String::new(alloc);
        write!(text, "ack {now} ")?;
        EventLine::with_frame(alloc, text, frame.as_slice())
    }

    #[tactic(auto, unfolding(crate::specs::Text::ack2_line))]
    fn of_ack2(
        alloc: Global,
        now: u64,
        message: BorrowedMessage<'_>,
    ) -> Result<EventLine, AllocError>
        ensures { IfOk result (λ line. line ≡ ack2_line now (borrowed_message message.entry)) }
    {
        let frame = encode_borrowed(alloc, message)?;
        let mut text = String::new(alloc);
        write!(text, "ack2 {now} ")?;
        EventLine::with_frame(alloc, text, frame.as_slice())
    }

    /// Makes the line of an event.
    pub fn new(alloc: Global, event: &Event) -> Result<EventLine, AllocError>
        ensures { IfOk result (λ line. line ≡ event_line event.now) }
    {
        match event {
            Event::Beat => EventLine::of_word(alloc, "beat"),
            Event::Set { key, text } => EventLine::of_set(alloc, *key, text),
            Event::Remove { key } => EventLine::of_remove(alloc, *key),
            Event::Tick { now, words } => EventLine::of_tick(alloc, *now, words),
            Event::Opening => EventLine::of_word(alloc, "open"),
            Event::Syn { m } => EventLine::of_syn(alloc, BorrowedMessage::Syn(m)),
            Event::Ack { now, m } => EventLine::of_ack(alloc, *now, BorrowedMessage::Ack(m)),
            Event::Ack2 { now, m } => EventLine::of_ack2(alloc, *now, BorrowedMessage::Ack2(m)),
        }
    }

    /// The number of its bytes, up to the greatest number.
    pub fn length(&self) -> usize
        ensures { result ≡ min (length self.now) (2 ^ 64 - 1) }
    {
        let mut length = 0usize;
        for piece in &self.pieces {
            length = length.saturating_add(piece.len());
        }
        length
    }

    // Writes the line. It finds all memory that it wants before.
    pub(crate) fn write<W: Write>(&self, writer: &mut Counted<W>) -> Result<(), Fault>
        ensures { Writes (W.contents (link_of writer.old)) (W.contents (link_of writer.new))
            writer.old writer.new (self.now ∷ []) result }
    {
        write_pieces(writer, &self.pieces)
    }

    /// Writes the line, and flushes the writer. It returns `WriteFault` if that failed, or if the writer took none of
    /// the bytes left; then a prefix of the line was written. It takes no memory.
    pub fn write_and_flush<W: Write>(&self, writer: &mut Counted<W>) -> Result<(), Fault>
        ensures ok { OnOk result (Appends (W.contents (link_of writer.old)) (W.contents (link_of writer.new)) self.now) }
        ensures kept { OnOk result (KeepsCounts writer.old writer.new) }
        ensures flushed { OnOk result (IsFlushed writer.new) }
        ensures front { OnErr result ((n : ℕ)
            × Appends (W.contents (link_of writer.old)) (W.contents (link_of writer.new)) (take n self.now)) }
        ensures fault { IfErr result (λ f. f ≡ faults.WriteFault) }
        ensures caused { OnErr result (CountsFailed writer.old writer.new ⊎ CountsIdle writer.old writer.new) }
    {
        match write_pieces(writer, &self.pieces) {
            Ok(()) => {}
            Err(fault) => return Err(fault),
        }
        match writer.flush() {
            Ok(()) => Ok(()),
            Err(_) => Err(Fault::WriteFault),
        }
    }
}
