// Writing feed records into a lent buffer, from its first byte.
#![tactic(auto)]

ghost use Rattle.std.specs.Prelude.{◌≡◌, [], ◌++◌, ◌+◌, ◌*◌, ◌≤◌, ◌<◌, length, IfOk, IfErr};
ghost use Rattle.std.specs.List.{flat_map};
ghost use Rattle.lists.specs.Put.{put};
ghost use Rattle.feed.specs.Number.{bytes};
ghost use Rattle.feed_write.specs.Writing.{writing_seen, record_writing, pair_writing};

use feed::{CLOSE, ENTRY, MARK, NOTE, PAIR, Record};
use lines::put_text;
use pairing::{Entry, Pair};
use refusals::Refusal;

// The check of a stream.
fn check_stream(stream: u16) -> Result<(), Refusal>
    ensures known { IfOk result (λ _. stream < 2) }
    ensures other { IfErr result (λ refusal. (refusal ≡ Refusal.Stream) × (2 ≤ stream)) }
{
    if 2 <= stream {
        return Err(Refusal::Stream);
    }
    Ok(())
}

// The length and the kind of a record at the buffer's start, if the buffer has room for the record; answers its whole length, the two length bytes included.
fn put_head(buf: &mut [u8], size: u16, kind: u16) -> Result<usize, Refusal>
    requires { 2 ≤ size }
    ensures room { IfOk result (λ whole. (whole ≡ 2 + size) × (whole ≤ length buf.old) × (buf.new ≡ put 0 (bytes 2 size ++ bytes 2 kind) buf.old)) }
    ensures short { IfErr result (λ refusal. (refusal ≡ Refusal.Buffer) × (length buf.old < 2 + size) × (buf.new ≡ buf.old)) }
{
    let whole = 2 + usize::from(size);
    if buf.len() < whole {
        return Err(Refusal::Buffer);
    }
    put_text(buf, 0, &size.to_le_bytes());
    put_text(buf, 2, &kind.to_le_bytes());
    Ok(whole)
}

// Numbers of four bytes each from a place on, one after the other.
fn put_numbers(buf: &mut [u8], at: usize, numbers: &[u32])
    requires { at + 4 * length numbers.now ≤ length buf.old }
    ensures { buf.new ≡ put at (flat_map (bytes 4) numbers.now) buf.old }
{
    for (i, number) in numbers.iter().enumerate() {
        put_text(buf, at + 4 * i, &number.to_le_bytes());
    }
}

// Writes an entry of a stream at the start of a lent buffer; answers the record's whole length.
#[tactic(auto, unfolding(crate::specs::Writing::record_writing, crate::specs::Writing::writing, feed::specs::Record::stream_known, feed::specs::Record::record_bytes))]
pub fn write_entry(buf: &mut [u8], stream: u16, entry: Entry) -> Result<usize, Refusal>
    ensures { (writing_seen result, buf.new) ≡ record_writing (Record.Entry stream «entry») [] buf.old }
{
    check_stream(stream)?;
    let whole = put_head(buf, ENTRY.longest, ENTRY.number)?;
    put_text(buf, 4, &stream.to_le_bytes());
    let span = entry.span;
    put_numbers(buf, 6, &[span.start, span.end, entry.key, entry.value]);
    Ok(whole)
}

// Writes a mark of a stream.
#[tactic(auto, unfolding(crate::specs::Writing::record_writing, crate::specs::Writing::writing, feed::specs::Record::stream_known, feed::specs::Record::record_bytes))]
pub fn write_mark(buf: &mut [u8], stream: u16, time: u32) -> Result<usize, Refusal>
    ensures { (writing_seen result, buf.new) ≡ record_writing (Record.Mark stream time) [] buf.old }
{
    check_stream(stream)?;
    let whole = put_head(buf, MARK.longest, MARK.number)?;
    put_text(buf, 4, &stream.to_le_bytes());
    put_numbers(buf, 6, &[time]);
    Ok(whole)
}

// Writes the close of a stream.
#[tactic(auto, unfolding(crate::specs::Writing::record_writing, crate::specs::Writing::writing, feed::specs::Record::stream_known, feed::specs::Record::record_bytes))]
pub fn write_close(buf: &mut [u8], stream: u16) -> Result<usize, Refusal>
    ensures { (writing_seen result, buf.new) ≡ record_writing (Record.Close stream) [] buf.old }
{
    check_stream(stream)?;
    let whole = put_head(buf, CLOSE.longest, CLOSE.number)?;
    put_text(buf, 4, &stream.to_le_bytes());
    Ok(whole)
}

// Writes a note.
#[tactic(auto, unfolding(crate::specs::Writing::record_writing, crate::specs::Writing::writing, feed::specs::Record::stream_known, feed::specs::Record::record_bytes))]
pub fn write_note(buf: &mut [u8], text: &[u8]) -> Result<usize, Refusal>
    ensures { (writing_seen result, buf.new) ≡ record_writing (Record.Note (length text.now)) text.now buf.old }
{
    if 64 < text.len() {
        return Err(Refusal::Length);
    }
    let whole = put_head(buf, 2 + text.len() as u16, NOTE.number)?;
    put_text(buf, 4, text);
    Ok(whole)
}

// Writes a pair.
#[tactic(auto, unfolding(crate::specs::Writing::pair_writing, crate::specs::Writing::writing, feed::specs::Record::pair_bytes, pairing::specs::Numbers::pair_numbers))]
pub fn write_pair(buf: &mut [u8], pair: Pair) -> Result<usize, Refusal>
    ensures { (writing_seen result, buf.new) ≡ pair_writing «pair» buf.old }
{
    let whole = put_head(buf, PAIR.longest, PAIR.number)?;
    let Pair { meeting, a, b } = pair;
    put_numbers(
        buf,
        4,
        &[
            meeting.start,
            meeting.end,
            a.ordinal,
            b.ordinal,
            a.key,
            b.key,
            a.value,
            b.value,
        ],
    );
    Ok(whole)
}
