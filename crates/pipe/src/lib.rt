// Standard input through a window, standard output through a buffer: all that a program does round its steps. It knows no join and no steps.
// A program's loop is a step, which is shown what is not used of the window and puts out behind what is filled of the buffer, and one call by what the step came to: `refill`, `go_on` or `finish`.
// A program lends its standard streams to each call; any reader and any writer will do. A read or a write that fails ends the run: the call answers its error.
#![tactic(auto)]

ghost use Rattle.std.specs.Prelude.{◌≡◌, true, ◌++◌, ◌+◌, ◌-◌, ◌≤◌, ◌<◌, ◌⊎◌, length, take, drop, IfOk, OnOk, OnErr};
ghost use Rattle.std.specs.Io.KnownBytes.{Appends, Consumes, IsAtEnd, Keeps};
ghost use Rattle.std.proofs.Math.Seq.{slice};
ghost use Rattle.pipe.specs.Flow.{Flowing, Refilled, begun, gone, told, unwritten, written_bytes};

use std::io;
use std::io::{Read, Write};

// How far a program is with its input and what it prints.
#[derive(Clone, Copy, Debug, PartialEq, Eq)]
pub struct Flow {
    // How many bytes of the input may be used, and how many of them are left.
    pub limit: usize,
    pub left: usize,
    // Which bytes of the window are not used yet, and whether the input is known to end behind them.
    pub at: usize,
    pub end: usize,
    pub ended: bool,
    // How many bytes of the buffer are filled and not written yet.
    pub filled: usize,
}

// What was put out, written. A write that fails is told apart from a read that does by the words of its error.
fn write_out<W: Write>(output: &mut W, text: &[u8]) -> io::Result<()>
    ensures { OnOk result (Appends (W.contents output.old) (W.contents output.new) text.now) }
{
    output
        .write_all(text)
        .map_err(|e| io::Error::new(e.kind(), "a write failed"))
}

// A buffer that has no room for another step is written. Answers how much of it is filled then.
fn make_room<W: Write>(output: &mut W, out: &[u8], filled: usize, room: usize) -> io::Result<usize>
    requires { (filled ≤ length out.now) × (room ≤ length out.now) }
    ensures has_room { IfOk result (λ n. (n + room ≤ length out.now) × (n ≡ unwritten (length out.now) room filled)) }
    ensures written { OnOk result (Appends (W.contents output.old) (W.contents output.new) (written_bytes out.now room filled)) }
    ensures was_full { OnErr result (length out.now - filled < room) }
{
    if out.len() - filled < room {
        write_out(output, &out[..filled])?;
        return Ok(0);
    }
    Ok(filled)
}

// What is not used moved to the front, and one read behind it, which asks for no more than may still be read. Answers how many bytes came.
#[tactic(auto, using(crate::proofs::Read::consumes_part))]
fn read_behind<R: Read>(
    input: &mut R,
    window: &mut [u8],
    at: usize,
    end: usize,
    left: usize,
) -> io::Result<usize>
    requires { (at ≤ end) × (end ≤ length window.old) × (end - at ≤ left) }
    ensures result_in_bounds { IfOk result (λ got. ((end - at) + got ≤ length window.new) × ((end - at) + got ≤ left)) }
    ensures window_after { take (end - at) window.new ≡ slice at end window.old }
    ensures consumed { IfOk result (λ got. Consumes (R.remaining input.old) (R.remaining input.new) (slice (end - at) ((end - at) + got) window.new)) }
    ensures at_end { IfOk result (λ got. got ≡ 0 → end - at < left → end - at < length window.old → IsAtEnd (R.remaining input.new)) }
    ensures input_kept { OnErr result (Keeps (R.remaining input.old) (R.remaining input.new)) }
{
    window.copy_within(at..end, 0);
    let most = left.min(window.len());
    input.read(&mut window[end - at..most])
}

// Where a feed stopped that did not end in `done`, for standard error: the number of the record that comes next, the byte at which it begins, and the last line again.
fn tell_place<E: Write>(errors: &mut E, records: u32, byte: usize, last: &[u8]) -> io::Result<()>
    ensures { OnOk result (Appends (E.contents errors.old) (E.contents errors.new) (told records byte last.now)) }
{
    if let [] | [b'd', ..] = last {
        return Ok(());
    }
    write!(errors, "record {} byte {byte}: ", u64::from(records) + 1)?;
    errors.write_all(last)
}

impl Flow {
    // Nothing read, nothing put out.
    pub fn begun(limit: u32) -> Self
        ensures { result ≡ begun limit }
    {
        let limit = limit as usize;
        Flow {
            limit,
            left: limit,
            at: 0,
            end: 0,
            ended: false,
            filled: 0,
        }
    }

    // After a step that went on: what it used and put out is counted, and the buffer written if it has no room for another.
    pub fn go_on<W: Write>(
        mut self,
        output: &mut W,
        out: &[u8],
        used: usize,
        filled: usize,
        room: usize,
    ) -> io::Result<Self>
        requires { (self.at + used ≤ self.end) × (used ≤ self.left) × (self.filled + filled ≤ length out.now) × (room ≤ length out.now) }
        ensures gone { IfOk result (λ next. (next.filled + room ≤ length out.now) × (next ≡ gone (length out.now) room self used filled)) }
        ensures written { OnOk result (Appends (W.contents output.old) (W.contents output.new) (written_bytes out.now room (self.filled + filled))) }
        ensures was_full { OnErr result (length out.now - (self.filled + filled) < room) }
    {
        self.left -= used;
        self.at += used;
        self.filled = make_room(output, out, self.filled + filled, room)?;
        Ok(self)
    }

    // After a step that was shown too little: it waits for input with nothing left to write. Where the read or the write fails, no byte of the input is lost, and what is not used still stands in the window, where it stood or at the front.
    pub fn refill<R: Read, W: Write>(
        mut self,
        input: &mut R,
        output: &mut W,
        window: &mut [u8],
        out: &[u8],
    ) -> io::Result<Self>
        requires { (Flowing self (length window.old)) × (self.filled ≤ length out.now) }
        ensures refilled { IfOk result (Refilled self (length window.new)) }
        ensures window_after { OnOk result (take (self.end - self.at) window.new ≡ slice self.at self.end window.old) }
        ensures none_lost { IfOk result (λ next. self.end - self.at ≤ next.end) }
        ensures consumed { IfOk result (λ next. Consumes (R.remaining input.old) (R.remaining input.new) (slice (self.end - self.at) next.end window.new)) }
        ensures at_end { IfOk result (λ next. next.ended ≡ true → self.end - self.at < self.left → self.end - self.at < length window.old → IsAtEnd (R.remaining input.new)) }
        ensures written { OnOk result (Appends (W.contents output.old) (W.contents output.new) (take self.filled out.now)) }
        ensures input_kept { OnErr result (Keeps (R.remaining input.old) (R.remaining input.new)) }
        ensures unused_kept { OnErr result ((window.new ≡ window.old) ⊎ (take (self.end - self.at) window.new ≡ slice self.at self.end window.old)) }
    {
        let filled = self.filled;
        write_out(output, &out[..filled])?;
        let more = read_behind(input, window, self.at, self.end, self.left)?;
        self.end = self.end - self.at + more;
        self.at = 0;
        self.ended = more == 0;
        self.filled = 0;
        Ok(self)
    }

    // After the last step, which put out so many bytes: all is written, and the place told where it did not end in `done`.
    #[tactic(auto, using(framing::proofs::Parts::part_slice))]
    pub fn finish<W: Write, E: Write>(
        self,
        output: &mut W,
        errors: &mut E,
        out: &[u8],
        last: usize,
        records: u32,
    ) -> io::Result<()>
        requires { (self.filled + last ≤ length out.now) × (self.left ≤ self.limit) }
        ensures written { OnOk result (Appends (W.contents output.old) (W.contents output.new) (take (self.filled + last) out.now)) }
        ensures told { OnOk result (Appends (E.contents errors.old) (E.contents errors.new) (told records (self.limit - self.left) (slice self.filled (self.filled + last) out.now))) }
    {
        let from = self.filled;
        let filled = from + last;
        write_out(output, &out[..filled])?;
        tell_place(errors, records, self.limit - self.left, &out[from..filled])
    }
}
