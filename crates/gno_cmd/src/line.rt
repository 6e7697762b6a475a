// The one line that a status writes.
ghost use Rattle.std.specs.Prelude.{◌≡◌, ◌≤◌, ◌++◌, ◌⊎◌, [], ◌∷◌, codes, OnErr, OnOk};
ghost use Rattle.hex.specs.Hex.{encode_lower};
ghost use Rattle.gno_port.specs.Causes.{CutsShort};
ghost use Rattle.gno_port.specs.Streams.{Gained};
ghost use Rattle.gno_cmd.specs.Headline.{GainedFront};
ghost use Rattle.gno_cmd.specs.Statuses.{limit_name, status_line};

use crate::Status;
use gno_base::LimitOf;
use gno_port::{Sink, WriteFault, write_all};
use itoa::Buffer;

/// Writes the line of a status, as far as the sink takes it. It takes no memory.
pub(crate) fn write_line<E: Sink>(err: &mut E, status: &Status)
    ensures front { GainedFront (E.holds err.old) (E.holds err.new) (status_line status.now) }
    ensures whole { Gained (E.holds err.old) (E.holds err.new) (status_line status.now) ⊎ CutsShort (E.faults err.old) (E.faults err.new) (E.zero_writes err.old) (E.zero_writes err.new) }
{
    let _ = write_status(err, status);
}

// Writes the line of a status. A fault's count is of the piece that was cut short, here and below.
fn write_status<E: Sink>(err: &mut E, status: &Status) -> Result<(), WriteFault>
    ensures front { GainedFront (E.holds err.old) (E.holds err.new) (status_line status.now) }
    ensures whole { OnOk result (Gained (E.holds err.old) (E.holds err.new) (status_line status.now)) }
    ensures cut { OnErr result (CutsShort (E.faults err.old) (E.faults err.new) (E.zero_writes err.old) (E.zero_writes err.new)) }
{
    let mut digits = Buffer::new();
    match status {
        Status::Done | Status::SomeFailed => Ok(()),
        Status::Usage(word) => write_about(err, "gno: usage at word ", digits.format(*word)),
        Status::ReadFault => write_text(err, "gno: read fault\n"),
        Status::WriteFault => write_text(err, "gno: write fault\n"),
        Status::StoreFault => write_text(err, "gno: store fault\n"),
        Status::Damaged(key) => write_damaged(err, key.as_slice()),
        Status::NoMemory => write_text(err, "gno: out of memory\n"),
        Status::ScriptFault(line) => write_about(err, "gno: script line ", digits.format(*line)),
        Status::Limit(which) => write_about(err, "gno: limit ", limit_name(*which)),
    }
}

fn limit_name(which: LimitOf) -> &'static str
    ensures { result.now ≡ limit_name which }
{
    match which {
        LimitOf::Time => "time",
        LimitOf::Count => "count",
        LimitOf::Script => "script",
    }
}

// Writes a line: how it starts, what it is about and a line feed.
fn write_about<E: Sink>(err: &mut E, start: &str, what: &str) -> Result<(), WriteFault>
    ensures front { GainedFront (E.holds err.old) (E.holds err.new) (start.now ++ (what.now ++ codes "\n")) }
    ensures whole { OnOk result (Gained (E.holds err.old) (E.holds err.new) (start.now ++ (what.now ++ codes "\n"))) }
    ensures cut { OnErr result (CutsShort (E.faults err.old) (E.faults err.new) (E.zero_writes err.old) (E.zero_writes err.new)) }
{
    write_text(err, start)?;
    write_text(err, what)?;
    write_text(err, "\n")
}

// Writes the line of a table that is damaged at a key.
fn write_damaged<E: Sink>(err: &mut E, key: &[u8]) -> Result<(), WriteFault>
    ensures front { GainedFront (E.holds err.old) (E.holds err.new) (codes "gno: damaged " ++ (encode_lower key.now ++ codes "\n")) }
    ensures whole { OnOk result (Gained (E.holds err.old) (E.holds err.new) (codes "gno: damaged " ++ (encode_lower key.now ++ codes "\n"))) }
    ensures cut { OnErr result (CutsShort (E.faults err.old) (E.faults err.new) (E.zero_writes err.old) (E.zero_writes err.new)) }
{
    write_text(err, "gno: damaged ")?;
    write_hex(err, key)?;
    write_text(err, "\n")
}

// Writes the hex digits of some bytes.
fn write_hex<E: Sink>(err: &mut E, bytes: &[u8]) -> Result<(), WriteFault>
    ensures front { GainedFront (E.holds err.old) (E.holds err.new) (encode_lower bytes.now) }
    ensures whole { OnOk result (Gained (E.holds err.old) (E.holds err.new) (encode_lower bytes.now)) }
    ensures cut { OnErr result (CutsShort (E.faults err.old) (E.faults err.new) (E.zero_writes err.old) (E.zero_writes err.new)) }
    ensures later { E.faults err.old ≤ E.faults err.new }
    ensures later_zero { E.zero_writes err.old ≤ E.zero_writes err.new }
{
    for byte in bytes {
        write_all(err, &hex_digits(*byte))?;
    }
    Ok(())
}

// The two hex digits of a byte.
fn hex_digits(byte: u8) -> [u8; 2]
    ensures { result ≡ encode_lower (byte ∷ []) }
{
    let mut digits = [0; 2];
    hex::encode_to_slice([byte], &mut digits).unwrap();
    digits
}

fn write_text<E: Sink>(err: &mut E, text: &str) -> Result<(), WriteFault>
    ensures front { GainedFront (E.holds err.old) (E.holds err.new) text.now }
    ensures whole { OnOk result (Gained (E.holds err.old) (E.holds err.new) text.now) }
    ensures cut { OnErr result (CutsShort (E.faults err.old) (E.faults err.new) (E.zero_writes err.old) (E.zero_writes err.new)) }
    ensures later { E.faults err.old ≤ E.faults err.new }
    ensures later_zero { E.zero_writes err.old ≤ E.zero_writes err.new }
{
    write_all(err, text.as_bytes())
}
