//! The lines that say why the program stopped.

ghost use Rattle.std.specs.Prelude.{◌≡◌, ◌≢◌, ◌⊎◌, ◌++◌, OnOk, IfOk, decimal};
ghost use Rattle.std.specs.Io.KnownBytes.{Appends};
ghost use Rattle.fault_causes.specs.Causes.{Rose};
ghost use Rattle.gateway.specs.Run.{WritesFront};
ghost use Rattle.gateway.specs.Stopped.{refused_schema_line};

use gate_outside::{Sink, write_all};
use std::alloc::Global;
use text_types::{Bytes, Memory};

pub(crate) const NO_SCHEMA: &[u8] =
    b"{\"out\":\"stopped\",\"status\":3,\"file\":\"schema\",\"code\":\"missing\"}\n";

pub(crate) const NO_RULES: &[u8] =
    b"{\"out\":\"stopped\",\"status\":3,\"file\":\"rules\",\"code\":\"missing\"}\n";

pub(crate) const PAST_LIMIT: &[u8] = b"{\"out\":\"stopped\",\"status\":10}\n";

/// Writes a stopped line, and gives its status, or 5 where the sink fails on it.
pub(crate) fn write_stopped<O: Sink>(status: u8, line: &[u8], out: &mut O) -> u8
    requires { status ≢ 5 }
    ensures known { (result ≡ status) ⊎ (result ≡ 5) }
    ensures whole { result ≡ status → Appends (O.held out.old) (O.held out.new) line.now }
    ensures front { WritesFront (O.held out.old) (O.held out.new) line.now }
    ensures cause { result ≡ 5 → Rose (O.faults out.old) (O.faults out.new) }
{
    match write_all(out, line) {
        Ok(()) => status,
        Err(_) => 5,
    }
}

/// Writes the line of a schema that is refused, and gives 3, or 5 where the sink fails on it, or 7
/// where memory ran out before.
pub(crate) fn stop_at_schema<O: Sink>(alloc: Global, code: u8, line: u64, out: &mut O) -> u8
    ensures known { (result ≡ 3) ⊎ ((result ≡ 5) ⊎ (result ≡ 7)) }
    ensures whole { result ≡ 3 → Appends (O.held out.old) (O.held out.new) (refused_schema_line (record { code = code; line = line })) }
    ensures front { WritesFront (O.held out.old) (O.held out.new) (refused_schema_line (record { code = code; line = line })) }
    ensures cause { result ≡ 5 → Rose (O.faults out.old) (O.faults out.new) }
    ensures memory { result ≡ 7 → out.new ≡ out.old }
{
    match refused_schema(alloc, code, line) {
        Ok(bytes) => write_stopped(3, bytes.as_slice(), out),
        Err(_) => 7,
    }
}

/// The line of a schema that is refused.
fn refused_schema(alloc: Global, code: u8, line: u64) -> Result<Bytes, Memory>
    ensures { IfOk result (λ bytes. bytes ≡ refused_schema_line (record { code = code; line = line })) }
{
    let mut bytes = Bytes::new(alloc);
    bytes.append(b"{\"out\":\"stopped\",\"status\":3,\"file\":\"schema\",\"code\":\"S")?;
    push_number(u64::from(code), &mut bytes)?;
    bytes.append(b"\",\"line\":")?;
    push_number(line, &mut bytes)?;
    bytes.append(b"}\n")?;
    Ok(bytes)
}

fn push_number(number: u64, out: &mut Bytes) -> Result<(), Memory>
    ensures { OnOk result (out.new ≡ out.old ++ decimal number) }
{
    let digits = number.to_string(out.allocator())?;
    out.append(digits.as_str().as_bytes())
}
