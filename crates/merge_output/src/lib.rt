// What the program prints: the merged text of a sheet text, or the line that says which row refuses it.
#![tactic(auto)]

ghost use Rattle.std.specs.Prelude.{◌≡◌, ◌%◌, ◌≤◌, length};
ghost use Rattle.format.specs.Program.{refusal, program_output};
ghost use Rattle.merge_output.specs.Printed.{printed, Stands};

use merger::Refusal;

// The first `length` bytes.
#[derive(Drop)]
pub struct Printed {
    pub bytes: [u8; 65536],
    pub length: usize,
}

// `refused=ROW,LINE` with LF, and where it ends. No text has a line of more than 32 bits.
fn refusal(r: Refusal, out: &mut [u8]) -> Option<usize>
    requires { 30 ≤ length out.old }
    ensures { Stands (refusal r.row.0 (r.line % 4294967296)) out.old out.new result }
{
    let a = text_bytes::copy(b"refused=", out, 0)?;
    let b = text_bytes::decimal(r.row.0, out, a)?;
    let c = text_bytes::copy(b",", out, b)?;
    let d = text_bytes::decimal((r.line % 4294967296) as u32, out, c)?;
    text_bytes::copy(b"\n", out, d)
}

// The merged text of a sheet text, or the line that refuses it; zeros follow.
pub fn output(text: &[u8]) -> Printed
    ensures { (result ≡ printed (program_output text.now)) × (result.length ≤ length result.bytes) }
{
    let mut bytes = [0u8; 65536];
    match merger::merge_text(text, &mut bytes) {
        Ok(merged) => Printed {
            bytes,
            length: merged.length,
        },
        Err(r) => {
            let length = refusal(r, &mut bytes).unwrap_or(0);
            Printed { bytes, length }
        }
    }
}
