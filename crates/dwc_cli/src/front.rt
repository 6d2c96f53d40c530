//! Parts of some bytes.
ghost use Rattle.std.specs.Prelude.{◌≡◌, ◌≤◌, true, min, take, length};
ghost use Rattle.dwc_cli.specs.Printed.{is_line};

// Copies the front of some bytes to the front of a buffer, as far as there is room, and tells how many.
pub(crate) fn copy_front(bytes: &[u8], buf: &mut [u8]) -> usize
    ensures count { result ≡ min (length buf.old) (length bytes.now) }
    ensures bytes { take result buf.new ≡ take result bytes.now }
{
    let count = buf.len().min(bytes.len());
    buf[..count].copy_from_slice(&bytes[..count]);
    count
}

// The front of some bytes, at most so many; nothing where they have a line feed.
#[tactic(auto, using(crate::proofs::OneLine::front_is_line))]
pub(crate) fn line_front(bytes: &[u8], most: usize) -> &[u8]
    ensures short { length result.now ≤ most }
    ensures line { is_line result.now ≡ true }
{
    if is_line(bytes) {
        &bytes[..bytes.len().min(most)]
    } else {
        &[]
    }
}

// Whether some bytes have no line feed.
fn is_line(bytes: &[u8]) -> bool
    ensures { result ≡ is_line bytes.now }
{
    bytes.iter().all(|byte| *byte != b'\n')
}
