// The numbers of a saved form: 4 bytes each, low byte first; and the header that a file says.
#![tactic(auto)]

ghost use Rattle.std.specs.Prelude.{◌≡◌, ◌+◌, ◌*◌, ◌≤◌, length};
ghost use Rattle.std.proofs.lemmas.List.Edits.{sets};
ghost use Rattle.model.specs.Saved.{bytes_of, number, loaded_header};

use model::table::Header;

// Writes x over the 4 bytes from `at` on.
pub fn put_number(out: &mut [u8], at: usize, x: u32)
    requires { at + 4 ≤ length out.old }
    ensures { out.new ≡ sets out.old at (bytes_of x) }
{
    out[at..at + 4].copy_from_slice(&x.to_le_bytes());
}

// Number i of a file.
pub fn number_at(f: &[u8], i: usize) -> u32
    requires { 4 * i + 4 ≤ length f.now }
    ensures { result ≡ number f.now i }
{
    let at = 4 * i;
    u32::from_le_bytes([f[at], f[at + 1], f[at + 2], f[at + 3]])
}

// The header that a file says, with the capacity given: its first three numbers are B, G and k.
pub fn header_of(f: &[u8], capacity: u32) -> Header
    requires { 12 ≤ length f.now }
    ensures { result ≡ loaded_header f.now capacity }
{
    Header {
        buckets: number_at(f, 0),
        capacity,
        block_count: number_at(f, 1),
        interval_count: number_at(f, 2),
    }
}
