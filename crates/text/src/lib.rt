// Text in a caller's buffer: words and decimal numbers, each put at a place and answering the place behind it.
#![tactic(auto)]

ghost use Rattle.std.specs.Prelude.{◌+◌, ◌≤◌, length};
ghost use Rattle.text.specs.Digits.{digits};
ghost use Rattle.text.specs.Put.{Put};
ghost use Rattle.text.specs.Spelled.{Spelled};

use segment::writer::copy_into;

// The digits of a number stand in `bytes` from `from` on. A buffer with a place beside it: how many digits there are shows only
// once the first, which is found last, is there, and there is no heap.
#[derive(Clone, Copy)]
struct Spelling {
    bytes: [u8; 20],
    from: usize,
}

// A u64 has at most twenty digits; the last one is found first.
fn spell(n: u64) -> Spelling
    ensures { Spelled n result.bytes result.from }
{
    let mut bytes = [0; 20];
    let mut from: usize = 19;
    let mut rest = n;
    // A `while`: it ends by what is left of the number, and not at a place.
    while 10 <= rest {
        bytes[from] = b'0' + (rest % 10) as u8;
        rest /= 10;
        from -= 1;
    }
    bytes[from] = b'0' + rest as u8;
    Spelling { bytes, from }
}

// Bytes as they are.
pub fn put(buffer: &mut [u8], at: usize, bytes: &[u8]) -> usize
    requires { at + length bytes.now ≤ length buffer.old }
    ensures { Put buffer.old buffer.new at result bytes.now }
{
    copy_into(buffer, at, bytes);
    at + bytes.len()
}

// The decimal digits of a number.
pub fn put_number(buffer: &mut [u8], at: usize, n: u64) -> usize
    requires { at + length (digits n) ≤ length buffer.old }
    ensures { Put buffer.old buffer.new at result (digits n) }
{
    let Spelling { bytes, from } = spell(n);
    put(buffer, at, &bytes[from..])
}
