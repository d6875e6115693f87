// The rig (02, R-14): all legal histories up to a length, each run on the store with a cut before its first store and after every
// one, and the first that recovers wrongly. N is 4, S 256, M 16.
#![tactic(auto)]

ghost use Rattle.std.specs.Prelude.{◌+◌, ◌≤◌, ◌≡◌, length};
ghost use Rattle.segment.specs.Choice.{both};
ghost use Rattle.text.specs.Put.{Put};
ghost use Rattle.histories.specs.Letters.{legal};
ghost use Rattle.histories.specs.List.{histories_of, histories};
ghost use Rattle.histories.specs.Numbered.{word};
ghost use Rattle.rig_model.specs.Verdict.{history_wrong, first_wrong, verdict_line};
ghost use Rattle.rigging.specs.Text.{named, put_text};

use crate::run::is_wrong;
use histories::{WordNumber, put_histories, words};
use text::put;

mod check;
mod run;

// No text is longer.
pub const ROOM: usize = 137000;

// Whether a word is a history and recovers wrongly.
fn is_found(w: WordNumber, faulty: bool) -> bool
    ensures { result ≡ both (legal (word w.letters w.number)) (history_wrong faulty (word w.letters w.number)) }
{
    w.is_legal() && is_wrong(w, faulty)
}

// The first of one length that recovers wrongly.
fn first_of(letters: u32, faulty: bool) -> Option<WordNumber>
    requires { letters ≤ 6 }
    ensures { named result ≡ first_wrong faulty (histories_of letters) }
{
    for number in 0..words(letters) {
        let w = WordNumber { letters, number };
        if is_found(w, faulty) {
            return Some(w);
        }
    }
    None
}

// The first of those up to a length.
fn first_wrong(longest: u32, faulty: bool) -> Option<WordNumber>
    requires { longest ≤ 6 }
    ensures { named result ≡ first_wrong faulty (histories longest) }
{
    for letters in 0..=longest {
        if let Some(w) = first_of(letters, faulty) {
            return Some(w);
        }
    }
    None
}

fn put_verdict(out: &mut [u8], at: usize, verdict: Option<WordNumber>) -> usize
    requires { at + 7 ≤ length out.old }
    ensures { Put out.old out.new at result (verdict_line (named verdict)) × (result ≤ at + 7) }
{
    match verdict {
        None => put(out, at, b"none\n"),
        Some(w) => w.put(out, at),
    }
}

// The text for an input of one digit, 0 to 6, put at the start of the buffer; the answer is its length. Any other input, and a buffer
// of less than ROOM bytes, give no text. `faulty` makes it the text of the copy whose recovery takes the next version from log
// entries alone.
pub fn rig(input: &[u8], out: &mut [u8], faulty: bool) -> usize
    ensures { Put out.old out.new 0 result (put_text faulty input.now (length out.old))
        × (result ≤ length out.old) }
{
    if out.len() < ROOM {
        return 0;
    }
    if input.len() != 1 {
        return 0;
    }
    let digit = input[0];
    if digit < b'0' {
        return 0;
    }
    if b'6' < digit {
        return 0;
    }
    let longest = (digit - b'0') as u32;
    let at = put_histories(out, 0, longest);
    put_verdict(out, at, first_wrong(longest, faulty))
}
