// The short histories of the rig (02, R-14): which words of letters are legal, and the lines that list them.
#![tactic(auto)]

ghost use Rattle.std.specs.Prelude.{◌+◌, ◌*◌, ◌^◌, ◌≤◌, ◌≡◌, [], ◌∷◌, length};
ghost use Rattle.text.specs.Put.{Put};
ghost use Rattle.std.specs.Iterator.{YieldsFirst, at_most};
ghost use Rattle.histories.specs.Letters.{letter_of, code_of, allowed, after, legal};
ghost use Rattle.histories.specs.List.{legal_ones, histories_of, histories, line_of, lines_of};
ghost use Rattle.histories.specs.Numbered.{word};

pub mod book;

// The longest word. The clauses below have its number, as `short` of a word has.
pub const LONGEST: u32 = 6;

// A and B write the first and the second key, a and b delete them, C cleans all slots of the log. A letter's number is its code.
#[derive(Clone, Copy, PartialEq, Eq)]
pub enum Letter {
    WriteA = b'A' as isize,
    WriteB = b'B' as isize,
    DeleteA = b'a' as isize,
    DeleteB = b'b' as isize,
    CleanAll = b'C' as isize,
}

impl Letter {
    fn code(self) -> u8
        ensures { result ≡ code_of self }
    {
        self as u8
    }
}

// The letter of a digit to base 5; a number above the digits gives the last.
impl From<u32> for Letter {
    ghost from_gives = { λ number l. l ≡ letter_of number };

    fn from(number: u32) -> Letter {
        match number {
            0 => Letter::WriteA,
            1 => Letter::WriteB,
            2 => Letter::DeleteA,
            3 => Letter::DeleteB,
            _ => Letter::CleanAll,
        }
    }
}

// Which of the two keys are present.
#[derive(Clone, Copy)]
pub struct Presence {
    pub first: bool,
    pub second: bool,
}

impl Presence {
    // A delete is allowed where its key is present, every other letter always.
    fn allows(self, l: Letter) -> bool
        ensures { result ≡ allowed self l }
    {
        match l {
            Letter::WriteA | Letter::WriteB | Letter::CleanAll => true,
            Letter::DeleteA => self.first,
            Letter::DeleteB => self.second,
        }
    }

    // Which keys are present after a letter.
    fn after(self, l: Letter) -> Presence
        ensures { result ≡ after self l }
    {
        match l {
            Letter::WriteA => Presence {
                first: true,
                ..self
            },
            Letter::WriteB => Presence {
                second: true,
                ..self
            },
            Letter::DeleteA => Presence {
                first: false,
                ..self
            },
            Letter::DeleteB => Presence {
                second: false,
                ..self
            },
            Letter::CleanAll => self,
        }
    }
}

// How many words there are of a length.
pub fn words(letters: u32) -> u32
    requires { letters ≤ 6 }
    ensures { result ≡ 5 ^ letters }
{
    5u32.pow(letters)
}

// A word, given by its length and its number among the words of that length in the order of the letters: the digits of the
// number to base 5 are the letters' numbers, the first letter's the highest. It gives its letters one after the other.
#[derive(Clone, Copy)]
pub struct WordNumber {
    pub letters: u32,
    pub number: u32,
    pub ghost short: { letters ≤ 6 },
}

impl Iterator for WordNumber {
    type Item = Letter;

    ghost next_gives = { YieldsFirst (λ w. word w.letters w.number) };

    ghost remaining = { λ w. at_most w.letters };

    fn next(&mut self) -> Option<Letter> {
        let left = self.letters.checked_sub(1)?;
        let unit = words(left);
        let letter = Letter::from(self.number / unit);
        *self = WordNumber {
            letters: left,
            number: self.number % unit,
        };
        Some(letter)
    }
}

impl WordNumber {
    // Whether every delete of the word finds its key present.
    pub fn is_legal(self) -> bool
        ensures { result ≡ legal (word self.letters self.number) }
    {
        let mut present = Presence {
            first: false,
            second: false,
        };
        for letter in self {
            if !present.allows(letter) {
                return false;
            }
            present = present.after(letter);
        }
        true
    }

    // The word, and a newline.
    pub fn put(self, out: &mut [u8], at: usize) -> usize
        requires { at + 7 ≤ length out.old }
        ensures { Put out.old out.new at result (line_of (word self.letters self.number)) × (result ≤ at + 7) }
    {
        let mut end = at;
        for letter in self {
            out[end] = letter.code();
            end += 1;
        }
        out[end] = b'\n';
        end + 1
    }
}

// The line of a word, if it is legal.
fn put_legal(out: &mut [u8], at: usize, w: WordNumber) -> usize
    requires { at + 7 ≤ length out.old }
    ensures { Put out.old out.new at result (lines_of (legal_ones (word w.letters w.number ∷ []))) × (result ≤ at + 7) }
{
    if !w.is_legal() {
        return at;
    }
    w.put(out, at)
}

// The histories of one length, a line for each.
fn put_length(out: &mut [u8], at: usize, letters: u32) -> usize
    requires { (letters ≤ 6) × (at + 7 * 5 ^ letters ≤ length out.old) }
    ensures { Put out.old out.new at result (lines_of (histories_of letters)) × (result ≤ at + 7 * 5 ^ letters) }
{
    let mut end = at;
    for number in 0..words(letters) {
        end = put_legal(out, end, WordNumber { letters, number });
    }
    end
}

// No text of histories is longer: 7 bytes for each of the words of up to six letters.
pub const ROOM: usize = 136717;

// The histories up to a length, a line for each.
pub fn put_histories(out: &mut [u8], at: usize, longest: u32) -> usize
    requires { (longest ≤ 6) × (at + 136717 ≤ length out.old) }
    ensures { Put out.old out.new at result (lines_of (histories longest)) × (result ≤ at + 136717) }
{
    let mut end = at;
    for letters in 0..=longest {
        end = put_length(out, end, letters);
    }
    end
}
