// The step, and the store that it will make told before it. Both go by the record's words as they are; only the last step takes the
// record out of them and puts it back.
ghost use Rattle.std.specs.Prelude.{◌≤◌, ◌≡◌, length};
ghost use Rattle.record.specs.Answers.{bare};
ghost use Rattle.telling.specs.Places.{PlaceTold};
ghost use Rattle.words.specs.Words.{record_words, record_in, decoded};
ghost use Rattle.kurdavel.specs.Crossing.{StepCrossed, TellCrossed};
ghost use Rattle.kurdavel.specs.StepOn.{front_fits, AdvanceReady, Finished};

use crate::keep;
use record::{Progress, Refusal, number};
use stepping::finish::advance;
use telling::NextPlace;
use telling::tell::{byte_from, place_of};
use words::{CELLS, LEFT, WORDS, decode, fits, front_in};

// The place of the next store of a record that fits and whence its byte comes, or the cause that refuses it. The two calls below share it,
// and nothing else calls what it calls, so that the compiler puts all of it in line. Of the work buffer it gets the length alone.
fn found_in(words: &[u32], area: &[u8], work: usize) -> Result<NextPlace<u32>, Refusal>
    requires record_words_in_bounds { record_words ≤ length words.now }
    requires front_fits { front_fits words.now area.now }
    ensures { PlaceTold (record_in words.now).edition (bare (record_in words.now)) area.now work result }
{
    place_of(front_in(words), area, work)
}

// The last step behind its store: the record is brought up to date, and goes back into its words.
fn finish(
    words: &mut [u32],
    area: &[u8],
    index: &mut [u32],
    left: &mut u32,
    version: &mut u64,
) -> u32
    requires { AdvanceReady (decoded words.old).rec area.now }
    ensures { Finished words.old words.new area.now index.old index.new
        left.old left.new version.old version.new result }
{
    let decoded = decode(words);
    let rec = decoded.rec;
    let stepped = advance(rec, area, index);
    let after = stepped.rec;
    let answer = stepped.answer;
    keep(words, decoded.ok, after);
    match answer {
        Err(cause) => number(cause),
        Ok(progress) => match progress {
            Progress::Left(count) => {
                *left = count;
                *version = 0;
                0
            }
            Progress::Done(told) => {
                *left = 0;
                *version = told.0;
                0
            }
        },
    }
}

// A step that is not the last changes one word of the record.
pub fn kurdavel_step(
    words: &mut [u32],
    area: &mut [u8],
    index: &mut [u32],
    work: &[u8],
    left: &mut u32,
    version: &mut u64,
) -> u32
    ensures { StepCrossed words.old words.new area.old area.new index.old
        index.new work.now left.old left.new version.old
        version.new result }
{
    if !fits(words, area.len(), index.len()) {
        return 4;
    }
    match found_in(words, area, work.len()) {
        Err(cause) => number(cause),
        Ok(next) => {
            area[next.place as usize] = byte_from(work, next.from, next.copied);
            let rest = words[LEFT] - 1;
            if rest == 0 {
                return finish(words, area, index, left, version);
            }
            words[LEFT] = rest;
            *left = rest;
            *version = 0;
            0
        }
    }
}

// Place and byte of the store that the next step will make; both are 0 where it is refused.
pub fn kurdavel_next_store(
    words: &[u32],
    area: &[u8],
    work: &[u8],
    at: &mut u32,
    byte: &mut u32,
) -> u32
    ensures { TellCrossed words.now area.now work.now at.new byte.new result }
{
    *at = 0;
    *byte = 0;
    if words.len() < WORDS {
        return 4;
    }
    if !fits(words, area.len(), words[CELLS] as usize) {
        return 4;
    }
    match found_in(words, area, work.len()) {
        Err(cause) => number(cause),
        Ok(next) => {
            *at = next.place;
            *byte = byte_from(work, next.from, next.copied) as u32;
            0
        }
    }
}
