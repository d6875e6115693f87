// A history run on the store, with a cut before its first store and after every one.
ghost use Rattle.std.specs.Prelude.{◌≡◌, true, false, length, MatchOption};
ghost use Rattle.model.specs.Promises.{StartPromise};
ghost use Rattle.model.specs.Refused.{freely};
ghost use Rattle.histories.specs.Numbered.{word};
ghost use Rattle.rig_model.specs.Verdict.{operation_at, history_wrong};
ghost use Rattle.rig_model.specs.RunLaws.{Ready};
ghost use Rattle.rig_model.specs.PlayLaws.{Plays};

use crate::check::{all_tables, recovers_wrongly};
use histories::book::Book;
use histories::{Letter, WordNumber, book};
use record::{Record, Start};
use segment::Key;
use store::{clean, delete, format, recover, step, write};

// The record after a letter, and the book.
#[derive(Clone, Copy)]
struct Played {
    rec: Record,
    book: Book,
}

// The start of a letter's operation: eight bytes written, each the letter's place, a key deleted, or all slots of the log cleaned.
fn start(l: Letter, place: u8, rec: Record, area: &[u8], index: &[u32], work: &mut [u8]) -> Start
    ensures { StartPromise rec.edition freely (operation_at l place rec) rec area.now index.now work.old
        work.new result }
{
    let tables = all_tables();
    let value = [place; 8];
    match l {
        Letter::WriteA => write(rec, area, index, work, tables, book::first_key(), &value),
        Letter::WriteB => write(rec, area, index, work, tables, book::second_key(), &value),
        Letter::DeleteA => delete(rec, area, index, work, tables, book::first_key()),
        Letter::DeleteB => delete(rec, area, index, work, tables, book::second_key()),
        Letter::CleanAll => clean(rec, area, index, work, rec.map),
    }
}

// A letter's operation, store by store, with a cut before each store; none where a cut recovers wrongly.
fn play(
    l: Letter,
    place: u8,
    rec: Record,
    book: Book,
    area: &mut [u8],
    index: &mut [u32],
    work: &mut [u8],
    faulty: bool,
) -> Option<Played>
    requires { Ready area.old rec index.old × (length work.old ≡ 256) }
    ensures { MatchOption result (Plays faulty l place area.old book area.new rec index.new book true)
        (λ played. Plays faulty l place area.old book area.new played.rec index.new played.book false) }
{
    let begun = start(l, place, rec, area, index, work);
    let answer = begun.answer;
    let Ok(stores) = answer else {
        return Some(Played { rec, book });
    };
    let mut rec = begun.rec;
    for _done in 0..stores {
        if recovers_wrongly(area, book, faulty) {
            return None;
        }
        rec = step(rec, area, index, work).rec;
    }
    Some(Played {
        rec,
        book: book::finished(book, l, place),
    })
}

// Whether a history recovers wrongly after any cut.
pub fn is_wrong(w: WordNumber, faulty: bool) -> bool
    ensures { result ≡ history_wrong faulty (word w.letters w.number) }
{
    let mut area = [0; 1024];
    let mut index = [0; 16];
    let mut work = [0; 256];
    // Nothing refuses a format of these lengths.
    let _ = format(4, 256, 1, &mut area);
    let fresh = recover(4, 256, b"\x00\x01\x02\x03", &area, &mut index);
    let mut rec = fresh.rec;
    let mut book = book::fresh();
    // Counted beside the letters: an operation writes its place as a byte.
    let mut place = 0;
    for l in w {
        place += 1;
        let Some(played) = play(
            l, place, rec, book, &mut area, &mut index, &mut work, faulty,
        ) else {
            return true;
        };
        rec = played.rec;
        book = played.book;
    }
    recovers_wrongly(&area, book, faulty)
}
