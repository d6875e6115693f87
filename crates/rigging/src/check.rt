// What recovery makes of an area after a cut, compared with the book.
ghost use Rattle.std.specs.Prelude.{◌<◌, ◌≡◌};
ghost use Rattle.std.proofs.Math.Option.{some};
ghost use Rattle.word.specs.Number.{Bytes};
ghost use Rattle.record.specs.Reach.{all_tables};
ghost use Rattle.model.specs.Log.{present};
ghost use Rattle.model.specs.Operations.{log_now};
ghost use Rattle.model.specs.Recovery.{recovered};
ghost use Rattle.rig_model.specs.Verdict.{eight_are, key_as, next_of, store_as, wrong_at};
ghost use Rattle.rig_model.specs.RunLaws.{Ready};

use drive_log::survey::survey;
use histories::book;
use histories::book::{Book, Held};
use record::{Record, Tables};
use report::gather::gather;
use segment::Key;
use segment::layout::version_limit;
use store::{read, read_value, recover};

pub(crate) fn all_tables() -> Tables
    ensures { result ≡ all_tables }
{
    Tables {
        first: 0,
        last: 65535,
    }
}

// Whether these are eight bytes, all this one.
fn all_are(bytes: &[u8], byte: u8) -> bool
    ensures { result ≡ eight_are bytes.now byte }
{
    bytes.len() == 8 && bytes.iter().all(|b| *b == byte)
}

// Whether a key has the version and the value of the book, or is absent where the book has nothing of it.
fn key_as(rec: Record, area: &[u8], index: &[u32], key: Key, held: Held) -> bool
    requires { Ready area.now rec index.now × (key.table < 65536) }
    ensures { result ≡ key_as (present (log_now area.now rec) key) held }
{
    let tables = all_tables();
    let reading = read(rec, area, index, tables, key);
    let answer = reading.answer;
    match answer {
        Err(_) => held.version == 0,
        Ok(present) => {
            if present.version.0 != held.version {
                return false;
            }
            all_are(read_value(rec, area, index, tables, key), held.byte)
        }
    }
}

// The next version: the record's, or from log entries alone one more than their highest.
fn next_of(rec: Record, area: &[u8], faulty: bool) -> u64
    requires { (recovered rec.edition 4 256 16 area.now ≡ some rec) × Bytes area.now }
    ensures { result ≡ next_of faulty (log_now area.now rec) rec }
{
    let next = rec.next;
    if !faulty {
        return next.0;
    }
    let Some(passed) = survey(4, 256, area, rec.map) else {
        return next.0;
    };
    let highest = passed.highest;
    highest.0.saturating_add(1).min(version_limit(rec.edition))
}

// Whether a recovered store is the book's.
fn store_as(rec: Record, area: &[u8], index: &[u32], book: Book, faulty: bool) -> bool
    requires { Ready area.now rec index.now }
    ensures { result ≡ store_as faulty (log_now area.now rec) rec book }
{
    if next_of(rec, area, faulty) != book.next {
        return false;
    }
    let mut ranks = [0; 4096];
    if gather(area, index, &mut ranks) != book::count(book) {
        return false;
    }
    key_as(rec, area, index, book::first_key(), book.first)
        && key_as(rec, area, index, book::second_key(), book.second)
}

// Whether recovery of what a cut leaves is refused or gives another store than the book's.
pub fn recovers_wrongly(area: &[u8], book: Book, faulty: bool) -> bool
    ensures { result ≡ wrong_at faulty area.now book }
{
    let mut index = [0; 16];
    let recovery = recover(4, 256, b"\x02\x00\x03\x01", area, &mut index);
    let answer = recovery.answer;
    let rec = recovery.rec;
    match answer {
        Err(_) => true,
        Ok(()) => !store_as(rec, area, &index, book, faulty),
    }
}
