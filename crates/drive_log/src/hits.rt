// The walk over a segment that counts the entries with a suspect's version. It is compiled once for each edition, so that no turn
// asks for the edition and the lengths are constants, whose branches a processor can foresee: the table of suspects may be
// filled many times, and each time all entries are walked.
ghost use Rattle.drive_log.specs.Editions.{edition_if};
ghost use Rattle.drive_log.specs.Tables.{Sorted};
ghost use Rattle.drive_log.specs.Marks.{Marked};
ghost use Rattle.drive_log.specs.Counts.{CountIn};

use crate::editions::edition_if;
use crate::marks::is_suspect;
use segment::entries::next;
use segment::layout::digest_size;
use segment::{Edition, Next};

fn count_as<const SECOND: bool>(part: &[u8], marks: &[u32], table: &[u64]) -> usize
    requires sorted { Sorted table.now }
    requires marked { Marked marks.now table.now }
    ensures { CountIn (edition_if SECOND) part.now table.now result }
{
    let edition = edition_if(SECOND);
    let mut at = digest_size(edition);
    let mut count = 0;
    loop {
        match next(edition, part, at) {
            Next::Entry(header) => {
                let version = header.version;
                at += header.length;
                count += usize::from(is_suspect(marks, table, version));
            }
            Next::End => {
                return count;
            }
            Next::Damage => {
                return 0;
            }
        }
    }
}

// How many entries of a segment have a suspect's version; 0 where it is damaged.
pub fn count_in(edition: Edition, part: &[u8], marks: &[u32], table: &[u64]) -> usize
    requires sorted { Sorted table.now }
    requires marked { Marked marks.now table.now }
    ensures { CountIn edition part.now table.now result }
{
    match edition {
        Edition::First => count_as::<false>(part, marks, table),
        Edition::Second => count_as::<true>(part, marks, table),
    }
}
