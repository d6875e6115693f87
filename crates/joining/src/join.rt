// The call: which two slots to join.
ghost use Rattle.std.specs.Prelude.{◌≡◌, replicate};
ghost use Rattle.model.specs.Causes.{first_cause};
ghost use Rattle.model.specs.Joining.{lowest_pair, join_early, JoinPromise};
ghost use Rattle.starting.specs.Checks.{checked};
ghost use Rattle.joining.specs.Notes.{note_all, NotesFit};
ghost use Rattle.joining.specs.Weights.{weights_fit};
ghost use Rattle.joining.specs.PairLaws.{chosen_is};
ghost use Rattle.joining.specs.JoinModel.{log_split};

use crate::notes::note_all;
use crate::pairs::lowest_pair;
use crate::weights::weigh_all;
use cleaning::Split;
use record::range::fits_lent;
use record::{Answered, Joined, Pair, Record, Refusal, new_edition};
use segment::Edition;
use starting::checks::check_idle;

// The slots of the log.
fn split_of(rec: Record) -> Split
    ensures { result ≡ log_split rec }
{
    Split {
        slots: rec.slots as usize,
        size: rec.size as usize,
        victims: rec.map,
        outside: rec.map,
    }
}

// 4 and 5.
fn check(rec: Record, area: usize, index: usize) -> Result<(), Refusal>
    ensures { result ≡ checked (first_cause (join_early rec.edition rec (record { area = area; index = index; work = 0 }))) }
{
    if !fits_lent(rec, area, index) {
        return Err(Refusal::BadRecord);
    }
    check_idle(rec, rec.size as usize)
}

// The lowest pair of the log, where the new head is of that edition.
fn choose(edition: Edition, area: &[u8], index: &[u32], split: Split) -> Option<(usize, usize)>
    requires { NotesFit split area.now index.now (replicate 5958 0) }
    ensures { result ≡ chosen_is
        (lowest_pair
        (weights_fit edition area.now index.now (note_all area.now index.now split (replicate 5958 0)) split)
        split.slots) }
{
    let mut notes = [0u8; 5958];
    let mut totals = [0u32; 32];
    let mut tombstones = [0u32; 32];
    note_all(
        edition,
        area,
        index,
        &mut notes,
        &mut totals,
        &mut tombstones,
        split,
    );
    let mut shares = [0u16; 1024];
    weigh_all(
        edition,
        area,
        index,
        &notes,
        &tombstones,
        split,
        &mut totals,
        &mut shares,
    );
    lowest_pair(edition, &totals, &shares, split)
}

// Which two slots of the log one new head can take over.
pub fn join(rec: Record, area: &[u8], index: &[u32]) -> Joined
    ensures { JoinPromise rec.edition rec area.now index.now result }
{
    let into = new_edition(rec);
    match check(rec, area.len(), index.len()) {
        Err(c) => Answered {
            answer: Err(c),
            rec,
        },
        Ok(()) => match choose(into, area, index, split_of(rec)) {
            Some((i, j)) => Answered {
                answer: Ok(Pair {
                    first: i as u32,
                    second: j as u32,
                }),
                rec,
            },
            None => Answered {
                answer: Err(Refusal::NoPair),
                rec,
            },
        },
    }
}
