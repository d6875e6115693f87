// What a start lays down: the pending operation, and the bytes for the work buffer.
ghost use Rattle.std.specs.Prelude.{◌+◌, ◌≤◌, ◌≡◌, true, false, length};
ghost use Rattle.std.proofs.Math.Option.{some};
ghost use Rattle.segment.specs.Layout.{value_length, entry_size, digest_size};
ghost use Rattle.segment.specs.Entry.{kind_for, value_for};
ghost use Rattle.segment.specs.Written.{entry_of};
ghost use Rattle.model.specs.Operations.{fits_with, laid_append, laid_head, laid_entry};
ghost use Rattle.starting.specs.Answer.{started_with};
ghost use Rattle.starting.specs.NewHead.{NumberLeft};
ghost use Rattle.writing.specs.Laying.{laid_begun, EntryReady};

use crate::Laying;
use crate::causes::fits_head;
use record::{Pending, Record, new_edition};
use segment::layout::{digest_size, head_size, object_kind, tombstone_kind};
use segment::writer::{write_digest, write_entry};
use segment::{Edition, Key};
use slot_map::next_free;
use starting::digest::new_digest;
use starting::stores::{commit_stores, head_stores};

// An entry that goes to the end of the head.
fn lay_append(rec: Record, work: &mut [u8], kind: u8, key: Key, value: &[u8]) -> Laying
    requires entry_ready { EntryReady rec.edition rec (length value.now) (length work.old) }
    requires value_value { fits_with rec.edition rec (entry_size rec.edition (length value.now)) ≡ true }
    requires kind_value { value_length rec.edition kind ≡ some (length value.now) }
    ensures { record { start = started_with rec result.pending result.left; work = work.new }
        ≡ laid_begun rec (laid_append rec.edition (entry_of rec.edition kind key rec.next value.now)) work.old }
{
    let edition = rec.edition;
    let count = head_size(edition) + value.len();
    let next = rec.next;
    write_entry(edition, work, 0, kind, key, next, value);
    let left = commit_stores(rec.size as usize, rec.end as usize, count) as u32;
    let length = count as u32;
    Laying {
        pending: Pending::Append { length, left },
        left,
    }
}

// An entry that goes to a new head, behind its digest, both in the new head's edition.
fn lay_head(rec: Record, into: Edition, work: &mut [u8], kind: u8, key: Key, value: &[u8]) -> Laying
    requires entry_ready { EntryReady rec.edition rec (length value.now) (length work.old) }
    requires number_left { NumberLeft rec }
    requires kind_value { value_length into kind ≡ some (length value.now) }
    requires value_bound { digest_size into + entry_size into (length value.now) ≤ 256 }
    ensures { record { start = started_with rec result.pending result.left; work = work.new }
        ≡ laid_begun rec (laid_head into rec (entry_of into kind key rec.next value.now)) work.old }
{
    let start = digest_size(into);
    let count = start + (head_size(into) + value.len());
    let next = rec.next;
    let slot = next_free(rec.slots, rec.map, rec.head);
    write_digest(into, work, 0, new_digest(rec, 0, slot, next));
    write_entry(into, work, start, kind, key, next, value);
    let left = head_stores(rec.size as usize, count) as u32;
    let length = count as u32;
    Laying {
        pending: Pending::NewHead { slot, length, left },
        left,
    }
}

// The kind that an entry of this kind and value has in another edition.
fn kind_in(edition: Edition, into: Edition, kind: u8, value: &[u8]) -> u8
    ensures { result ≡ kind_for into (value_for edition kind value.now) }
{
    if kind == tombstone_kind(edition) {
        return tombstone_kind(into);
    }
    object_kind(into, value.len())
}

// An entry, of a kind of the head's edition, is appended to the head if it fits, else it comes to a new head.
pub fn lay_entry(rec: Record, work: &mut [u8], kind: u8, key: Key, value: &[u8]) -> Laying
    requires entry_ready { EntryReady rec.edition rec (length value.now) (length work.old) }
    requires number_left { fits_with rec.edition rec (entry_size rec.edition (length value.now)) ≡ false → NumberLeft rec }
    requires kind_value { value_length rec.edition kind ≡ some (length value.now) }
    ensures { record { start = started_with rec result.pending result.left; work = work.new }
        ≡ laid_begun rec (laid_entry rec.edition rec (entry_of rec.edition kind key rec.next value.now)) work.old }
{
    let edition = rec.edition;
    if fits_head(rec, head_size(edition) + value.len()) {
        return lay_append(rec, work, kind, key, value);
    }
    let into = new_edition(rec);
    lay_head(
        rec,
        into,
        work,
        kind_in(edition, into, kind, value),
        key,
        value,
    )
}
