// The store record, the pending operation, the refusals and the answers of the calls.
#![tactic(auto)]

ghost use Rattle.std.specs.Prelude.{◌≡◌};
ghost use Rattle.record.specs.Answers.{blank, stores_left, with_pending};
ghost use Rattle.record.specs.Committed.{committed};
ghost use Rattle.record.specs.Switch.{new_layout, with_switch, switched_on};
ghost use Rattle.record.specs.Refusals.{number_of_refusal};

use segment::{DigestNumber, Edition, Version};

pub mod range;
pub mod reach;

// What an operation still has to do. The bytes themselves stand in the work buffer; `length` is how many of them are the
// operation's, and `left` how many stores are left.
#[derive(Clone, Copy)]
pub enum Pending {
    Idle,
    // A write or delete whose entry goes to the end of the head.
    Append {
        length: u32,
        left: u32,
    },
    // A write or delete whose entry goes to a new head in `slot`, behind its digest.
    NewHead {
        slot: u32,
        length: u32,
        left: u32,
    },
    // A cleaning: the new head in `slot` takes over what the victims' slots held.
    Clean {
        slot: u32,
        victims: u32,
        length: u32,
        left: u32,
    },
    // A delete that found no room: the new head in `slot` takes over what the one victim held, without the key's live object.
    Forget {
        slot: u32,
        victims: u32,
        length: u32,
        left: u32,
    },
}

// The store record of 01, "Memory the caller lends": geometry, index size and edition of the head (02, R-11), whether the store is
// switched to the second edition (R-13), what the head's digest says with the end of its entries, the next version, how many keys the
// log has entries of, and the pending operation; and for each slot the bytes of its present objects (R-5). A value of it is named
// `rec`, since `record` is a word of the proofs' language.
#[derive(Clone, Copy)]
pub struct Record {
    pub slots: u32,
    pub size: u32,
    pub cells: u32,
    pub edition: Edition,
    pub switched: bool,
    pub head: u32,
    pub end: u32,
    pub digest: DigestNumber,
    pub map: u32,
    pub next: Version,
    pub keys: u32,
    pub counts: [u32; 32],
    pub pending: Pending,
}

// What the last store of an operation makes of the head and the counters.
#[derive(Clone, Copy)]
pub struct Commit {
    pub edition: Edition,
    pub head: u32,
    pub end: u32,
    pub digest: DigestNumber,
    pub map: u32,
    pub next: Version,
}

// The causes of 01's table "Refused calls", in the order of their numbers, and those that 02 adds to it.
#[derive(Clone, Copy)]
pub enum Refusal {
    Geometry = 1,
    Cells,
    WorkShort,
    BadRecord,
    Busy,
    NonePending,
    ValueLength,
    Absent,
    VersionsSpent,
    NumbersSpent,
    KeysFull,
    NoRoom,
    BadVictims,
    KeptTooLong,
    BadOrder,
    NoDigest,
    BadDigest,
    DamagedLog,
    SharedVersion,
    TooManyKeys,
    OtherVersion,
    OutsideTables,
    NoPair,
    BadMap,
    MapNoDigest,
    NotWhole,
    CountLost,
    MixedEditions,
    SlotTooLong,
    VersionTooWide,
}

// The tables that a caller may reach (02, R-2), from the first to the last, both included; none where the first is above the
// last.
#[derive(Clone, Copy)]
pub struct Tables {
    pub first: u16,
    pub last: u16,
}

// What a write expects of its key (02, R-1): nothing, or the version that the key has, 0 where it is absent. No Option, whose None would
// read as a key that is to be absent.
#[derive(Clone, Copy)]
pub enum Expected {
    Any,
    Only(Version),
}

// What a call hands back: its answer or the cause that refuses it, and the record, which is to be kept for the next call.
#[derive(Clone, Copy)]
pub struct Answered<T> {
    pub answer: Result<T, Refusal>,
    pub rec: Record,
}

// Where recovery is refused, `rec` is the blank record.
pub type Recovery = Answered<()>;

// A read answers the version and the kind of the key's object.
#[derive(Clone, Copy)]
pub struct Present {
    pub version: Version,
    pub kind: u8,
}

pub type Reading = Answered<Present>;

// A start answers the number of stores to come.
pub type Start = Answered<u32>;

// A step answers the number of stores left; the last one the version, 0 for a cleaning.
#[derive(Clone, Copy)]
pub enum Progress {
    Left(u32),
    Done(Version),
}

pub type Stepped = Answered<Progress>;

// The slot of the log that has the fewest present bytes (02, R-5).
pub type Fewest = Answered<u32>;

// The store that the next step will make, told before it: its place in the area, and its byte.
#[derive(Clone, Copy)]
pub struct ToldStore {
    pub place: u32,
    pub byte: u8,
}

pub type Foretold = Answered<ToldStore>;

// Two log slots that one new head can take over (02, R-7), the lower one first.
#[derive(Clone, Copy)]
pub struct Pair {
    pub first: u32,
    pub second: u32,
}

pub type Joined = Answered<Pair>;

// The switch to the second edition (02, R-13).
pub type Switching = Answered<()>;

// The number of a cause.
pub fn number(r: Refusal) -> u32
    ensures { result ≡ number_of_refusal r }
{
    r as u32
}

// How many stores an operation has left; 0 where none is pending.
pub fn stores_left(p: Pending) -> u32
    ensures { result ≡ stores_left p }
{
    match p {
        Pending::Idle => 0,
        Pending::Append { left, .. } => left,
        Pending::NewHead { left, .. } => left,
        Pending::Clean { left, .. } => left,
        Pending::Forget { left, .. } => left,
    }
}

// The edition of the next new head: the second once the store is switched, else that of the head.
pub fn new_edition(rec: Record) -> Edition
    ensures { result ≡ new_layout rec }
{
    if rec.switched {
        return Edition::Second;
    }
    rec.edition
}

// The record with its switch set or not.
fn with_switch(rec: Record, switched: bool) -> Record
    ensures { result ≡ with_switch rec switched }
{
    Record { switched, ..rec }
}

// The record of a store that goes on in the second edition. Where it does so already nothing changes.
pub fn switched_on(rec: Record) -> Record
    ensures { result ≡ switched_on rec }
{
    match rec.edition {
        Edition::First => with_switch(rec, true),
        Edition::Second => rec,
    }
}

// The record with another pending operation.
pub fn with_pending(rec: Record, p: Pending) -> Record
    ensures { result ≡ with_pending rec p }
{
    Record { pending: p, ..rec }
}

// The record once the pending operation counts: nothing is pending, and what no operation changes stays.
pub fn committed(rec: Record, done: Commit, keys: u32, counts: [u32; 32]) -> Record
    ensures { result ≡ committed rec done keys counts }
{
    Record {
        edition: done.edition,
        head: done.head,
        end: done.end,
        digest: done.digest,
        map: done.map,
        next: done.next,
        keys,
        counts,
        pending: Pending::Idle,
        ..rec
    }
}

// The record that stands beside a refusal of recovery.
pub fn blank() -> Record
    ensures { result ≡ blank }
{
    Record {
        slots: 0,
        size: 0,
        cells: 0,
        edition: Edition::First,
        switched: false,
        head: 0,
        end: 0,
        digest: DigestNumber(0),
        map: 0,
        next: Version(0),
        keys: 0,
        counts: [0; 32],
        pending: Pending::Idle,
    }
}
