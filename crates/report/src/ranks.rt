// The ranks of keys, in ascending order. A key's rank is table and key as one number.
ghost use Rattle.std.specs.Prelude.{◌+◌, ◌*◌, ◌<◌, ◌≡◌, length, take};
ghost use Rattle.report.specs.Ascent.{carried};
ghost use Rattle.report.specs.Ordered.{rank, ranked};

use segment::Key;

pub fn rank(key: Key) -> u64
    ensures { result ≡ rank key }
{
    key.table as u64 * 4294967296 + key.key as u64
}

// The key of a rank.
pub fn key_of(rank: u64) -> Key
    requires { rank < 65536 * 4294967296 }
    ensures { result ≡ ranked rank }
{
    Key {
        table: (rank / 4294967296) as u16,
        key: (rank % 4294967296) as u32,
    }
}

// Puts a rank in its place among the first n, which ascend: it is carried along them, and at each place the lower one stays.
// The contract leaves free what stands behind the first n + 1. A sorted list by hand, with its length beside it: there is no heap.
pub fn insert(ranks: &mut [u64], n: usize, rank: u64)
    requires { n < length ranks.old }
    ensures { take (n + 1) ranks.new ≡ carried rank (take n ranks.old) }
{
    let mut carry = rank;
    for i in 0..n {
        let met = ranks[i];
        ranks[i] = carry.min(met);
        carry = carry.max(met);
    }
    ranks[n] = carry;
}
