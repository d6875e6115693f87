// The lowest pair by the numbers of the two walks.
ghost use Rattle.std.specs.Prelude.{◌≤◌, ◌<◌, ◌≡◌, ltb, length};
ghost use Rattle.segment.specs.Choice.{both};
ghost use Rattle.segment.specs.Layout.{digest_size};
ghost use Rattle.model.specs.Joining.{partner_of, lowest_pair};
ghost use Rattle.joining.specs.Weights.{numbers_fit};
ghost use Rattle.joining.specs.PairLaws.{PairsFit, partner_is, chosen_is};

use cleaning::Split;
use drive_log::slots::is_named;
use segment::Edition;
use segment::layout::digest_size;

// Whether two slots, the lower one first, are of the log and fit one new head.
fn pair_fits(
    edition: Edition,
    totals: &[u32],
    shares: &[u16],
    split: Split,
    i: usize,
    j: usize,
) -> bool
    requires pairs_fit { PairsFit split totals.now shares.now }
    requires i_lt_slots { i < split.slots }
    requires j_lt_slots { j < split.slots }
    ensures { result ≡ both (ltb i j) (numbers_fit totals.now shares.now split (digest_size edition) i j) }
{
    if j <= i {
        return false;
    }
    if !is_named(split.outside, i) {
        return false;
    }
    if !is_named(split.outside, j) {
        return false;
    }
    let both = digest_size(edition) + totals[i] as usize + totals[j] as usize;
    let a = i * 32 + j;
    let b = j * 32 + i;
    both <= split.size + shares[a] as usize + shares[b] as usize
}

// The lowest slot above i that can be joined with it, if there is one.
fn partner(
    edition: Edition,
    totals: &[u32],
    shares: &[u16],
    split: Split,
    i: usize,
) -> Option<usize>
    requires pairs_fit { PairsFit split totals.now shares.now }
    requires i_lt_slots { i < split.slots }
    ensures { result ≡ partner_is (partner_of (numbers_fit totals.now shares.now split (digest_size edition)) split.slots i) }
{
    for j in 0..split.slots {
        if pair_fits(edition, totals, shares, split, i, j) {
            return Some(j);
        }
    }
    None
}

// The lowest pair, if there is one: its lower slot decides first.
pub fn lowest_pair(
    edition: Edition,
    totals: &[u32],
    shares: &[u16],
    split: Split,
) -> Option<(usize, usize)>
    requires { PairsFit split totals.now shares.now }
    ensures { result ≡ chosen_is (lowest_pair (numbers_fit totals.now shares.now split (digest_size edition)) split.slots) }
{
    for i in 0..split.slots {
        if let Some(j) = partner(edition, totals, shares, split, i) {
            return Some((i, j));
        }
    }
    None
}
