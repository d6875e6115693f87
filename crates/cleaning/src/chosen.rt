// The entries that are kept, one bit for each eight bytes of the area. No two entries start within the length of the shortest.
ghost use Rattle.std.specs.Prelude.{◌≡◌, length};
ghost use Rattle.cleaning.specs.Chosen.{is_chosen, chosen_with};

use crate::bits::{has_bit, set_bit};

// Chooses the entry at a place.
pub fn choose(chosen: &mut [u32], place: usize)
    requires { length chosen.old ≡ 256 }
    ensures { chosen.new ≡ chosen_with chosen.old place }
{
    set_bit::<256>(chosen, place / 8);
}

// Whether the entry at a place is chosen.
pub fn is_chosen(chosen: &[u32], place: usize) -> bool
    requires { length chosen.now ≡ 256 }
    ensures { result ≡ is_chosen chosen.now place }
{
    has_bit::<256>(chosen, place / 8)
}
