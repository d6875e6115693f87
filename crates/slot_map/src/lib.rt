// Slot maps: a word with one bit for each slot, the lowest for slot 0. The definitions say a bit by division and remainder,
// and the code goes by shifts and masks.
#![tactic(auto)]

ghost use Rattle.std.specs.Prelude.{◌≡◌, ◌^◌, ◌≤◌, ◌<◌, ltb};
ghost use Rattle.slot_map.specs.Bit.{named, with_bit, less, within};
ghost use Rattle.slot_map.specs.Count.{free, all_slots};
ghost use Rattle.slot_map.specs.Next.{next_free};

// Whether the map names slot i.
pub fn has_slot(map: u32, i: u32) -> bool
    requires { i < 32 }
    ensures { result ≡ named map i }
{
    (map >> i) & 1 == 1
}

// The map with slot i.
pub fn with_slot(map: u32, i: u32) -> u32
    requires { i < 32 }
    ensures { result ≡ with_bit map i }
{
    map | (1 << i)
}

// The map without the slots that the victims name.
pub fn without_slots(map: u32, victims: u32) -> u32
    ensures { result ≡ less map victims }
{
    map & !victims
}

// Whether the map names every victim.
pub fn is_within(victims: u32, map: u32) -> bool
    ensures { result ≡ within victims map }
{
    victims & map == victims
}

// Whether a map names only slots below n and leaves one of them free: it is then below the map of all n.
pub fn leaves_free(n: u32, map: u32) -> bool
    requires { (1 ≤ n) × (n ≤ 32) }
    ensures { result ≡ ltb map (all_slots n) }
{
    map < 0xffff_ffff >> (32 - n)
}

// How many of n slots a map of slots below n leaves free.
pub fn free_slots(n: u32, map: u32) -> u32
    requires { map < 2 ^ n }
    ensures { result ≡ free n map }
{
    n - u32::count_ones(map)
}

// The first free slot of n after the head, going round; n where the map names all n. The slots above
// the head come first, and where none of them is free, the lowest free slot. No shift is by 32: one by
// the head and one by 1 leave the slots above the head.
pub fn next_free(n: u32, map: u32, head: u32) -> u32
    requires { (1 ≤ n) × (n ≤ 32) × (head < n) }
    ensures { result ≡ next_free n map head }
{
    let vacant = !map & (0xffff_ffff >> (32 - n));
    let above = (vacant >> head) >> 1;
    if above != 0 {
        return head + 1 + u32::trailing_zeros(above);
    }
    if vacant == 0 {
        return n;
    }
    u32::trailing_zeros(vacant)
}
