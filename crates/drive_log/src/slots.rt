// The slots of a map.
ghost use Rattle.std.specs.Prelude.{◌<◌, ◌≡◌};
ghost use Rattle.slot_map.specs.Bit.{named};

// Whether the map names a slot.
pub fn is_named(map: u32, slot: usize) -> bool
    requires { slot < 32 }
    ensures { result ≡ named map slot }
{
    slot_map::has_slot(map, slot as u32)
}
