// The exports to C and Rust (include/kurdavel.h): the static library over the crate `kurdavel`, in the order of the header. Each export
// calls the function of the same name there and states its clauses again, since a library exports nothing itself and a static library
// is no other crate's to use.
#![tactic(auto)]

ghost use Rattle.model.specs.Operations.{write, delete, clean};
ghost use Rattle.model.specs.Refused.{freely, reaching};
ghost use Rattle.position.specs.Convert.{from_float, to_float, ConversionCrossed};
ghost use Rattle.record.specs.declared.Expected.{Expected};
ghost use Rattle.kurdavel.specs.Crossing.{FormatCrossed, RecoverCrossed, ReadCrossed, ValueCrossed, StartCrossed, StepCrossed, TellCrossed, FewestCrossed, SwitchCrossed, ScanCrossed, ScanValueCrossed, ConvertCrossed};
ghost use Rattle.kurdavel.specs.Joining.{JoinCrossed};

#[unsafe(no_mangle)]
pub extern "C" fn kurdavel_format(slots: u32, size: u32, edition: u32, area: &mut [u8]) -> u32
    ensures { FormatCrossed edition slots size area.old area.new result }
{
    kurdavel::kurdavel_format(slots, size, edition, area)
}

#[unsafe(no_mangle)]
pub extern "C" fn kurdavel_recover(
    slots: u32,
    size: u32,
    order: &[u8],
    area: &[u8],
    index: &mut [u32],
    words: &mut [u32],
) -> u32
    ensures { RecoverCrossed slots size order.now area.now index.old index.new
        words.old words.new result }
{
    kurdavel::kurdavel_recover(slots, size, order, area, index, words)
}

#[unsafe(no_mangle)]
pub extern "C" fn kurdavel_read(
    words: &[u32],
    area: &[u8],
    index: &[u32],
    first: u16,
    last: u16,
    table: u16,
    key: u32,
    version: &mut u64,
    kind: &mut u32,
) -> u32
    ensures { ReadCrossed words.now area.now index.now (record { first = first; last = last })
        (record { table = table; key = key }) version.new kind.new result }
{
    kurdavel::kurdavel_read(words, area, index, first, last, table, key, version, kind)
}

#[unsafe(no_mangle)]
pub extern "C" fn kurdavel_read_value(
    words: &[u32],
    area: &[u8],
    index: &[u32],
    first: u16,
    last: u16,
    table: u16,
    key: u32,
    place: &mut u32,
    bytes: &mut u32,
) -> u32
    ensures { ValueCrossed words.now area.now index.now (record { first = first; last = last })
        (record { table = table; key = key }) place.new bytes.new result }
{
    kurdavel::kurdavel_read_value(words, area, index, first, last, table, key, place, bytes)
}

#[unsafe(no_mangle)]
pub extern "C" fn kurdavel_write(
    words: &mut [u32],
    area: &[u8],
    index: &[u32],
    work: &mut [u8],
    first: u16,
    last: u16,
    table: u16,
    key: u32,
    value: &[u8],
    stores: &mut u32,
) -> u32
    ensures { StartCrossed (reaching (record { first = first; last = last }))
        (write (record { table = table; key = key }) value.now) words.old
        words.new area.now index.now work.old work.new stores.old
        stores.new result }
{
    kurdavel::kurdavel_write(
        words, area, index, work, first, last, table, key, value, stores,
    )
}

#[unsafe(no_mangle)]
pub extern "C" fn kurdavel_write_expecting(
    words: &mut [u32],
    area: &[u8],
    index: &[u32],
    work: &mut [u8],
    first: u16,
    last: u16,
    table: u16,
    key: u32,
    expected: u64,
    value: &[u8],
    stores: &mut u32,
) -> u32
    ensures { StartCrossed (record { tables = record { first = first; last = last }; expected = Expected.Only (record { 0 = expected }) })
        (write (record { table = table; key = key }) value.now) words.old words.new
        area.now index.now work.old work.new stores.old stores.new result }
{
    kurdavel::kurdavel_write_expecting(
        words, area, index, work, first, last, table, key, expected, value, stores,
    )
}

#[unsafe(no_mangle)]
pub extern "C" fn kurdavel_delete(
    words: &mut [u32],
    area: &[u8],
    index: &[u32],
    work: &mut [u8],
    first: u16,
    last: u16,
    table: u16,
    key: u32,
    stores: &mut u32,
) -> u32
    ensures { StartCrossed (reaching (record { first = first; last = last })) (delete (record { table = table; key = key })) words.old words.new area.now
        index.now work.old work.new stores.old stores.new result }
{
    kurdavel::kurdavel_delete(words, area, index, work, first, last, table, key, stores)
}

#[unsafe(no_mangle)]
pub extern "C" fn kurdavel_clean(
    words: &mut [u32],
    area: &[u8],
    index: &[u32],
    work: &mut [u8],
    victims: u32,
    stores: &mut u32,
) -> u32
    ensures { StartCrossed freely (clean victims) words.old words.new area.now index.now
        work.old work.new stores.old stores.new result }
{
    kurdavel::kurdavel_clean(words, area, index, work, victims, stores)
}

#[unsafe(no_mangle)]
pub extern "C" fn kurdavel_step(
    words: &mut [u32],
    area: &mut [u8],
    index: &mut [u32],
    work: &[u8],
    left: &mut u32,
    version: &mut u64,
) -> u32
    ensures { StepCrossed words.old words.new area.old area.new index.old
        index.new work.now left.old left.new version.old
        version.new result }
{
    kurdavel::step::kurdavel_step(words, area, index, work, left, version)
}

#[unsafe(no_mangle)]
pub extern "C" fn kurdavel_next_store(
    words: &[u32],
    area: &[u8],
    work: &[u8],
    at: &mut u32,
    byte: &mut u32,
) -> u32
    ensures { TellCrossed words.now area.now work.now at.new byte.new result }
{
    kurdavel::step::kurdavel_next_store(words, area, work, at, byte)
}

#[unsafe(no_mangle)]
pub extern "C" fn kurdavel_fewest(words: &[u32], slot: &mut u32) -> u32
    ensures { FewestCrossed words.now slot.new result }
{
    kurdavel::fewest::kurdavel_fewest(words, slot)
}

#[unsafe(no_mangle)]
pub extern "C" fn kurdavel_switch(words: &mut [u32]) -> u32
    ensures { SwitchCrossed words.old words.new result }
{
    kurdavel::switch::kurdavel_switch(words)
}

#[unsafe(no_mangle)]
pub extern "C" fn kurdavel_join(
    words: &[u32],
    area: &[u8],
    index: &[u32],
    first: &mut u32,
    second: &mut u32,
) -> u32
    ensures { JoinCrossed words.now area.now index.now first.new second.new result }
{
    kurdavel::kurdavel_join(words, area, index, first, second)
}

#[unsafe(no_mangle)]
pub extern "C" fn kurdavel_scan_read(
    slots: u32,
    size: u32,
    area: &[u8],
    first: u16,
    last: u16,
    table: u16,
    key: u32,
    version: &mut u64,
    kind: &mut u32,
) -> u32
    ensures { ScanCrossed slots size area.now (record { first = first; last = last }) (record { table = table; key = key })
        version.new kind.new result }
{
    kurdavel::scan::kurdavel_scan_read(slots, size, area, first, last, table, key, version, kind)
}

#[unsafe(no_mangle)]
pub extern "C" fn kurdavel_scan_read_value(
    slots: u32,
    size: u32,
    area: &[u8],
    first: u16,
    last: u16,
    table: u16,
    key: u32,
    place: &mut u32,
    bytes: &mut u32,
) -> u32
    ensures { ScanValueCrossed slots size area.now (record { first = first; last = last })
        (record { table = table; key = key }) place.new bytes.new result }
{
    kurdavel::scan::kurdavel_scan_read_value(
        slots, size, area, first, last, table, key, place, bytes,
    )
}

#[unsafe(no_mangle)]
pub extern "C" fn kurdavel_convert(slots: u32, size: u32, source: &[u8], target: &mut [u8]) -> u32
    ensures { ConvertCrossed slots size source.now target.old target.new result }
{
    kurdavel::convert::kurdavel_convert(slots, size, source, target)
}

#[unsafe(no_mangle)]
pub extern "C" fn kurdavel_from_float(value: &[u8], converted: &mut [u8; 8]) -> u32
    ensures { ConversionCrossed (from_float value.now) converted.new result }
{
    kurdavel::kurdavel_from_float(value, converted)
}

#[unsafe(no_mangle)]
pub extern "C" fn kurdavel_to_float(value: &[u8], converted: &mut [u8; 8]) -> u32
    ensures { ConversionCrossed (to_float value.now) converted.new result }
{
    kurdavel::kurdavel_to_float(value, converted)
}
