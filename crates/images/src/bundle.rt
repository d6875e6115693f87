// The bytes of an item: N (1 byte), S (2), M (2), the length of the area (4), how many of its bytes are stored here (4), the
// lengths of the name (1) and of the order list (1), and the number of keys to read (1); then the name, the order list, the
// stored bytes, and six bytes for each key. Numbers are little-endian. The bytes of an area that are not stored are junk.
ghost use Rattle.std.specs.Prelude.{◌≤◌, ◌<◌, ◌+◌, ◌≡◌, length};
ghost use Rattle.std.specs.Option.{IfSome, is_none};
ghost use Rattle.images.specs.Bundle.{header_of, item_length, item_end, key_at, name_in, order_in, stored_in, keys_in, lacks_part};

use segment::Key;
use word::number::{read16, read32};

// The bytes before an item's name.
pub const HEADER: usize = 16;

// The bytes of a key.
pub const KEY: usize = 6;

#[derive(Clone, Copy)]
pub struct Header {
    pub slots: u8,
    pub size: u16,
    pub cells: u16,
    pub area: u32,
    pub stored: u32,
    pub name: u8,
    pub order: u8,
    pub keys: u8,
}

#[derive(Clone, Copy)]
pub struct Item<'a> {
    pub header: Header,
    pub name: &'a [u8],
    pub order: &'a [u8],
    pub stored: &'a [u8],
    pub keys: &'a [u8],
}

// The header of an item.
pub fn header_of(item: &[u8]) -> Header
    requires { 16 ≤ length item.now }
    ensures { result ≡ header_of item.now }
{
    Header {
        slots: item[0],
        size: read16(item, 1),
        cells: read16(item, 3),
        area: read32(item, 5),
        stored: read32(item, 9),
        name: item[13],
        order: item[14],
        keys: item[15],
    }
}

// The length of the whole item.
pub fn item_length(h: Header) -> usize
    ensures { result ≡ item_length h }
{
    HEADER + h.name as usize + h.order as usize + h.stored as usize + KEY * (h.keys as usize)
}

// Where the item at a place ends; the bundle's end where it lacks a part of the item.
pub fn item_end(bundle: &[u8], at: usize) -> usize
    requires { at < length bundle.now }
    ensures { (result ≡ item_end bundle.now at) × (at < result) × (result ≤ length bundle.now) }
{
    let left = bundle.len() - at;
    if left < HEADER {
        return bundle.len();
    }
    let length = item_length(header_of(&bundle[at..]));
    if left < length {
        return bundle.len();
    }
    at + length
}

// The parts of an item; none where it lacks one.
pub(crate) fn parts(bytes: &[u8]) -> Option<Item<'_>>
    ensures lacks { is_none result ≡ lacks_part bytes.now }
    ensures cut { IfSome result (λ item. (item.header ≡ header_of bytes.now) × (item.name.now ≡ name_in bytes.now)
        × (item.order.now ≡ order_in bytes.now) × (item.stored.now ≡ stored_in bytes.now) × (item.keys.now ≡ keys_in bytes.now)) }
{
    if bytes.len() < HEADER {
        return None;
    }
    let header = header_of(bytes);
    if bytes.len() < item_length(header) {
        return None;
    }
    let (_, rest) = bytes.split_at(HEADER);
    let (name, rest) = rest.split_at(header.name as usize);
    let (order, rest) = rest.split_at(header.order as usize);
    let (stored, keys) = rest.split_at(header.stored as usize);
    Some(Item {
        header,
        name,
        order,
        stored,
        keys,
    })
}

// The key at a place of the list of keys.
pub fn key_at(keys: &[u8], at: usize) -> Key
    requires { at + 6 ≤ length keys.now }
    ensures { result ≡ key_at keys.now at }
{
    Key {
        table: read16(keys, at),
        key: read32(keys, at + 2),
    }
}
