// 32-bit FNV-1a over a byte slice and over a key's bytes as they are stored.
ghost use Rattle.std.specs.Prelude.{◌≡◌};
ghost use Rattle.word.specs.Fnv.{wrapped, fnv_step, fnv_from, fnv1a, key_hash};

const BASIS: u32 = 2166136261;

const PRIME: u32 = 16777619;

// The product of two numbers, kept modulo 2^32.
pub fn wrapping_mul(x: u32, y: u32) -> u32
    ensures { result ≡ wrapped x y }
{
    x.wrapping_mul(y)
}

#[tactic(auto, unfolding(crate::specs::Fnv::fnv_step))]
fn step(h: u32, b: u8) -> u32
    ensures { result ≡ fnv_step h b }
{
    wrapping_mul(h ^ u32::from(b), PRIME)
}

// The bytes of a slice taken into a hash.
fn hash_on(start: u32, s: &[u8]) -> u32
    ensures { result ≡ fnv_from start s.now }
{
    let mut h = start;
    for b in s {
        h = step(h, *b);
    }
    h
}

pub fn fnv1a(s: &[u8]) -> u32
    ensures { result ≡ fnv1a s.now }
{
    hash_on(BASIS, s)
}

// The hash of the two bytes of `table` and the four of `key`.
pub fn key_hash(table: u16, key: u32) -> u32
    ensures { result ≡ key_hash table key }
{
    hash_on(hash_on(BASIS, &table.to_le_bytes()), &key.to_le_bytes())
}
