// Bits by number, 32 in each of a fixed count of words.
ghost use Rattle.std.specs.Prelude.{◌≤◌, ◌<◌, ◌≡◌, length};
ghost use Rattle.cleaning.specs.Bits.{has_bit, bits_with};

// Sets the bit of a number.
pub fn set_bit<const WORDS: usize>(bits: &mut [u32], number: usize)
    requires some_word { 0 < WORDS }
    requires words_in_bounds { WORDS ≤ length bits.old }
    ensures { bits.new ≡ bits_with WORDS bits.old number }
{
    let word = number / 32 % WORDS;
    let bit = (number % 32) as u32;
    bits[word] = slot_map::with_slot(bits[word], bit);
}

// Whether the bit of a number is set.
pub fn has_bit<const WORDS: usize>(bits: &[u32], number: usize) -> bool
    requires some_word { 0 < WORDS }
    requires words_in_bounds { WORDS ≤ length bits.now }
    ensures { result ≡ has_bit WORDS bits.now number }
{
    let bit = (number % 32) as u32;
    slot_map::has_slot(bits[number / 32 % WORDS], bit)
}
