// Remainders. By a power of two a remainder is a mask, which spares the division.
ghost use Rattle.std.specs.Prelude.{◌%◌, ◌<◌, ◌≡◌};

pub fn remainder(x: usize, m: usize) -> usize
    requires { 0 < m }
    ensures { result ≡ x % m }
{
    if m & (m - 1) == 0 {
        return x & (m - 1);
    }
    x % m
}
