// Pseudo-random words.
ghost use Rattle.std.specs.Prelude.{◌≡◌, length};
ghost use Rattle.session.specs.Made.{scrambled, first_noise, noise};

// The word that follows a word.
fn scrambled(x: u64) -> u64
    ensures { result ≡ scrambled x }
{
    let a = x ^ (x << 13);
    let b = a ^ (a >> 7);
    b ^ (b << 17)
}

// What the words of a seed start from.
fn first_noise(seed: u64) -> u64
    ensures { result ≡ first_noise seed }
{
    if seed == 0 {
        return 88172645463325252;
    }
    seed
}

// Every word of the part gets the next value of the seed's.
pub fn fill(part: &mut [u64], seed: u64)
    ensures { part.new ≡ noise (first_noise seed) (length part.old) }
{
    let mut x = first_noise(seed);
    for word in part {
        x = scrambled(x);
        *word = x;
    }
}
