// Digests of lists: of bytes and 16-bit numbers as they are, of block numbers and words by their 16-bit parts.
ghost use Rattle.std.specs.Prelude.{◌≡◌, refl, List, ℕ, [], ◌∷◌, ◌<◌, take};
ghost use Rattle.session.specs.Digest.{digest, digest_from, onward, parts, no_parts};

// A digest with one number more.
fn add(h: u64, x: u64) -> u64
    requires { (h < 4294967291) × (x < 65536) }
    ensures { (result ≡ onward h x) × (result < 4294967291) }
{
    (h * 65599 + x) % 4294967291
}

// A digest with a word more: its four 16-bit parts, low part first.
fn add_word(h: u64, w: u64) -> u64
    requires { h < 4294967291 }
    ensures { (result ≡ digest_from h (parts (w ∷ []))) × (result < 4294967291) }
{
    let a = add(h, w % 65536);
    let b = add(a, (w >> 16) % 65536);
    let c = add(b, (w >> 32) % 65536);
    add(c, (w >> 48) % 65536)
}

// What a digest is made of.
pub trait Digested: Copy {
    // The numbers that a list counts as.
    ghost numbers: { List Self → List ℕ };

    ghost none: { numbers [] ≡ [] };

    // A digest with this one more.
    fn add_to(self, h: u64) -> u64
        requires { h < 4294967291 }
        ensures on { (xs : List Self) → digest_from h (numbers (self ∷ xs)) ≡ digest_from result (numbers xs) }
        ensures below { result < 4294967291 };
}

impl Digested for u8 {
    ghost numbers = { λ xs. xs };

    ghost none = { refl };

    fn add_to(self, h: u64) -> u64 {
        add(h, u64::from(self))
    }
}

impl Digested for u16 {
    ghost numbers = { λ xs. xs };

    ghost none = { refl };

    fn add_to(self, h: u64) -> u64 {
        add(h, u64::from(self))
    }
}

impl Digested for u32 {
    ghost numbers = { parts };

    ghost none = { no_parts };

    fn add_to(self, h: u64) -> u64 {
        add_word(h, u64::from(self))
    }
}

impl Digested for u64 {
    ghost numbers = { parts };

    ghost none = { no_parts };

    fn add_to(self, h: u64) -> u64 {
        add_word(h, self)
    }
}

pub fn of<T: Digested>(list: &[T]) -> u64
    ensures { result ≡ digest (T.numbers list.now) }
{
    let mut h: u64 = 1;
    for x in list {
        h = x.add_to(h);
    }
    h
}

// Of the first n; of all where there are fewer.
pub fn of_front<T: Digested>(list: &[T], n: usize) -> u64
    ensures { result ≡ digest (T.numbers (take n list.now)) }
{
    of(&list[..n.min(list.len())])
}
