// Numbers with a limit.
ghost use Rattle.std.specs.Prelude.{◌≡◌, ◌≤◌, ◌↔◌, IfSome, IsSome};

// A number that is at most MOST.
#[derive(Clone, Copy, Debug, PartialEq, Eq)]
pub struct UpTo<const MOST: usize> {
    pub n: usize,
    ghost within: { n ≤ MOST },
}

impl<const MOST: usize> UpTo<MOST> {
    pub fn zero() -> UpTo<MOST>
        ensures { result.n ≡ 0 }
    {
        UpTo { n: 0 }
    }

    // None where the number is above MOST.
    pub fn of(n: u64) -> Option<UpTo<MOST>>
        ensures value { IfSome result (λ r. r.n ≡ n) }
        ensures within { IsSome result ↔ (n ≤ MOST) }
    {
        let n = n as usize;
        if n <= MOST { Some(UpTo { n }) } else { None }
    }
}
