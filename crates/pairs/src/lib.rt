// Pairs of items u < v by number: 0, 1, 2, 3 are (0,1), (0,2), (1,2), (0,3), and so on.
#![tactic(auto)]

ghost use Rattle.std.specs.Prelude.{◌≡◌, ◌<◌, ◌≤◌};
ghost use Rattle.model.specs.Pairs as P;
ghost use Rattle.pairs.specs.Values.{pair_value};

// Two items, the lower first.
#[derive(Clone, Copy)]
pub struct Pair {
    pub u: usize,
    pub v: usize,
}

// How many pairs n items have, n × (n − 1) / 2; the first pair with item n itself has this number.
pub fn pair_count(n: usize) -> usize
    requires { n ≤ 10 }
    ensures { result ≡ P.pair_number 0 n }
{
    (n * n - n) / 2
}

// The number of a pair, v × (v − 1) / 2 + u: the pairs of items below v come before it, then those of v with items below u.
pub fn pair_number(u: usize, v: usize) -> usize
    requires { (u < v) × (v < 10) }
    ensures { result ≡ P.pair_number u v }
{
    pair_count(v) + u
}

// The pair of a number: 1, 2, 3 and so on are taken off while they can be; v is the first that cannot, u what is left. No `for`: how
// far v counts depends on what is left.
pub fn pair_of(number: usize) -> Pair
    ensures { pair_value result ≡ P.pair_of number }
{
    let mut u = number;
    let mut v = 1;
    while v <= u {
        u -= v;
        v += 1;
    }
    Pair { u, v }
}
