// Per mille to the nearest, an exact half going to the even number: document 02, slip 4.
#![tactic(auto)]

ghost use Rattle.std.specs.Prelude.{◌≡◌, ◌≤◌, ◌<◌};
ghost use Rattle.label.specs.PerMille.{nearest, per_mille};

use std::cmp::Ordering;

const THOUSAND: u64 = 1000;

// Of a division by `l`, its quotient and its remainder.
fn nearest(quotient: u64, remainder: u64, l: u64) -> u64
    requires { (quotient ≤ 1000) × (remainder < 4294967296) }
    ensures { result ≡ nearest quotient remainder l }
{
    match (2 * remainder).cmp(&l) {
        Ordering::Less => quotient,
        Ordering::Greater => quotient + 1,
        Ordering::Equal => quotient + quotient % 2,
    }
}

// Of a part and its whole. Inside the layers: the part is at most the whole, and the whole is not 0.
pub fn per_mille(part: u32, whole: u32) -> u32
    requires { (part ≤ whole) × (1 ≤ whole) }
    ensures { result ≡ per_mille part whole }
{
    let all = THOUSAND * part as u64;
    let l = whole as u64;
    nearest(all / l, all % l, l) as u32
}
