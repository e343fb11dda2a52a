//! The hash of a clause as a set.
//!
//! It is the upper half of a sum over its different literals, so their order does not matter. It
//! takes four bytes less a clause than the sum, and among a million clauses some hundred pairs have
//! one hash. Whoever searches has to tell these apart: a collision costs time alone.
//!
//! The mixing has a seed, one number a run. Without one, whoever writes a proof could find some
//! 65000 clauses of eight literals with one sum in seconds, and each search among them would go
//! over all.

ghost use Rattle.std.specs.Prelude.{◌≡◌, ◌/◌, ◌^◌, length};
ghost use Rattle.cnf_base.specs.Literals.{size};
ghost use Rattle.clause_index.specs.Hashes.{hash, mix};

use cnf_base::Lit;

/// A literal spread over the words, by the seed: its share of the sum that a hash is half of.
#[inline(always)]
#[tactic(auto, unfolding(crate::specs::Hashes::mix))]
pub fn mixed(seed: u64, l: Lit) -> u64
    ensures { result ≡ mix seed l }
{
    let x = (l.index() as u64)
        .wrapping_mul(11400714819323198485)
        .wrapping_add(seed);
    let y = (x ^ (x / 1073741824)).wrapping_mul(13787848793156543929);
    (y ^ (y / 134217728)).wrapping_mul(10723151780598845931)
}

/// The upper half of a sum of mixed literals, which is the hash of the clause that they are of.
#[inline(always)]
pub fn upper_half(sum: u64) -> u32
    ensures { result ≡ sum / 2 ^ 32 }
{
    (sum / 4294967296) as u32
}

/// The hash by the seed of a clause that repeats no literal.
pub(crate) fn hash_of(seed: u64, lits: &[Lit]) -> u32
    requires { size lits.now ≡ length lits.now }
    ensures { result ≡ hash seed lits.now }
{
    let mut sum: u64 = 0;
    for l in lits {
        sum = sum.wrapping_add(mixed(seed, *l));
    }
    upper_half(sum)
}
