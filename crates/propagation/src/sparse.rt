//! Whether clauses stand far apart in memory, since many between them are gone.

ghost use Rattle.std.specs.Prelude.{◌≡◌, ◌+◌, ◌*◌, nat_lt};

/// So many free slots are never gathered.
const SPARE_SLOTS: u128 = 16384;

/// Whether more than three in four of these slots are free: a clause needs one and a fourth of its
/// literals, so a unit needs one and another clause at most three fourths of its literals. While
/// clauses are inserted anew they stand in memory twice: so it is done where they are few.
pub fn is_sparse(slots: usize, literals: u64, units: usize) -> bool
    ensures { result ≡ nat_lt (3 * literals + 4 * units + 16384) slots }
{
    (slots as u128) > 3 * u128::from(literals) + 4 * (units as u128) + SPARE_SLOTS
}
