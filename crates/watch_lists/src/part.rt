//! Parts of all literals. The watch lists of one part after the other are filled.

ghost use Rattle.std.specs.Prelude.{◌≡◌, ◌<◌};
ghost use Rattle.watch_lists.specs.Code.Part.{is_in};

use cnf_base::Lit;
use tables::key;

/// How many literals a part has. A processor's caches and its buffer of page addresses have room
/// for the lists of as many, where they have none for those of all literals.
const LITERALS: usize = 262144;

/// How many parts there are at most, since all clauses are gone over for each.
const MOST: usize = 16;

/// The literals with numbers of one range: the last part has those of all ranges that are left.
#[derive(Clone, Copy)]
pub(crate) struct Part {
    pub(crate) number: u32,
    /// The number of the last part.
    pub(crate) last: u32,
}

/// The number of the last part, where so many literals come first by number.
pub(crate) fn last_for(literals: usize) -> u32
    ensures { result < 16 }
{
    (literals / LITERALS).min(MOST - 1) as u32
}

impl Part {
    /// Whether it has the literal.
    #[inline(always)]
    pub(crate) fn has(self, l: Lit) -> bool
        ensures { result ≡ is_in self l }
    {
        (key(l) / LITERALS as u32).min(self.last) == self.number
    }
}
