//! Deletions of LRAT.

ghost use Rattle.std.specs.Prelude.{◌≡◌, ℕ, ◌≤◌, option_map, map, nat_abs, IfNone};
ghost use Rattle.std.specs.FinMap as maps;
ghost use Rattle.theory.specs.Lrat.{without_ids, deletion_refusal};
ghost use Rattle.theory.specs.declared.refusal.Refusal.TheVariants.{UnknownId};

use live_clauses::LiveClauses;

/// Takes the clauses off in order, up to the first identifier that is not alive at its turn, which
/// is the result.
pub(crate) fn delete_all(live: &mut LiveClauses, ids: &[i64]) -> Option<u64>
    ensures missing { option_map UnknownId result ≡ deletion_refusal (maps.get live.old.live)
        (map nat_abs ids.now) }
    ensures live { IfNone result ((k : ℕ) → maps.get live.new.live k ≡ without_ids
        (maps.get live.old.live) (map nat_abs ids.now) k) }
    ensures top { live.new.top ≡ live.old.top }
    ensures fewer { live.new.stored ≤ live.old.stored }
{
    for id in ids {
        let id = id.unsigned_abs();
        if !live.remove(id) {
            return Some(id);
        }
    }
    None
}
