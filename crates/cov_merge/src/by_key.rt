ghost use Rattle.std.specs.Cmp.{eq_by_cmp_equiv, partial_equiv_from_equiv, partial_order_from_total, on_total};
ghost use Rattle.std.specs.Ordering.{on, eq_by_cmp, as_partial_cmp};
ghost use Rattle.std.specs.Prelude.{refl};

use crate::counted::Counted;
use std::cmp::Ordering;

// An entry that is compared by its key.
#[derive(Drop)]
pub(crate) struct ByKey<'a, T>(pub(crate) &'a T);

impl<T: Counted> PartialEq for ByKey<'_, T> {
    ghost eq = { eq_by_cmp (on (λ entry. entry.0.now) T.order) };

    ghost laws = { partial_equiv_from_equiv (eq_by_cmp_equiv (on_total (λ entry. entry.0.now) T.total)) };

    fn eq(&self, other: &Self) -> bool {
        self.0.compare(other.0).is_eq()
    }
}

impl<T: Counted> Eq for ByKey<'_, T> {
    ghost laws = { eq_by_cmp_equiv (on_total (λ entry. entry.0.now) T.total) };
}

impl<T: Counted> PartialOrd for ByKey<'_, T> {
    ghost partial_cmp = { as_partial_cmp (on (λ entry. entry.0.now) T.order) };

    ghost laws = { partial_order_from_total (on_total (λ entry. entry.0.now) T.total) };

    fn partial_cmp(&self, other: &Self) -> Option<Ordering> {
        Some(self.0.compare(other.0))
    }
}

impl<T: Counted> Ord for ByKey<'_, T> {
    ghost cmp = { on (λ entry. entry.0.now) T.order };

    ghost total = { on_total (λ entry. entry.0.now) T.total };

    ghost matches_partial_cmp = { λ _ _. refl };

    ghost matches_eq = { λ _ _. refl };

    fn cmp(&self, other: &Self) -> Ordering {
        self.0.compare(other.0)
    }
}
