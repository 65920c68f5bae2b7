ghost use Rattle.std.specs.Prelude.{◌≡◌, Some, refl};
ghost use Rattle.std.specs.Cmp.{on_equiv, on_per, on_po, on_total, partial_equiv_from_equiv};
ghost use Rattle.std.specs.Cmp.Lexicographic.{lists_agrees, lists_equiv, lists_per, lists_po, lists_ties, lists_total, nat_list_cmp_total, nat_list_eq_equiv, pointwise, slice_cmp, slice_partial_cmp, texts_po, texts_ties};
ghost use Rattle.std.specs.Ordering.{nat_cmp};
ghost use Rattle.std.specs.Prelude.{nat_eq};

use crate::abbreviating::Abbreviate;
use crate::items::Items;
use crate::text::Text;
use crate::tuple::Tuple;
use std::cmp::Ordering;

// Texts are compared byte by byte, and tuples item by item. So keys are compared as maps keep them.

impl PartialEq for Text {
    ghost eq = { pointwise nat_eq };

    ghost laws = { partial_equiv_from_equiv nat_list_eq_equiv };

    fn eq(&self, other: &Self) -> bool {
        self.as_str() == other.as_str()
    }
}

impl Eq for Text {
    ghost laws = { nat_list_eq_equiv };
}

impl PartialOrd for Text {
    ghost partial_cmp = { λ a b. Some (slice_cmp nat_cmp a b) };

    ghost laws = { texts_po };

    fn partial_cmp(&self, other: &Self) -> Option<Ordering> {
        Some(self.cmp(other))
    }
}

impl Ord for Text {
    ghost cmp = { slice_cmp nat_cmp };

    ghost total = { nat_list_cmp_total };

    ghost matches_partial_cmp = { λ a b. refl };

    ghost matches_eq = { texts_ties };

    fn cmp(&self, other: &Self) -> Ordering {
        self.as_str().cmp(other.as_str())
    }
}

impl<T: PartialEq> PartialEq for Items<T> {
    ghost eq = { pointwise T.eq };

    ghost laws = { lists_per T.laws };

    fn eq(&self, other: &Self) -> bool {
        are_equal(self.as_slice(), other.as_slice())
    }
}

impl<T: Eq> Eq for Items<T> {
    ghost laws = { lists_equiv T.Eq.laws };
}

impl<T: Abbreviate> PartialEq for Tuple<T> {
    ghost eq = { pointwise T.eq };

    ghost laws = { lists_per T.PartialEq.laws };

    fn eq(&self, other: &Self) -> bool {
        are_equal(self.as_slice(), other.as_slice())
    }
}

impl<T: Abbreviate> Eq for Tuple<T> {
    ghost laws = { lists_equiv T.Eq.laws };
}

impl<T: Abbreviate> PartialOrd for Tuple<T> {
    ghost partial_cmp = { slice_partial_cmp T.partial_cmp };

    ghost laws = { lists_po T.PartialOrd.laws };

    fn partial_cmp(&self, other: &Self) -> Option<Ordering> {
        partial_order(self.as_slice(), other.as_slice())
    }
}

impl<T: Abbreviate> Ord for Tuple<T> {
    ghost cmp = { slice_cmp T.cmp };

    ghost total = { lists_total T.total };

    ghost matches_partial_cmp = { lists_agrees T.matches_partial_cmp };

    ghost matches_eq = { lists_ties T.cmp T.matches_eq };

    fn cmp(&self, other: &Self) -> Ordering {
        if self.abbreviation < other.abbreviation {
            return Ordering::Less;
        }
        if self.abbreviation > other.abbreviation {
            return Ordering::Greater;
        }
        order(self.as_slice(), other.as_slice())
    }
}

// These take both slices at one lifetime, as the comparisons of slices ask.

fn are_equal<'a, T: PartialEq>(a: &'a [T], b: &'a [T]) -> bool
    ensures { result ≡ pointwise T.eq a.now b.now }
{
    a == b
}

fn partial_order<'a, T: PartialOrd>(a: &'a [T], b: &'a [T]) -> Option<Ordering>
    ensures { result ≡ slice_partial_cmp T.partial_cmp a.now b.now }
{
    a.partial_cmp(&b)
}

fn order<'a, T: Ord>(a: &'a [T], b: &'a [T]) -> Ordering
    ensures { result ≡ slice_cmp T.cmp a.now b.now }
{
    a.cmp(&b)
}
