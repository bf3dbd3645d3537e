//! Rules on lists, and the first element that breaks one.

ghost use Rattle.std.specs.Prelude.{◌≡◌, ◌↔◌, IsTrue, List, IfNone, IfSome};
ghost use Rattle.kc_regions.specs.Each.{Each, IsFirstBreaking};

/// A rule that asks each element together with those before it.
pub(crate) trait Rule<T> {
    ghost kept: { Self → List T → T → Type 0 };

    fn keeps(&self, earlier: &[T], item: &T) -> bool
        ensures { IsTrue result ↔ kept self.now earlier.now item.now };
}

/// The index of the first element that breaks the rule.
pub(crate) fn first_breaking<T, R: Rule<T>>(rule: &R, items: &[T]) -> Option<usize>
    ensures none { IfNone result (Each (R.kept rule.now) items.now) }
    ensures some { IfSome result (IsFirstBreaking (R.kept rule.now) items.now) }
{
    for (i, item) in items.iter().enumerate() {
        if !rule.keeps(&items[..i], item) {
            return Some(i);
        }
    }
    None
}
