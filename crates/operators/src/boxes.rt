//! The operators in boxes.

/// The operators of a store, add, max and join, in boxes that `$alloc` makes. Where a box can't be had, `?` ends the
/// function that calls this.
#[macro_export]
macro_rules! boxed_operators {
    ($alloc:expr) => {
        $crate::Operators::new(
            Box::new($alloc, |old: &Option<_>, argument: &_| {
                $crate::add(old, argument)
            })?,
            Box::new($alloc, |old: &Option<_>, argument: &_| {
                $crate::max(old, argument)
            })?,
            Box::new($alloc, |old: &Option<_>, argument: &_| {
                $crate::join(old, argument)
            })?,
        )
    };
}
