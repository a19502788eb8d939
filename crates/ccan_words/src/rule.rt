use crate::layout::Layout;
use crate::view::View;
use crate::words::Key;
use atomic_table::TableRule;
use std::marker::PhantomData;

/// The rule of the words of a memory, by which each step on them is proved: see `specs/Rule.antt`.
pub struct Rule<L> {
    layout: PhantomData<L>,
}

impl<L: Layout> TableRule<(), View, Key> for Rule<L> {
    ghost use Rattle.ccan_words.specs.View.{all_ports};
    ghost use Rattle.ccan_words.specs.Rule.{Keeps};

    ghost holds = { λ key. Keeps (L.form key.profile) };

    ghost first = { λ key. all_ports key.quota };
}
