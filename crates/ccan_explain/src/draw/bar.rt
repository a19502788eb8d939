ghost use Rattle.std.specs.Prelude.{◌≡◌, ◌≤◌, ◌<◌, false, length, IfSome, IfNone};
ghost use Rattle.ccan_explain.specs.Bar.{EndsAt, IsBar, begins, is_set};

/// The rows along which a flag is set without a break: from the row that set it to the row that cleared it.
#[derive(Clone, Copy, PartialEq, Eq, Debug)]
pub struct Bar {
    /// The row that set the flag.
    pub from: usize,
    /// The row that cleared it, or how many rows there are.
    pub to: usize,
}

/// Whether the flag is set after a row.
fn is_set(shown: &[bool], row: usize) -> bool
    ensures { result ≡ is_set shown.now row }
{
    shown.get(row).copied().unwrap_or(false)
}

/// Whether a row sets the flag.
fn begins(shown: &[bool], row: usize) -> bool
    ensures { result ≡ begins shown.now row }
{
    is_set(shown, row) && (row == 0 || !is_set(shown, row - 1))
}

/// The first row from this one on that leaves the flag not set, or how many there are.
fn end_of(shown: &[bool], from: usize) -> usize
    requires { from ≤ length shown.now }
    ensures { EndsAt shown.now from result }
{
    for row in from..shown.len() {
        if !is_set(shown, row) {
            return row;
        }
    }
    shown.len()
}

/// The bar that begins in a row.
pub fn bar_at(shown: &[bool], row: usize) -> Option<Bar>
    requires { row < length shown.now }
    ensures bar { IfSome result (λ bar. IsBar shown.now row bar) }
    ensures none { IfNone result (begins shown.now row ≡ false) }
{
    if begins(shown, row) {
        Some(Bar {
            from: row,
            to: end_of(shown, row),
        })
    } else {
        None
    }
}
