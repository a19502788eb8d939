ghost use Rattle.std.specs.Prelude.{◌≡◌, false, IfOk};
ghost use Rattle.ccan_explain.specs.Column.{flags_behind, left_by};

use crate::{Step, Touched};
use ccan_object::ObjectNo;
use ccan_ram::Flag;
use std::alloc::{AllocError, Global};

/// The flags that are shown of an object.
pub const FLAGS: [Flag; 4] = [Flag::NewDat, Flag::MsgLst, Flag::IntPnd, Flag::TxRqst];

/// A flag of an object, row by row.
#[derive(Drop)]
pub struct Column {
    /// The object.
    pub object: ObjectNo,
    /// The flag.
    pub flag: Flag,
    /// Whether it is set after each row.
    pub shown: Vec<bool>,
}

/// Whether the flag is set after a step that touches these, by whether it was before.
#[tactic(auto, unfolding(crate::specs::Column::left_by))]
fn shown_of(touched: &Option<Touched>, object: ObjectNo, flag: Flag, was: bool) -> bool
    ensures { result ≡ left_by object flag touched.now was }
{
    match touched {
        Some(touched) if touched.object == object => flag.of(&touched.after),
        Some(_) | None => was,
    }
}

/// The flag of an object after each step of a run, which begins with no flag set.
pub fn column_of(
    alloc: Global,
    steps: &[Step],
    object: ObjectNo,
    flag: Flag,
) -> Result<Column, AllocError>
    ensures object { IfOk result (λ column. column.object ≡ object) }
    ensures flag { IfOk result (λ column. column.flag ≡ flag) }
    ensures shown { IfOk result (λ column. column.shown.items
        ≡ flags_behind object flag steps.now false) }
{
    let mut shown = Vec::new(alloc);
    let mut is = false;
    for step in steps {
        is = shown_of(&step.own, object, flag, is);
        is = shown_of(&step.stored, object, flag, is);
        shown.push(is)?;
    }
    Ok(Column {
        object,
        flag,
        shown,
    })
}
