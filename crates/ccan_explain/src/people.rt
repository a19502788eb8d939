//! A run for people: each line decoded, and the objects at the end.
use crate::digits::push_decimal;
use crate::line_words::push_step;
use crate::record_words::{push_flags, push_record};
use crate::stepping::record_of;
use crate::told::Told;
use ccan_object::{ObjectNo, Record};
use ccan_ram::Access;
use ccan_script::{Script, print_final};
use std::alloc::{AllocError, Global};

/// Appends an object at the end, if a run prints it: not one that is all zero.
fn push_final(text: &mut String, object: ObjectNo, left: &Record) -> Result<(), AllocError> {
    if print_final(object, left).is_none() {
        return Ok(());
    }
    text.push_str("final object ")?;
    push_decimal(text, u64::from(object.get()))?;
    text.push_str(": ")?;
    push_record(text, left)?;
    push_flags(text, left, left)?;
    text.push_str("\n")
}

/// The text of a run: a line for each line of the script, and more below a round, then the objects at the end.
pub fn text_of(alloc: Global, script: &Script, told: &Told) -> Result<String, AllocError> {
    let mut text = String::new(alloc);
    for step in told.steps.as_slice() {
        push_step(&mut text, script, step)?;
    }
    for number in 1..told.ram.profile().objects() + 1 {
        if let Some(object) = ObjectNo::new(number) {
            push_final(&mut text, object, &record_of(&told.ram, object))?;
        }
    }
    Ok(text)
}
