//! The steps of a run in order, as a page shows them.
ghost use Rattle.std.specs.Prelude.{◌≡◌, ◌++◌, IfOk, map};
ghost use Rattle.ccan_line.specs.Script.{fields_of};
ghost use Rattle.ccan_explain.specs.Told.{IsOrderOf};
ghost use Rattle.ccan_lab.specs.Paging.{line_of, line_told};

use ccan_explain::draw::label::label_of;
use ccan_explain::{Step, Told, Touched, push_step, tell, tell_in};
use ccan_object::{ObjectNo, Record};
use ccan_page as page;
use ccan_page::{Change, ObjectChange, Outcome, Page, SentFrame};
use ccan_ram::{Access, Array, PortName};
use ccan_script::{LineAnswer, Script, print_final};
use std::alloc::{AllocError, Global};

/// The registers of both interfaces, as the transfers so far left them.
#[derive(Clone, Copy)]
struct Known {
    if1: Record,
    if2: Record,
}

impl Known {
    /// The registers of a port.
    fn of(&self, port: PortName) -> Record {
        match port {
            PortName::If1 => self.if1,
            PortName::If2 => self.if2,
            PortName::Bus => Record::zero(),
        }
    }

    /// These, with others for one port.
    fn with(self, port: PortName, left: Record) -> Known {
        match port {
            PortName::If1 => Known {
                if1: left,
                if2: self.if2,
            },
            PortName::If2 => Known {
                if1: self.if1,
                if2: left,
            },
            PortName::Bus => self,
        }
    }
}

/// The registers that a transfer left.
fn registers_left(answer: &LineAnswer) -> Option<Record> {
    let (LineAnswer::Write(_, shown) | LineAnswer::Read(_, shown)) = answer else {
        return None;
    };
    Some(*shown)
}

/// The registers before and after a step.
fn registers_of(step: &Step, known: &Known) -> Option<Change> {
    let after = registers_left(&step.answer)?;
    Some(Change {
        before: known.of(step.port),
        after,
    })
}

/// What is known of the registers after a step.
fn known_behind(step: &Step, known: Known) -> Known {
    match registers_left(&step.answer) {
        Some(left) => known.with(step.port, left),
        None => known,
    }
}

/// The frame that was on the bus in a step.
fn frame_of(step: &Step) -> Option<SentFrame> {
    let decision = step.report.as_ref()?.decision.as_ref()?;
    let (node, frame) = decision.winner()?;
    Some(SentFrame { node, frame })
}

/// What a step is in a few words, in one line.
fn deed_of(alloc: Global, step: &Step) -> Result<String, AllocError> {
    let label = label_of(alloc, step)?;
    let mut deed = String::new(alloc);
    deed.push_str(if step.report.is_some() { "round: " } else { "" })?;
    for (place, line) in label.as_str().lines().enumerate() {
        if place > 0 {
            deed.push_str(", ")?;
        }
        deed.push_str(line)?;
    }
    Ok(deed)
}

/// Adds an object before and after.
fn add_touched(
    objects: &mut Vec<ObjectChange>,
    touched: &Option<Touched>,
) -> Result<(), AllocError> {
    if let Some(touched) = touched {
        objects.push(ObjectChange {
            object: touched.object,
            change: Change {
                before: touched.before,
                after: touched.after,
            },
        })?;
    }
    Ok(())
}

/// The object that a step leads to: the one that stored a frame, or else its own.
fn object_of(step: &Step) -> Option<ObjectNo> {
    match (&step.stored, &step.own) {
        (Some(stored), _) => Some(stored.object),
        (None, Some(own)) => Some(own.object),
        (None, None) => None,
    }
}

/// A step of a run, as a page shows it.
fn shown_step(
    alloc: Global,
    script: &Script,
    step: &Step,
    known: &Known,
) -> Result<page::Step, AllocError>
    ensures { IfOk result (λ made. line_of made ≡ line_told step.now) }
{
    let mut told = String::new(alloc);
    push_step(&mut told, script, step)?;
    let mut objects = Vec::new(alloc);
    add_touched(&mut objects, &step.own)?;
    add_touched(&mut objects, &step.stored)?;
    Ok(page::Step {
        port: step.port,
        line: step.line,
        deed: deed_of(alloc, step)?,
        told,
        object: object_of(step),
        frame: frame_of(step),
        registers: registers_of(step, known),
        objects,
    })
}

/// The steps of a run, as a page shows them: one for each.
fn shown_steps(
    alloc: Global,
    script: &Script,
    steps: &[Step],
) -> Result<Vec<page::Step>, AllocError>
    ensures { IfOk result (λ made. map line_of made.items ≡ map line_told steps.now) }
{
    let mut made = Vec::new(alloc);
    let mut known = Known {
        if1: Record::zero(),
        if2: Record::zero(),
    };
    for step in steps {
        made.push(shown_step(alloc, script, step, &known)?)?;
        known = known_behind(step, known);
    }
    Ok(made)
}

/// The steps of the lines, whole one after another in this order.
pub(crate) fn ordered_steps(
    alloc: Global,
    script: &Script,
    order: &[PortName],
) -> Result<Vec<page::Step>, AllocError>
    requires { IsOrderOf (fields_of script.now) order.now }
{
    let told = tell_in(alloc, script, order)?;
    shown_steps(alloc, script, told.steps.as_slice())
}

/// Adds the line of an object at the end, if a run prints it.
fn add_final(text: &mut String, ram: &Array, object: ObjectNo) -> Result<(), AllocError> {
    if !ram.profile().holds(object) {
        return Ok(());
    }
    match print_final(object, &ram.record_of(object)) {
        Some(line) => text.push_str(line.as_str()),
        None => Ok(()),
    }
}

/// The lines of the objects at the end, as a run prints them.
fn final_lines(alloc: Global, told: &Told) -> Result<String, AllocError> {
    let mut text = String::new(alloc);
    for number in 1..told.ram.profile().objects() + 1 {
        if let Some(object) = ObjectNo::new(number) {
            add_final(&mut text, &told.ram, object)?;
        }
    }
    Ok(text)
}

/// The page with the run of a script in its order.
pub(crate) fn run_page<'a>(
    alloc: Global,
    script: &Script,
    mut page: Page<'a>,
) -> Result<Page<'a>, AllocError>
    ensures { IfOk result (λ made. made.file.now ≡ page.entry.file.now) }
{
    let told = tell(alloc, script)?;
    page.outcomes.push(Outcome {
        number: 0,
        lines: final_lines(alloc, &told)?,
        order: None,
        opening: String::new(alloc),
        history: Vec::new(alloc),
        run: shown_steps(alloc, script, told.steps.as_slice())?,
    })?;
    Ok(page)
}
