//! All data of a page as JSON.
ghost use Rattle.std.specs.Prelude.{◌≡◌, ◌++◌, IfOk, OnOk, option_map, string_bytes};
ghost use Rattle.ccan_page.specs.Data.{about_text, data_text, history_shown, label_text, later_lines, later_names, later_outcomes, line_text, lines_text, list_shown, names_text, order_or_null, order_shown, order_text, outcome_text, outcomes_shown, outcomes_text, quoted, run_shown, script_text};

use crate::bytes::Bytes;
use crate::page::{LineText, Outcome, Page, Step};
use crate::step_data::{port_word, push_steps};
use ccan_ram::PortName;
use std::alloc::{AllocError, Global};

/// Appends a port's name in quotation marks.
fn push_quoted(data: &mut Bytes, port: PortName) -> Result<(), AllocError>
    ensures { OnOk result (data.new ≡ data.old ++ quoted port) }
{
    data.push_str("\"")?;
    data.push_str(port_word(port))?;
    data.push_str("\"")
}

/// Appends the names of a list, with a comma before each.
#[tactic(auto, unfolding(crate::specs::Data::later_names))]
fn push_later_names(data: &mut Bytes, names: &[PortName]) -> Result<(), AllocError>
    ensures { OnOk result (data.new ≡ data.old ++ later_names names.now) }
{
    for port in names {
        data.push_str(",")?;
        push_quoted(data, *port)?;
    }
    Ok(())
}

/// Appends the names of a list, with a comma between two.
#[tactic(auto, unfolding(crate::specs::Data::names_text))]
fn push_names(data: &mut Bytes, names: &[PortName]) -> Result<(), AllocError>
    ensures { OnOk result (data.new ≡ data.old ++ names_text names.now) }
{
    if names.is_empty() {
        return Ok(());
    }
    push_quoted(data, names[0])?;
    push_later_names(data, &names[1..])
}

/// Appends an order.
#[tactic(auto, unfolding(crate::specs::Data::order_text))]
fn push_order(data: &mut Bytes, order: &[PortName]) -> Result<(), AllocError>
    ensures { OnOk result (data.new ≡ data.old ++ order_text order.now) }
{
    data.push_str("[")?;
    push_names(data, order)?;
    data.push_str("]")
}

/// Appends an order, or that there is none.
fn push_order_or_null(data: &mut Bytes, order: &Option<Vec<PortName>>) -> Result<(), AllocError>
    ensures { OnOk result (data.new ≡ data.old
        ++ order_or_null (option_map (λ order. order.items) order.now)) }
{
    match order {
        Some(order) => push_order(data, order.as_slice()),
        None => data.push_str("null"),
    }
}

/// Appends the member with the order.
#[tactic(auto, unfolding(crate::specs::Data::order_shown))]
fn push_shown_order(data: &mut Bytes, order: &Option<Vec<PortName>>) -> Result<(), AllocError>
    ensures { OnOk result (data.new ≡ data.old
        ++ order_shown (option_map (λ order. order.items) order.now)) }
{
    data.push_name("order")?;
    push_order_or_null(data, order)
}

/// Appends the number of an outcome, its lines and its order.
#[tactic(auto, unfolding(crate::specs::Data::label_text))]
fn push_label(data: &mut Bytes, outcome: &Outcome) -> Result<(), AllocError>
    ensures { OnOk result (data.new ≡ data.old ++ label_text outcome.now) }
{
    data.push_str("{\"number\":")?;
    data.push_number(outcome.number as u64)?;
    data.push_word("lines", outcome.lines.as_bytes())?;
    push_shown_order(data, &outcome.order)
}

/// Appends the steps of a history.
#[tactic(auto, unfolding(crate::specs::Data::history_shown))]
fn push_history(data: &mut Bytes, steps: &[Step]) -> Result<(), AllocError>
    ensures { OnOk result (data.new ≡ data.old ++ history_shown steps.now) }
{
    data.push_name("history")?;
    data.push_str("[")?;
    push_steps(data, steps)?;
    data.push_str("]")
}

/// Appends the steps of a run.
#[tactic(auto, unfolding(crate::specs::Data::run_shown))]
fn push_run(data: &mut Bytes, steps: &[Step]) -> Result<(), AllocError>
    ensures { OnOk result (data.new ≡ data.old ++ run_shown steps.now) }
{
    data.push_name("run")?;
    data.push_str("[")?;
    push_steps(data, steps)?;
    data.push_str("]}")
}

/// Appends an outcome.
#[tactic(auto, unfolding(crate::specs::Data::outcome_text))]
fn push_outcome(data: &mut Bytes, outcome: &Outcome) -> Result<(), AllocError>
    ensures { OnOk result (data.new ≡ data.old ++ outcome_text outcome.now) }
{
    push_label(data, outcome)?;
    data.push_word("opening", outcome.opening.as_bytes())?;
    push_history(data, outcome.history.as_slice())?;
    push_run(data, outcome.run.as_slice())
}

/// Appends the outcomes of a list, with a comma before each.
#[tactic(auto, unfolding(crate::specs::Data::later_outcomes))]
fn push_later_outcomes(data: &mut Bytes, outcomes: &[Outcome]) -> Result<(), AllocError>
    ensures { OnOk result (data.new ≡ data.old ++ later_outcomes outcomes.now) }
{
    for outcome in outcomes {
        data.push_str(",\n")?;
        push_outcome(data, outcome)?;
    }
    Ok(())
}

/// Appends the outcomes of a list, with a comma between two.
#[tactic(auto, unfolding(crate::specs::Data::outcomes_text))]
fn push_outcomes(data: &mut Bytes, outcomes: &[Outcome]) -> Result<(), AllocError>
    ensures { OnOk result (data.new ≡ data.old ++ outcomes_text outcomes.now) }
{
    if outcomes.is_empty() {
        return Ok(());
    }
    push_outcome(data, &outcomes[0])?;
    push_later_outcomes(data, &outcomes[1..])
}

/// Appends a line of the script.
#[tactic(auto, unfolding(crate::specs::Data::line_text))]
fn push_line(data: &mut Bytes, line: &LineText<'_>) -> Result<(), AllocError>
    ensures { OnOk result (data.new ≡ data.old ++ line_text line.now) }
{
    data.push_str("{\"row\":")?;
    data.push_number(line.row as u64)?;
    data.push_word("text", line.text)?;
    data.push_str("}")
}

/// Appends the lines of a list, with a comma before each.
#[tactic(auto, unfolding(crate::specs::Data::later_lines))]
fn push_later_lines(data: &mut Bytes, lines: &[LineText<'_>]) -> Result<(), AllocError>
    ensures { OnOk result (data.new ≡ data.old ++ later_lines lines.now) }
{
    for line in lines {
        data.push_str(",\n")?;
        push_line(data, line)?;
    }
    Ok(())
}

/// Appends the lines of a list, with a comma between two.
#[tactic(auto, unfolding(crate::specs::Data::lines_text))]
fn push_lines(data: &mut Bytes, lines: &[LineText<'_>]) -> Result<(), AllocError>
    ensures { OnOk result (data.new ≡ data.old ++ lines_text lines.now) }
{
    if lines.is_empty() {
        return Ok(());
    }
    push_line(data, &lines[0])?;
    push_later_lines(data, &lines[1..])
}

/// Appends a list of the script's lines.
#[tactic(auto, unfolding(crate::specs::Data::list_shown))]
fn push_list(data: &mut Bytes, name: &str, lines: &[LineText<'_>]) -> Result<(), AllocError>
    ensures { OnOk result (data.new ≡ data.old ++ list_shown name.now lines.now) }
{
    data.push_name(name)?;
    data.push_str("[")?;
    push_lines(data, lines)?;
    data.push_str("]")
}

/// Appends the lists of the script's lines.
#[tactic(auto, unfolding(crate::specs::Data::script_text))]
fn push_script(data: &mut Bytes, page: &Page<'_>) -> Result<(), AllocError>
    ensures { OnOk result (data.new ≡ data.old ++ script_text page.now) }
{
    push_list(data, "if1", page.if1.as_slice())?;
    push_list(data, "if2", page.if2.as_slice())?;
    push_list(data, "bus", page.bus.as_slice())
}

/// Appends what the page is about.
#[tactic(auto, unfolding(crate::specs::Data::about_text))]
fn push_about(data: &mut Bytes, page: &Page<'_>) -> Result<(), AllocError>
    ensures { OnOk result (data.new ≡ data.old ++ about_text page.now) }
{
    data.push_str("{\"file\":")?;
    data.push_string(page.file.as_bytes())?;
    data.push_number_member("count", page.count as u64)?;
    data.push_word("same", page.same.as_bytes())
}

/// Appends the outcomes.
#[tactic(auto, unfolding(crate::specs::Data::outcomes_shown))]
fn push_shown_outcomes(data: &mut Bytes, outcomes: &[Outcome]) -> Result<(), AllocError>
    ensures { OnOk result (data.new ≡ data.old ++ outcomes_shown outcomes.now) }
{
    data.push_name("outcomes")?;
    data.push_str("[")?;
    push_outcomes(data, outcomes)?;
    data.push_str("]}")
}

/// All data of a page.
#[tactic(auto, unfolding(crate::specs::Data::data_text))]
pub fn data_of(alloc: Global, page: &Page<'_>) -> Result<Bytes, AllocError>
    ensures { IfOk result (λ made. made ≡ data_text page.now) }
{
    let mut data = Bytes::new(alloc);
    push_about(&mut data, page)?;
    push_script(&mut data, page)?;
    push_shown_outcomes(&mut data, page.outcomes.as_slice())?;
    Ok(data)
}
