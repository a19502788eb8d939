//! What is above the rows: how things look, the legend, and the headings of the lanes.
use crate::draw::column::{Column, FLAGS};
use crate::draw::elements::{Area, push_area, push_number, push_words};
use crate::draw::layout::{
    BAR_WIDTH, GLYPH, HEADING_HEIGHT, HEADING_Y, LINE, column_x, lane_x, objects_in, width_of,
    words_x,
};
use crate::push_decimal;
use ccan_ram::{Flag, PortName};
use std::alloc::{AllocError, Global};

/// How things look, in light and in dark.
const STYLE: &str = "<style>
text{font:11px ui-monospace,\"DejaVu Sans Mono\",\"Liberation Mono\",Menlo,Consolas,monospace;fill:#1f2328;white-space:pre}
.page{fill:#ffffff}.stripe{fill:#f6f8fa}.band{fill:#eaeef2}.reach{fill:#d0d7de}
.if1,.if2,.bus{stroke-width:1}
.if1{fill:#ddf4ff;stroke:#0969da}.if2{fill:#fbefff;stroke:#8250df}.bus{fill:#fff8c5;stroke:#9a6700}
.id,.data{stroke:#9a6700;stroke-width:1}.id{fill:#f2d675}.data{fill:#ffffff}
.NewDat{fill:#1a7f37}.MsgLst{fill:#cf222e}.IntPnd{fill:#9a6700}.TxRqst{fill:#0969da}
.number{fill:#656d76}.heading{font-weight:bold}
@media (prefers-color-scheme:dark){
text{fill:#e6edf3}
.page{fill:#0d1117}.stripe{fill:#161b22}.band{fill:#21262d}.reach{fill:#3d444d}
.if1{fill:#0c2d6b;stroke:#58a6ff}.if2{fill:#3c1e70;stroke:#bc8cff}.bus{fill:#341a00;stroke:#d29922}
.id,.data{stroke:#d29922}.id{fill:#693e00}.data{fill:#0d1117}
.NewDat{fill:#3fb950}.MsgLst{fill:#ff7b72}.IntPnd{fill:#d29922}.TxRqst{fill:#79c0ff}
.number{fill:#8b949e}
}
</style>
";

/// The name of a flag, which is its class too.
pub fn flag_word(flag: Flag) -> &'static str {
    match flag {
        Flag::NewDat => "NewDat",
        Flag::MsgLst => "MsgLst",
        Flag::IntPnd => "IntPnd",
        Flag::TxRqst => "TxRqst",
        Flag::MsgVal => "MsgVal",
    }
}

/// The letter above the bars of a flag.
fn flag_letter(flag: Flag) -> &'static str {
    match flag {
        Flag::NewDat => "N",
        Flag::MsgLst => "L",
        Flag::IntPnd => "I",
        Flag::TxRqst => "T",
        Flag::MsgVal => "V",
    }
}

/// Appends the beginning of a picture of so many objects and this height.
pub fn push_opening(text: &mut String, objects: u64, height: u64) -> Result<(), AllocError> {
    let width = width_of(objects);
    text.push_str("<svg xmlns=\"http://www.w3.org/2000/svg\" xml:space=\"preserve\"")?;
    push_number(text, "width", width)?;
    push_number(text, "height", height)?;
    text.push_str(" viewBox=\"0 0 ")?;
    push_decimal(text, width)?;
    text.push_str(" ")?;
    push_decimal(text, height)?;
    text.push_str("\">\n")?;
    text.push_str(STYLE)?;
    let page = Area {
        x: 0,
        y: 0,
        width,
        height,
    };
    push_area(text, "page", &page)
}

/// Appends the legend.
pub fn push_legend(text: &mut String) -> Result<(), AllocError> {
    push_words(
        text,
        "legend",
        56,
        20,
        "A bar runs down from the step that sets a flag to the step that clears it:",
    )?;
    let mut x = FLAGS_LEGEND_X;
    for flag in FLAGS {
        let swatch = Area {
            x,
            y: 10,
            width: BAR_WIDTH,
            height: 12,
        };
        push_area(text, flag_word(flag), &swatch)?;
        push_words(text, "legend", x.saturating_add(12), 20, flag_letter(flag))?;
        push_words(text, "legend", x.saturating_add(26), 20, flag_word(flag))?;
        x = x.saturating_add(88);
    }
    Ok(())
}

/// Where the names of the flags begin in the legend.
const FLAGS_LEGEND_X: u64 = 592;

/// Appends the letters of the flags and the numbers of their objects.
fn push_objects(
    alloc: Global,
    text: &mut String,
    columns: &[Column],
    y: u64,
) -> Result<(), AllocError> {
    for (place, column) in columns.iter().enumerate() {
        let x = column_x(place);
        push_words(
            text,
            "heading",
            x,
            y.saturating_add(30),
            flag_letter(column.flag),
        )?;
        if place % 4 == 0 {
            let mut name = String::from_str(alloc, "obj. ")?;
            push_decimal(&mut name, u64::from(column.object.get()))?;
            push_words(text, "heading", x, y.saturating_add(LINE), name.as_str())?;
        }
    }
    Ok(())
}

/// Appends the headings of the lanes at this height.
pub fn push_headings(
    alloc: Global,
    text: &mut String,
    columns: &[Column],
    y: u64,
) -> Result<(), AllocError> {
    let objects = objects_in(columns.len());
    let band = Area {
        x: 0,
        y,
        width: width_of(objects),
        height: HEADING_HEIGHT,
    };
    push_area(text, "band", &band)?;
    let line = y.saturating_add(30);
    push_words(text, "heading", GLYPH, line, "step")?;
    push_words(text, "heading", lane_x(PortName::If1), line, "IF1")?;
    push_words(text, "heading", lane_x(PortName::If2), line, "IF2")?;
    push_words(text, "heading", lane_x(PortName::Bus), line, "bus")?;
    push_words(text, "heading", words_x(objects), line, "what it came to")?;
    push_objects(alloc, text, columns, y)
}
