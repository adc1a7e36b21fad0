//! The greatest numbers of parts.
ghost use Rattle.std.specs.Prelude.{◌≡◌, ◌+◌, ◌<◌, ◌≤◌, IfOk, length};
ghost use Rattle.rsml_meaning.specs.Instances.{components};
ghost use Rattle.rsml_meaning.specs.Cells.{cells};
ghost use Rattle.world_levels.specs.Spans.{AreSpans, IsCellSpan, IsComponentSpan, IsSpan};

use rsml_base::NoMemory;
use std::alloc::Global;
use worlds::Worlds;

/// The greatest number that a specification can write, with either sign: no type of a checked specification has numbers past it.
const GREATEST_NUMBER: i64 = 1_000_000_000;

/// How many parts there are. NoMemory also where they are more than a `u32` counts.
pub fn parts(worlds: &Worlds<'_>) -> Result<u32, NoMemory>
    ensures { IfOk result (λ parts. parts ≡ length (components worlds.now) + length (cells worlds.now)) }
{
    let components = worlds.tree().components();
    u32::try_from(worlds.cells())
        .ok()
        .and_then(|cells| components.checked_add(cells))
        .ok_or(NoMemory)
}

/// The greatest number of each part. NoMemory also where a cell may hold a number further from 0 than 1,000,000,000.
pub fn spans(alloc: Global, worlds: &Worlds<'_>, parts: u32) -> Result<Vec<u64>, NoMemory>
    requires { parts ≡ length (components worlds.now) + length (cells worlds.now) }
    ensures { IfOk result (λ spans. AreSpans worlds.now parts spans.items) }
{
    let mut spans = Vec::new(alloc);
    for part in 0..parts {
        spans.push(span(worlds, part)?)?;
    }
    Ok(spans)
}

/// The greatest number of a part.
fn span(worlds: &Worlds<'_>, part: u32) -> Result<u64, NoMemory>
    requires { part < length (components worlds.now) + length (cells worlds.now) }
    ensures { IfOk result (IsSpan worlds.now part) }
{
    let components = worlds.tree().components();
    if part < components {
        component_span(worlds, part)
    } else {
        cell_span(worlds, part - components)
    }
}

/// The place of a component's last child.
fn component_span(worlds: &Worlds<'_>, component: u32) -> Result<u64, NoMemory>
    requires { component < length (components worlds.now) }
    ensures { IfOk result (IsComponentSpan worlds.now component) }
{
    match worlds.tree().children(component).checked_sub(1) {
        Some(last) => Ok(u64::from(last)),
        None => Err(NoMemory),
    }
}

/// How far the greatest number of a cell is above its least.
fn cell_span(worlds: &Worlds<'_>, cell: u32) -> Result<u64, NoMemory>
    requires { cell < length (cells worlds.now) }
    ensures { IfOk result (IsCellSpan worlds.now cell) }
{
    let (low, high) = (worlds.low(cell), worlds.high(cell));
    let span = high.abs_diff(low);
    if -GREATEST_NUMBER <= low && low <= high && high <= GREATEST_NUMBER {
        Ok(span)
    } else {
        Err(NoMemory)
    }
}
