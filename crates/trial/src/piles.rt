use crate::command::{Layer, PathScript};
use crate::figures::{Shown, show_at};
use cells::table::CellTable;
use count::{long_count, totals};
use plan::lockout::LockedPlace;
use plan::path_list::PathList;
use plan::pile::{Pile, SettledPile};
use plan::{Plan, pile};
use rules::refusal::Refusal;
use std::alloc::Global;
use std::io;
use std::io::Write;

// Shows the counts of the pile over a path list, or why the list is refused.
pub fn show_paths<W: Write>(heap: Global, script: PathScript, out: &mut W) -> anyhow::Result<()> {
    let PathScript {
        numbers,
        paths,
        layers,
    } = script;
    show_plan(heap, PathList::new(numbers, paths), layers.as_slice(), out)
}

// Shows the counts of the pile over a plan, or why the plan is refused.
pub fn show_plan<P: Plan + Drop, W: Write>(
    heap: Global,
    made: Result<P, Refusal>,
    layers: &[Layer],
    out: &mut W,
) -> anyhow::Result<()> {
    match made {
        Ok(plan) => {
            let layers = lay(heap, layers, out)?;
            show_counts(&SettledPile::from(Pile { plan, layers }), out)?;
        }
        Err(refusal) => writeln!(out, "{refusal}")?,
    }
    Ok(())
}

// The layers that are not refused; shows the refusals of the others.
fn lay<W: Write>(heap: Global, layers: &[Layer], out: &mut W) -> anyhow::Result<Vec<pile::Layer>> {
    let mut laid = Vec::new(heap);
    for layer in layers {
        match layer {
            Layer::Mirror => laid.push(pile::Layer::Mirror)?,
            Layer::Lockout(place) => match LockedPlace::new(*place) {
                Ok(locked) => laid.push(pile::Layer::Lockout(locked))?,
                Err(refusal) => writeln!(out, "{refusal}")?,
            },
        }
    }
    Ok(laid)
}

// The long count and the totals of a plan, each into a table that holds junk.
fn show_counts<P: Plan, W: Write>(plan: &P, out: &mut W) -> io::Result<()> {
    let mut table = CellTable::junk(0);
    let answer = long_count(plan, &mut table);
    show_table("long", answer, &table, out)?;
    let mut table = CellTable::junk(0);
    let answer = totals(plan, &mut table);
    show_table("totals", answer, &table, out)
}

fn show_table<W: Write>(
    name: &str,
    answer: Result<(), Refusal>,
    table: &CellTable,
    out: &mut W,
) -> io::Result<()> {
    match answer {
        Ok(()) => write!(out, "{name} counted ")?,
        Err(refusal) => write!(out, "{name} {refusal} ")?,
    }
    show_at(table, 0, out)?;
    writeln!(out)
}
