//! Frame filters: reads a channel's columns from standard input, and prints its schema.
#![tactic(auto)]

mod display;

use crate::display::BytesText;
use notation::line::{Line, Mistake};
use notation::lines::read_line;
use schemas::declaring::Declaring;
use schemas::tables::Schemas;
use std::io;
use std::io::{BufRead, BufReader};
use thiserror::Error;
use vocabulary::refusals::Refusal;

/// The schema of a channel's frames.
const CHANNEL: u8 = 0;

/// Why a line changes nothing, as it is printed behind the line's number.
#[derive(Debug, Drop, Error)]
enum BadLine {
    #[error(", {0}")]
    Unreadable(#[from] Mistake),
    #[error(": {0}")]
    Refused(#[from] Refusal),
}

/// Carries out what a line says; a bad line changes nothing.
fn carry_out(declaring: &mut Declaring, line: &[u8]) -> Result<(), BadLine> {
    match read_line(line)? {
        Line::Blank => Ok(()),
        Line::Column(name, dtype) => {
            declaring.add_column(CHANNEL, name, dtype)?;
            Ok(())
        }
    }
}

fn print_schema(rt: &impl Print, schemas: &Schemas) -> io::Result<()> {
    let Ok(schema) = schemas.schema(CHANNEL) else {
        return Ok(());
    };
    let columns = schema.columns();
    println!(rt; "columns: {}", columns.len())?;
    for (place, column) in columns.iter().enumerate() {
        let name = BytesText(column.name());
        let dtype = column.dtype();
        println!(rt; "  {place} {name} {dtype}")?;
    }
    Ok(())
}

fn main(rt: HostRuntime) -> io::Result<()> {
    let mut declaring = Declaring::new();
    let lines = BufReader::new(rt.alloc(), rt.stdin())?.split(rt.alloc(), b'\n');
    for (number, line) in (1u64..).zip(lines) {
        if let Err(why) = carry_out(&mut declaring, line?.as_slice()) {
            println!(rt; "line {number}{why}")?;
        }
    }
    print_schema(&rt, &declaring.finish())
}
