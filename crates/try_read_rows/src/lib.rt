// Prints the rows that a text was read into, digests too.
#![tactic(auto)]

use std::io;

// The digest of a row.
fn print_digest(rt: &impl Print, row: &[u32; 20]) -> io::Result<()> {
    for word in &row[12..] {
        print!(rt; "{word:08x}")?;
    }
    Ok(())
}

// A row: its depth, kind and name, and its size and digest unless they are zero.
fn print_row(rt: &impl Print, row: &[u32; 20]) -> io::Result<()> {
    print!(rt; " {} {} \"", row[0], row[1])?;
    try_show_rows::print_spelling(rt, row)?;
    print!(rt; "\"")?;
    if !table_names::all_zero(&row[10..]) {
        let size = u64::from(row[10]) << 32 | u64::from(row[11]);
        print!(rt; " {size} ")?;
        print_digest(rt, row)?;
    }
    println!(rt;)
}

// Each row.
fn print_rows(rt: &impl Print, table: &[u32]) -> io::Result<()> {
    for row in table.as_chunks::<20>().0 {
        print_row(rt, row)?;
    }
    Ok(())
}

// Whether the words are zero.
fn print_zeros(rt: &impl Print, words: &[u32]) -> io::Result<()> {
    if table_names::all_zero(words) {
        println!(rt; ", zeros")
    } else {
        println!(rt; ", NOT ZEROS")
    }
}

// The sum of the rows at the start of a table, what is past them, and the rows if they are few.
pub fn tell_rows(rt: &impl Print, table: &[u32], rows: usize) -> io::Result<()> {
    if table.len() / 20 < rows {
        return println!(rt; ", TOO MANY");
    }
    let (read, past) = table.split_at(20 * rows);
    if 0 < rows {
        print!(rt; ", sum {}", try_show::sum(read))?;
    }
    print_zeros(rt, past)?;
    if rows < 70 {
        print_rows(rt, read)?;
    }
    Ok(())
}
