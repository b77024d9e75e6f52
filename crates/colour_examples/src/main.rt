// What a file costs in the four cases of its maker's and its reader's colour, blue-blue, red-red, blue-red and red-blue (Order 2).
// The file that task 1 makes and task 2 reads has size 3 and move time 5 throughout: F 3, C 5.
#![tactic(auto)]

use console::{Planner, print_number, print_text, show_verdict as show};
use model::colour::{Colour, cost_between};
use std::io::Result;

// A space and a colour.
fn print_colour(rt: &impl Print, colour: Colour) -> Result<()> {
    match colour {
        Colour::Blue => print!(rt; " blue"),
        Colour::Red => print!(rt; " red"),
    }
}

// The colours of maker and reader, the move time, and what the reader's colour must newly hold.
fn print_case(rt: &impl Print, maker: Colour, reader: Colour) -> Result<()> {
    print!(rt; "(case")?;
    print_colour(rt, maker)?;
    print_colour(rt, reader)?;
    print_number(rt, cost_between(maker, reader, 5))?;
    print_number(rt, cost_between(maker, reader, 3))?;
    println!(rt; ")")
}

// The four cases: nothing within a colour, C and F across colours.
fn table(rt: &impl Print) -> Result<()> {
    println!(rt; "maker, reader, move time and newly held, of C 5 and F 3:")?;
    print_case(rt, Colour::Blue, Colour::Blue)?;
    print_case(rt, Colour::Red, Colour::Red)?;
    print_case(rt, Colour::Blue, Colour::Red)?;
    print_case(rt, Colour::Red, Colour::Blue)
}

// The move time is 0 within a colour: the reader may start at the maker's finish, and no tick earlier.
fn reader_within(rt: &impl Print) -> Result<()> {
    let sheet = b"(board (blue 2 9) (red 2 9))\n(task 1 4 2)\n(task 2 1 6)\n(file 1 2 3 5)\n";
    show(
        rt,
        "blue-blue, the reader at the maker's finish",
        sheet,
        b"(run 1 1 1)\n(run 2 2 5)\n(claim 6 3 0)\n",
    )?;
    show(
        rt,
        "16: blue-blue, the reader one tick earlier",
        sheet,
        b"(run 1 1 1)\n(run 2 2 4)\n(claim 5 3 0)\n",
    )?;
    show(
        rt,
        "red-red, the reader at the maker's finish",
        sheet,
        b"(run 1 3 1)\n(run 2 4 3)\n(claim 9 0 3)\n",
    )?;
    show(
        rt,
        "16: red-red, the reader one tick earlier",
        sheet,
        b"(run 1 3 1)\n(run 2 4 2)\n(claim 8 0 3)\n",
    )
}

// The move time is C across colours: the move may start at the maker's finish and the reader C later, and neither a tick earlier.
fn reader_across(rt: &impl Print) -> Result<()> {
    let sheet = b"(board (blue 2 9) (red 2 9))\n(task 1 4 2)\n(task 2 1 6)\n(file 1 2 3 5)\n";
    show(
        rt,
        "blue-red, the move at the maker's finish and the reader C later",
        sheet,
        b"(run 1 1 1)\n(run 2 3 10)\n(move 1 2 5)\n(claim 16 3 3)\n",
    )?;
    show(
        rt,
        "16: blue-red, the reader one tick earlier",
        sheet,
        b"(run 1 1 1)\n(run 2 3 9)\n(move 1 2 5)\n(claim 15 3 3)\n",
    )?;
    show(
        rt,
        "16: blue-red, the move one tick earlier",
        sheet,
        b"(run 1 1 1)\n(run 2 3 10)\n(move 1 2 4)\n(claim 16 3 3)\n",
    )?;
    show(
        rt,
        "red-blue, the move at the maker's finish and the reader C later",
        sheet,
        b"(run 1 3 1)\n(run 2 1 8)\n(move 1 2 3)\n(claim 9 3 3)\n",
    )?;
    show(
        rt,
        "16: red-blue, the reader one tick earlier",
        sheet,
        b"(run 1 3 1)\n(run 2 1 7)\n(move 1 2 3)\n(claim 8 3 3)\n",
    )?;
    show(
        rt,
        "16: red-blue, the move one tick earlier",
        sheet,
        b"(run 1 3 1)\n(run 2 1 8)\n(move 1 2 2)\n(claim 9 3 3)\n",
    )
}

// A file moves across colours only: a move line within a colour is not due, and across colours none may be left out.
fn move_lines(rt: &impl Print) -> Result<()> {
    let sheet = b"(board (blue 2 9) (red 2 9))\n(task 1 4 2)\n(task 2 1 6)\n(file 1 2 3 5)\n";
    show(
        rt,
        "14: blue-blue, a move line",
        sheet,
        b"(run 1 1 1)\n(run 2 2 10)\n(move 1 2 5)\n(claim 11 3 0)\n",
    )?;
    show(
        rt,
        "14: red-red, a move line",
        sheet,
        b"(run 1 3 1)\n(run 2 4 8)\n(move 1 2 3)\n(claim 14 0 3)\n",
    )?;
    show(
        rt,
        "14: blue-red, no move line",
        sheet,
        b"(run 1 1 1)\n(run 2 3 10)\n(claim 16 3 3)\n",
    )?;
    show(
        rt,
        "14: red-blue, no move line",
        sheet,
        b"(run 1 3 1)\n(run 2 1 8)\n(claim 9 3 3)\n",
    )
}

// Nothing is newly held within a colour: the other colour's limit may be 0. The colour itself holds F from the maker's start.
fn limits_within(rt: &impl Print) -> Result<()> {
    let on_blue = b"(run 1 1 1)\n(run 2 2 5)\n(claim 6 3 0)\n";
    show(
        rt,
        "blue-blue, blue limit F, red limit 0",
        b"(board (blue 2 3) (red 2 0))\n(task 1 4 2)\n(task 2 1 6)\n(file 1 2 3 5)\n",
        on_blue,
    )?;
    show(
        rt,
        "17: blue-blue, blue limit one less, at the maker's start",
        b"(board (blue 2 2) (red 2 0))\n(task 1 4 2)\n(task 2 1 6)\n(file 1 2 3 5)\n",
        on_blue,
    )?;
    let on_red = b"(run 1 3 1)\n(run 2 4 3)\n(claim 9 0 3)\n";
    show(
        rt,
        "red-red, red limit F, blue limit 0",
        b"(board (blue 2 0) (red 2 3))\n(task 1 4 2)\n(task 2 1 6)\n(file 1 2 3 5)\n",
        on_red,
    )?;
    show(
        rt,
        "17: red-red, red limit one less, at the maker's start",
        b"(board (blue 2 0) (red 2 2))\n(task 1 4 2)\n(task 2 1 6)\n(file 1 2 3 5)\n",
        on_red,
    )
}

// F is newly held across colours, from the move's start: both limits must be F.
fn limits_across(rt: &impl Print) -> Result<()> {
    let to_red = b"(run 1 1 1)\n(run 2 3 10)\n(move 1 2 5)\n(claim 16 3 3)\n";
    show(
        rt,
        "blue-red, both limits F",
        b"(board (blue 2 3) (red 2 3))\n(task 1 4 2)\n(task 2 1 6)\n(file 1 2 3 5)\n",
        to_red,
    )?;
    show(
        rt,
        "17: blue-red, blue limit one less, at the maker's start",
        b"(board (blue 2 2) (red 2 3))\n(task 1 4 2)\n(task 2 1 6)\n(file 1 2 3 5)\n",
        to_red,
    )?;
    show(
        rt,
        "17: blue-red, red limit one less, at the move's start",
        b"(board (blue 2 3) (red 2 2))\n(task 1 4 2)\n(task 2 1 6)\n(file 1 2 3 5)\n",
        to_red,
    )?;
    let to_blue = b"(run 1 3 1)\n(run 2 1 8)\n(move 1 2 3)\n(claim 9 3 3)\n";
    show(
        rt,
        "red-blue, both limits F",
        b"(board (blue 2 3) (red 2 3))\n(task 1 4 2)\n(task 2 1 6)\n(file 1 2 3 5)\n",
        to_blue,
    )?;
    show(
        rt,
        "17: red-blue, red limit one less, at the maker's start",
        b"(board (blue 2 3) (red 2 2))\n(task 1 4 2)\n(task 2 1 6)\n(file 1 2 3 5)\n",
        to_blue,
    )?;
    show(
        rt,
        "17: red-blue, blue limit one less, at the move's start",
        b"(board (blue 2 2) (red 2 3))\n(task 1 4 2)\n(task 2 1 6)\n(file 1 2 3 5)\n",
        to_blue,
    )
}

// Another file, of size 2, that has no room beside the first: within a colour that is so until the reader's finish,
// and in the other memory at no tick.
fn another_file_within(rt: &impl Print) -> Result<()> {
    let sheet =
        b"(board (blue 2 3) (red 2 3))\n(task 1 4 2)\n(task 2 1 6)\n(task 3 1 1)\n(task 4 1 1)\n(file 1 2 3 5)\n(file 3 4 2 7)\n";
    show(
        rt,
        "blue-blue, another file on blue from the reader's finish",
        sheet,
        b"(run 1 1 1)\n(run 2 2 5)\n(run 3 1 6)\n(run 4 1 7)\n(claim 8 3 0)\n",
    )?;
    show(
        rt,
        "17: blue-blue, from one tick earlier",
        sheet,
        b"(run 1 1 1)\n(run 2 2 5)\n(run 3 1 5)\n(run 4 1 7)\n(claim 8 5 0)\n",
    )?;
    show(
        rt,
        "blue-blue, another file on red all the time",
        sheet,
        b"(run 1 1 1)\n(run 2 2 5)\n(run 3 3 1)\n(run 4 3 5)\n(claim 6 3 2)\n",
    )?;
    show(
        rt,
        "red-red, another file on red from the reader's finish",
        sheet,
        b"(run 1 3 1)\n(run 2 4 3)\n(run 3 3 9)\n(run 4 3 10)\n(claim 11 0 3)\n",
    )?;
    show(
        rt,
        "17: red-red, from one tick earlier",
        sheet,
        b"(run 1 3 1)\n(run 2 4 3)\n(run 3 3 8)\n(run 4 3 10)\n(claim 11 0 5)\n",
    )?;
    show(
        rt,
        "red-red, another file on blue all the time",
        sheet,
        b"(run 1 3 1)\n(run 2 4 3)\n(run 3 1 1)\n(run 4 1 8)\n(claim 9 2 3)\n",
    )
}

// Across colours the maker's memory keeps the file until the move's end: until then the other file has no room there.
fn another_file_at_the_maker(rt: &impl Print) -> Result<()> {
    let sheet =
        b"(board (blue 2 3) (red 2 3))\n(task 1 4 2)\n(task 2 1 6)\n(task 3 1 1)\n(task 4 1 1)\n(file 1 2 3 5)\n(file 3 4 2 7)\n";
    show(
        rt,
        "blue-red, another file on blue from the move's end",
        sheet,
        b"(run 1 1 1)\n(run 2 3 10)\n(run 3 1 10)\n(run 4 1 11)\n(move 1 2 5)\n(claim 16 3 3)\n",
    )?;
    show(
        rt,
        "17: blue-red, from one tick earlier",
        sheet,
        b"(run 1 1 1)\n(run 2 3 10)\n(run 3 1 9)\n(run 4 1 11)\n(move 1 2 5)\n(claim 16 5 3)\n",
    )?;
    show(
        rt,
        "red-blue, another file on red from the move's end",
        sheet,
        b"(run 1 3 1)\n(run 2 1 8)\n(run 3 3 8)\n(run 4 3 9)\n(move 1 2 3)\n(claim 10 3 3)\n",
    )?;
    show(
        rt,
        "17: red-blue, from one tick earlier",
        sheet,
        b"(run 1 3 1)\n(run 2 1 8)\n(run 3 3 7)\n(run 4 3 9)\n(move 1 2 3)\n(claim 10 3 5)\n",
    )
}

// Across colours the reader's memory holds the file from the move's start: from then on the other file has no room there.
fn another_file_at_the_reader(rt: &impl Print) -> Result<()> {
    let sheet =
        b"(board (blue 2 3) (red 2 3))\n(task 1 4 2)\n(task 2 1 6)\n(task 3 1 1)\n(task 4 1 1)\n(file 1 2 3 5)\n(file 3 4 2 7)\n";
    show(
        rt,
        "blue-red, another file on red until the move's start",
        sheet,
        b"(run 1 1 1)\n(run 2 3 10)\n(run 3 3 3)\n(run 4 3 4)\n(move 1 2 5)\n(claim 16 3 3)\n",
    )?;
    show(
        rt,
        "17: blue-red, until one tick later",
        sheet,
        b"(run 1 1 1)\n(run 2 3 10)\n(run 3 3 3)\n(run 4 3 5)\n(move 1 2 5)\n(claim 16 3 5)\n",
    )?;
    show(
        rt,
        "red-blue, another file on blue until the move's start",
        sheet,
        b"(run 1 3 1)\n(run 2 1 8)\n(run 3 1 1)\n(run 4 1 2)\n(move 1 2 3)\n(claim 9 3 3)\n",
    )?;
    show(
        rt,
        "17: red-blue, until one tick later",
        sheet,
        b"(run 1 3 1)\n(run 2 1 8)\n(run 3 1 1)\n(run 4 1 3)\n(move 1 2 3)\n(claim 9 5 3)\n",
    )
}

// Prints MemHEFT's timetable of a sheet.
fn print_plan(rt: &impl Print, sheet: &[u8]) -> Result<()> {
    let mut out = io::large_buffer();
    let answer = console::plan(Planner::MemHeft, sheet, &mut out);
    print_text(rt, answer.written, &out)
}

// Prints what is shown, and the timetable.
fn plan(rt: &impl Print, what: &str, sheet: &[u8]) -> Result<()> {
    println!(rt; "{what}:")?;
    print_plan(rt, sheet)
}

// The run times choose the colours. Within a colour the reader starts at the maker's finish, across colours C later, and the move C before it.
fn planned(rt: &impl Print) -> Result<()> {
    plan(
        rt,
        "MemHEFT, blue-blue",
        b"(board (blue 2 9) (red 2 9))\n(task 1 2 4)\n(task 2 1 6)\n(file 1 2 3 5)\n",
    )?;
    plan(
        rt,
        "MemHEFT, red-red",
        b"(board (blue 2 9) (red 2 9))\n(task 1 4 2)\n(task 2 6 1)\n(file 1 2 3 5)\n",
    )?;
    plan(
        rt,
        "MemHEFT, blue-red",
        b"(board (blue 2 9) (red 2 9))\n(task 1 2 4)\n(task 2 9 1)\n(file 1 2 3 5)\n",
    )?;
    plan(
        rt,
        "MemHEFT, red-blue",
        b"(board (blue 2 9) (red 2 9))\n(task 1 4 2)\n(task 2 1 9)\n(file 1 2 3 5)\n",
    )
}

// Another file, of size 2, is on red from tick 0 until 4. Red needs F free from the move's start on: with one block less
// than for a move at the maker's finish the move waits until tick 4, and with less than F the reader runs on blue.
fn planned_to_red(rt: &impl Print) -> Result<()> {
    plan(
        rt,
        "MemHEFT, blue-red, red limit 5: F free from tick 0 on",
        b"(board (blue 2 3) (red 2 5))\n(task 1 2 4)\n(task 2 9 1)\n(task 3 9 1)\n(task 4 9 3)\n(file 1 2 3 5)\n(file 3 4 2 4)\n",
    )?;
    plan(
        rt,
        "MemHEFT, blue-red, red limit 4: F free from tick 4 on",
        b"(board (blue 2 3) (red 2 4))\n(task 1 2 4)\n(task 2 9 1)\n(task 3 9 1)\n(task 4 9 3)\n(file 1 2 3 5)\n(file 3 4 2 4)\n",
    )?;
    plan(
        rt,
        "MemHEFT, blue-red, red limit 3: exactly F free from tick 4 on",
        b"(board (blue 2 3) (red 2 3))\n(task 1 2 4)\n(task 2 9 1)\n(task 3 9 1)\n(task 4 9 3)\n(file 1 2 3 5)\n(file 3 4 2 4)\n",
    )?;
    plan(
        rt,
        "MemHEFT, blue-blue, red limit 2: F free at no tick",
        b"(board (blue 2 3) (red 2 2))\n(task 1 2 4)\n(task 2 9 1)\n(task 3 9 1)\n(task 4 9 3)\n(file 1 2 3 5)\n(file 3 4 2 4)\n",
    )
}

// The same with the colours exchanged.
fn planned_to_blue(rt: &impl Print) -> Result<()> {
    plan(
        rt,
        "MemHEFT, red-blue, blue limit 5: F free from tick 0 on",
        b"(board (blue 2 5) (red 2 3))\n(task 1 4 2)\n(task 2 1 9)\n(task 3 1 9)\n(task 4 3 9)\n(file 1 2 3 5)\n(file 3 4 2 4)\n",
    )?;
    plan(
        rt,
        "MemHEFT, red-blue, blue limit 4: F free from tick 4 on",
        b"(board (blue 2 4) (red 2 3))\n(task 1 4 2)\n(task 2 1 9)\n(task 3 1 9)\n(task 4 3 9)\n(file 1 2 3 5)\n(file 3 4 2 4)\n",
    )?;
    plan(
        rt,
        "MemHEFT, red-blue, blue limit 3: exactly F free from tick 4 on",
        b"(board (blue 2 3) (red 2 3))\n(task 1 4 2)\n(task 2 1 9)\n(task 3 1 9)\n(task 4 3 9)\n(file 1 2 3 5)\n(file 3 4 2 4)\n",
    )?;
    plan(
        rt,
        "MemHEFT, red-red, blue limit 2: F free at no tick",
        b"(board (blue 2 2) (red 2 3))\n(task 1 4 2)\n(task 2 1 9)\n(task 3 1 9)\n(task 4 3 9)\n(file 1 2 3 5)\n(file 3 4 2 4)\n",
    )
}

fn main(rt: HostRuntime) -> Result<()> {
    table(&rt)?;
    reader_within(&rt)?;
    reader_across(&rt)?;
    move_lines(&rt)?;
    limits_within(&rt)?;
    limits_across(&rt)?;
    another_file_within(&rt)?;
    another_file_at_the_maker(&rt)?;
    another_file_at_the_reader(&rt)?;
    planned(&rt)?;
    planned_to_red(&rt)?;
    planned_to_blue(&rt)
}
