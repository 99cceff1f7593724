// The program as a function from bytes to bytes: what it writes for what it reads.
#![tactic(auto)]

ghost use Rattle.std.specs.Prelude.{◌≤◌, length};
ghost use Rattle.theorems.specs.Writing.{Wrote};
ghost use Rattle.printer.specs.Input.{words_of};
ghost use Rattle.printer.specs.Output.{output, table_output};
ghost use Rattle.program.specs.Answers.{unread_output};

use rows::Fault;
use script::RowNumber;

// Writes the text for a table. A list of 512 words has a text of at most 6,208 bytes.
fn report_table(table: &[i32], out: &mut [u8]) -> usize
    requires { 6208 ≤ length out.old }
    ensures wrote { Wrote out.old 0 (table_output table.now) result out.new }
    ensures upper_bound { result ≤ length out.old }
{
    let mut list = [0i32; 512];
    let mut scratch = [0i32; 5120];
    let answer = generator::told(generator::generate(table, &mut list, &mut scratch));
    printer::render(answer, &list[..answer.words], out)
}

// Writes the text for an input that spells a table of at most 2,048 rows.
fn report_words(input: &[u8], out: &mut [u8]) -> usize
    requires { (length input.now ≤ 32768) × (6208 ≤ length out.old) }
    ensures wrote { Wrote out.old 0 (table_output (words_of input.now)) result out.new }
    ensures upper_bound { result ≤ length out.old }
{
    let mut words = [0i32; 8192];
    let n = printer::decode(input, &mut words);
    report_table(&words[..n], out)
}

// Writes the text for an input that is no table by its length alone.
fn report_length(out: &mut [u8]) -> usize
    requires { 6208 ≤ length out.old }
    ensures wrote { Wrote out.old 0 unread_output result out.new }
    ensures upper_bound { result ≤ length out.old }
{
    let refused = table::Refusal {
        fault: Fault::BadLength,
        row: RowNumber(0),
    };
    let answer = generator::told(Err(generator::Refusal::Table(refused)));
    printer::render(answer, &[], out)
}

// Writes what the program writes for this input, which has room, and gives the number of bytes.
pub fn report(input: &[u8], out: &mut [u8; 6208]) -> usize
    ensures wrote { Wrote out.old 0 (output input.now) result out.new }
    ensures upper_bound { result ≤ length out.old }
{
    if input.len() % 4 != 0 || 32768 < input.len() {
        report_length(out)
    } else {
        report_words(input, out)
    }
}
