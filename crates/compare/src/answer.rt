// The run, the question over its result, and the answer as text.
ghost use Rattle.judge.specs.Run.{LIMIT};
ghost use Rattle.simplify.specs.Run.{run_result};
ghost use Rattle.text.specs.Text.{Put};
ghost use Rattle.compare.specs.Line.{answer_text, LONGEST};

use super::words::put_line;
use judge::LIMIT;

// Makes a fresh run, asks about rows x and y over what it leaves, and writes the line or the refusal. The question is asked whatever the run answers, so the
// refusal is the question's: 7 goes before 9 to 15 and 18.
pub fn put_answer(out: &mut [u8], table: &[u8], res: &mut [u8], x: u64, y: u64) -> usize
    ensures { Put out.old 0 (answer_text table.now (run_result table.now res.old LIMIT) x y) LONGEST out.new result }
{
    simplify::run(table, res, LIMIT as u64);
    let comparison = question::ask(table, res, x, y);
    let answer = comparison.answer;
    let why = comparison.why;
    if answer.refusal != 0 {
        return lines::put_refusal(out, answer.refusal, answer.row);
    }
    put_line(out, reasons::top_of(table), x, y, why)
}
