// All windows of a batch in one call: a run of windows, a run of answers as long, and one result buffer.
#![tactic(auto)]

ghost use Rattle.std.specs.Prelude.{◌≡◌, length, drop};
ghost use Rattle.query.specs.Query.{Promises};
ghost use Rattle.batch.specs.Batch.{batch_of, asked_from, asked_buffer, Batched, Answered};

use answers::Reason;
use boxes::Window;
use description::Description;
use query::Answer;

// The answer to a batch: a refusal, or how many windows are answered.
#[derive(Clone, Copy)]
pub struct Batch {
    pub number: u64,
    pub place: u64,
    pub windows: usize,
}

// The answer to one window, and how many places of the buffer are used after it.
#[derive(Clone, Copy)]
pub struct Asked {
    pub answer: Answer,
    pub used: usize,
}

// Each window answers as if asked alone with what the earlier ones left of the buffer.
pub fn query_all(
    description: Description,
    tiles: u64,
    body: &[u8],
    windows: &[Window],
    answers: &mut [Answer],
    out: &mut [u32],
) -> Batch
    ensures { Batched description tiles body.now windows.now result answers.old answers.new out.old out.new }
{
    let batch = check_runs(windows.len(), answers.len());
    let mut used = 0;
    for i in 0..batch.windows {
        let asked = ask_from(description, tiles, body, windows[i], out, used);
        answers[i] = asked.answer;
        used = asked.used;
    }
    batch
}

// Thirty-two windows and their answers by value: it lends them to `query_all`, and answers as that does.
pub fn query_32(
    description: Description,
    tiles: u64,
    body: &[u8],
    windows: [Window; 32],
    answers: [Answer; 32],
    out: &mut [u32],
) -> [Answer; 32]
    ensures { Answered description tiles body.now windows result out.old out.new }
{
    let mut answered = answers;
    query_all(description, tiles, body, &windows, &mut answered, out);
    answered
}

// 22 where the answer run is not as long as the query run.
#[tactic(auto, unfolding(crate::specs::Batch::batch_of, answers::specs::Told::number_of))]
pub fn check_runs(windows: usize, answers: usize) -> Batch
    ensures { result ≡ batch_of windows answers }
{
    if windows == answers {
        Batch {
            number: 0,
            place: 0,
            windows,
        }
    } else {
        Batch {
            number: Reason::Runs.number(),
            place: 0,
            windows: 0,
        }
    }
}

// One window of a batch, asked with what is left of the buffer once so many places are used.
pub fn ask_from(
    description: Description,
    tiles: u64,
    body: &[u8],
    window: Window,
    out: &mut [u32],
    used: usize,
) -> Asked
    ensures asked { result ≡ asked_from description tiles body.now window (length out.old)
        used }
    ensures buffer { out.new ≡ asked_buffer description tiles body.now window
        out.old used }
    ensures promises { Promises description tiles body.now window result.answer (drop used out.old) (drop used out.new) }
{
    let room = out.len();
    let start = answers::lesser(used, room);
    let answer = query::query(description, tiles, body, window, &mut out[start..]);
    let more = answers::lesser(answer.found as usize, room - start);
    Asked {
        answer,
        used: used + more,
    }
}
